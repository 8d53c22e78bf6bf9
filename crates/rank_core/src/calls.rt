//! Calls.
ghost use Rattle.std.specs.Prelude.{◌≡◌, ◌≤◌, ◌<◌, ◌+◌, true, None, [], length};
ghost use Rattle.mpi_law.specs.Local.{effect_of};
ghost use Rattle.mpi_law.specs.declared.setting.TheConstants.{THREADS};
ghost use Rattle.mpi_protocol.specs.Calls.{around_here};
ghost use Rattle.mpi_protocol.specs.Step.{is_enabled};
ghost use Rattle.call_plan.specs.Targets.{BindsFree};
ghost use Rattle.rank_core.specs.Calling.{Carries};
ghost use Rattle.rank_core.specs.Packets.{sent_by};
ghost use Rattle.rank_core.specs.Held.{CountsAreLow, IsReady, Makes, MOST_SENT};

use crate::entries::Told;
use crate::outbox::Outbox;
use crate::rank::RankState;
use bind_tab::Bound;
use mpi_base::{Act, Entry, Matched, Op, Reply};
use mpi_group::Group;
use mpi_law::Effect;
use mpi_protocol::Waits;
use rank_plan::Surroundings;

/// What a call says: the match that it made, and the reply, if it comes at once.
type Said = (Option<Matched>, Option<Reply>);

impl<const W: usize> RankState<W> {
    /// What an operation does here.
    fn effect(&self, op: &Op) -> Effect<u16>
        ensures effect { result ≡ effect_of self.now.state.setting self.now.state.rank (around_here self.now.state) self.now.state.local op.now }
        ensures free { BindsFree self.now.state.local.names result }
    {
        let around = Surroundings {
            rank: self.agree.rank(),
            setting: &self.setting,
            objects: &self.objects,
            comms: &self.comms,
            threads: &self.threads,
        };
        around.effect(op)
    }

    /// Carries out what an operation does, and gives what the entry says.
    fn carry_out(&mut self, thread: u8, effect: Effect<u16>, out: &mut Outbox<W>) -> Said
        requires thread { thread < THREADS }
        requires room { 1 ≤ self.old.spare }
        requires ready { IsReady out.old }
        requires counts { CountsAreLow self.old }
        requires free { BindsFree self.old.state.local.names effect }
        ensures carried { Carries self.old.state thread effect self.new.state result.0 result.1 (sent_by self.old.state.setting.contexts out.new) }
        ensures few { length (sent_by self.old.state.setting.contexts out.new) ≤ MOST_SENT }
        ensures boxed { self.new.boxed ≤ self.old.boxed + 1 }
        ensures spare { self.old.spare ≤ self.new.spare + 1 }
    {
        match effect {
            Effect::Says(reply) => {
                self.threads.call(thread, Waits::Nothing);
                (None, Some(reply))
            }
            Effect::Opens(target) => {
                self.objects.open(target);
                self.threads.call(thread, Waits::Nothing);
                (None, Some(Reply::Fine))
            }
            Effect::Groups {
                target,
                members,
                session,
            } => {
                let reply = Reply::Group(members.copy());
                self.objects
                    .bind(target, Bound::Group(Group::of(members), session));
                self.threads.call(thread, Waits::Nothing);
                (None, Some(reply))
            }
            Effect::Ungroups(name) => {
                self.objects.unbind(&name);
                self.threads.call(thread, Waits::Nothing);
                (None, Some(Reply::Fine))
            }
            Effect::Joins(asked) => {
                self.join(thread, asked, out);
                (None, None)
            }
            Effect::Frees { name, comm } => {
                self.free(thread, &name, comm);
                (None, None)
            }
            Effect::Ends { session, .. } => {
                self.comms.free_session(session);
                self.objects.end_session(session);
                self.threads.call(thread, Waits::Ending { session });
                (None, None)
            }
            Effect::Sends(sending) => (self.send(thread, sending, out), Some(Reply::Fine)),
            Effect::Receives(receiving) => {
                let number = self.posts + 1;
                let waits = Waits::Receiving { number };
                (self.receive(thread, receiving, None, waits), None)
            }
            Effect::Posts { target, receive } => {
                let matched = self.receive(thread, receive, Some(target), Waits::Nothing);
                (matched, Some(Reply::Fine))
            }
            Effect::NullPosts(target) => {
                self.objects.bind(target, Bound::Request(0));
                self.threads.call(thread, Waits::Nothing);
                (None, Some(Reply::Fine))
            }
            Effect::Completes { name, number } => {
                self.objects.unbind(&name);
                self.threads.call(thread, Waits::Receiving { number });
                (None, None)
            }
            Effect::Awaits(name) => {
                self.threads.call(thread, Waits::Awaiting { name });
                (None, None)
            }
        }
    }

    /// A thread that waits for nothing calls an operation.
    ///
    /// The call is enabled, there is room for it, no count is at its end, and the outbox is empty with
    /// room for all that a step may send; so for each step of this type.
    #[tactic(auto, unfolding(mpi_protocol::specs::Step::is_enabled))]
    pub fn call(&mut self, thread: u8, op: Op, out: &mut Outbox<W>) -> Entry
        requires enabled { is_enabled self.old.state (Act.Call thread op) ≡ true }
        requires room { 1 ≤ self.old.spare }
        requires counts { CountsAreLow self.old }
        requires ready { IsReady out.old }
        ensures { Makes self.old (Act.Call thread op) None self.new result out.new }
    {
        let effect = self.effect(&op);
        let (matched, reply) = self.carry_out(thread, effect, out);
        self.entry(
            Act::Call { thread, op },
            Told {
                matched,
                reply,
                ..Told::nothing()
            },
        )
    }
}
