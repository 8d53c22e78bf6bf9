//! Frees, leaves and give-backs.
ghost use Rattle.std.specs.Prelude.{◌≡◌, ℕ, ◌≤◌, ◌<◌, ◌+◌, ◌++◌, true, None, [], length, map};
ghost use Rattle.mpi_law.specs.declared.effects.Effect.TheVariants.{Frees};
ghost use Rattle.mpi_law.specs.declared.setting.TheConstants.{THREADS};
ghost use Rattle.mpi_protocol.specs.Calls.{called};
ghost use Rattle.mpi_protocol.specs.Step.{is_enabled, markers};
ghost use Rattle.mpi_protocol.specs.Stepping.{Steps};
ghost use Rattle.and_reduce.specs.Rooms.{room_of};
ghost use Rattle.rank_core.specs.Packets.{sent_of};
ghost use Rattle.rank_core.specs.Held.{CountsAreLow, IsReady, Makes};

use crate::entries::Told;
use crate::messages::member;
use crate::outbox::Outbox;
use crate::packets::{Packet, Sent};
use crate::rank::RankState;
use mpi_base::{Act, Entry, Members, Name};
use mpi_protocol::Waits;

/// A marker to each member but a rank, in order.
fn send_markers<const W: usize>(out: &mut Vec<Sent<W>>, rank: u16, ctx: u16, members: &Members)
    requires out { 16 ≤ room_of out.old }
    ensures sent { (top : ℕ) → map (sent_of top) out.new.items ≡ map (sent_of top) out.old.items ++ markers rank ctx members.now }
    ensures few { length out.new.items ≤ length out.old.items + 16 }
{
    for place in 0..members.len() {
        let to = member(members, place);
        if to != rank {
            out.push_reserved(Sent {
                to,
                packet: Packet::Marker(ctx),
            });
        }
    }
}

impl<const W: usize> RankState<W> {
    /// A thread frees a communicator, and waits until it is given back.
    pub(crate) fn free(&mut self, thread: u8, name: &Name, ctx: u16)
        requires thread { thread < THREADS }
        requires counts { CountsAreLow self.old }
        ensures state { self.new.state ≡ (called self.old.state thread (Frees name.now ctx)).state }
        ensures boxed { self.new.boxed ≡ self.old.boxed }
        ensures spare { self.old.spare ≤ self.new.spare }
    {
        let serial = self.serial(ctx);
        self.comms.mark_free(ctx);
        self.objects.unbind(name);
        self.threads.call(thread, Waits::Freeing { serial });
    }

    /// The rank leaves a communicator that is freed here, and under which no creation is open.
    #[tactic(auto, unfolding(mpi_protocol::specs::Step::is_enabled, mpi_protocol::specs::Step::step, mpi_protocol::specs::Step::leaves))]
    pub fn leave(&mut self, ctx: u16, out: &mut Outbox<W>) -> Entry
        requires enabled { is_enabled self.old.state (Act.Leave ctx) ≡ true }
        requires ready { IsReady out.old }
        ensures { Makes self.old (Act.Leave ctx) None self.new result out.new }
    {
        let members = self.members(ctx);
        send_markers(&mut out.others, self.agree.rank(), ctx, &members);
        self.comms.leave(ctx);
        self.entry(Act::Leave { ctx }, Told::nothing())
    }

    /// The rank gives back a communicator that all its members have left; its messages are dropped and
    /// counted.
    #[tactic(auto, unfolding(mpi_protocol::specs::Step::is_enabled, mpi_protocol::specs::Step::step, mpi_protocol::specs::Step::gives_back))]
    pub fn back(&mut self, ctx: u16) -> Entry
        requires enabled { is_enabled self.old.state (Act.Back ctx) ≡ true }
        ensures step { Steps self.old.state (Act.Back ctx) None self.new.state result [] }
        ensures rank { self.new.state.rank ≡ self.old.state.rank }
        ensures setting { self.new.state.setting ≡ self.old.state.setting }
        ensures boxed { self.new.boxed ≡ self.old.boxed }
        ensures spare { self.old.spare ≤ self.new.spare }
    {
        self.agree.give_back(ctx);
        self.comms.remove(ctx);
        let dropped = self.matches.drop_ctx(ctx);
        self.entry(
            Act::Back { ctx },
            Told {
                dropped: Some(dropped),
                ..Told::nothing()
            },
        )
    }
}
