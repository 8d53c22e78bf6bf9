//! Calls.
ghost use Rattle.std.specs.Prelude.{◌≡◌, ◌<◌, ◌-◌, ◌^◌, ℕ, length, IfOk, IfSome, IsSome, OnErr, OnOk};
ghost use Rattle.mpi_law.specs.Local.Effects.{said_at_once};
ghost use Rattle.mpi_law.specs.declared.effects.Effect.TheVariants.{Joins};
ghost use Rattle.mpi_law.specs.declared.setting.TheConstants.{THREADS};
ghost use Rattle.mpi_law.specs.Registry.Calls.{effect_at, message_of_call, receive_of_call};
ghost use Rattle.mpi_law.specs.Registry.Creations.{group_of, share_in};
ghost use Rattle.mpi_law.specs.Registry.State.{Registry, part_of};
ghost use Rattle.central_law.specs.Rest.{AtRest};
ghost use Rattle.central_law.specs.Within.{posted_state};
ghost use Rattle.central_law.specs.Fits.{CallFits, MatchFits};
ghost use Rattle.central_law.specs.After.{called_state, comms_after, creations_after, wait_after};
ghost use Rattle.central_mail.specs.Rows.{as_posted, as_sent};
ghost use Rattle.central_ranks.specs.Effects.{BindsFree};
ghost use Rattle.central_ranks.specs.Waits.{wait_of};
ghost use Rattle.central_registry.specs.Moves.{Moves};

use crate::open::Seat;
use crate::tables::Tables;
use call_plan::Call;
use central_creations::Caller;
use central_mail::{Message, Receive};
use central_ranks::Wait;
use mpi_base::{Matched, Members, Op, OutOfMemory, Reply, Shared1};
use mpi_law::{Asked, Effect, Origin, Receiving, Sending, Setting};

/// The reply to an operation that does this, where it comes at once.
fn said_at_once(effect: &Effect<u16>) -> Option<Reply>
    ensures { result ≡ said_at_once effect.now }
{
    match effect {
        Effect::Says(reply) => Some(reply.copy()),
        Effect::Groups { members, .. } => Some(Reply::Group(members.copy())),
        Effect::Opens(_)
        | Effect::Ungroups(_)
        | Effect::Sends(_)
        | Effect::Posts { .. }
        | Effect::NullPosts(_) => Some(Reply::Fine),
        Effect::Joins(_)
        | Effect::Frees { .. }
        | Effect::Ends { .. }
        | Effect::Receives(_)
        | Effect::Completes { .. }
        | Effect::Awaits(_) => None,
    }
}

/// The share with which a creation of this origin is called.
fn share_in(origin: &Origin<u16>) -> Option<Shared1>
    ensures { result ≡ share_in origin.now }
{
    match origin {
        Origin::Divided { share, .. } => Some(*share),
        Origin::Grouped { .. } | Origin::Duplicated { .. } | Origin::GroupedOn { .. } => None,
    }
}

impl Tables {
    /// What an operation of a rank does. The rank is one of the setting's.
    fn effect(&self, setting: &Setting, rank: u16, op: &Op) -> Option<Effect<u16>>
        requires { rank < setting.now.psets.ranks }
        ensures there { rank < length self.now.state.ranks → IsSome result }
        ensures effect { IfSome result (λ e. e ≡ effect_at setting.now self.now.state rank op.now) }
        ensures free { IfSome result (λ e. BindsFree (part_of self.now.state rank).local.names e) }
    {
        let call = Call {
            rank,
            setting,
            objects: self.ranks.objects(rank)?,
            around: &Seat { rank, tables: self },
        };
        Some(call.effect(op))
    }

    /// The message that a rank sends.
    fn message(&self, rank: u16, sending: &Sending<u16>) -> Message
        requires { (part_of self.now.state rank).sends < 2 ^ 64 - 1 }
        ensures { as_sent result ≡ message_of_call self.now.state rank sending.now }
    {
        Message {
            comm: sending.comm,
            from: rank,
            to: self
                .members(sending.comm as usize)
                .get(sending.to)
                .unwrap_or(0),
            tag: sending.tag,
            number: self.ranks.sends(rank) + 1,
            payload: sending.payload.copy(),
        }
    }

    /// The receive that a rank posts.
    fn receive(&self, rank: u16, receiving: &Receiving<u16>) -> Receive
        requires { (part_of self.now.state rank).receives < 2 ^ 64 - 1 }
        ensures { as_posted result ≡ receive_of_call self.now.state rank receiving.now }
    {
        Receive {
            rank,
            number: self.ranks.receives(rank) + 1,
            comm: receiving.comm,
            source: receiving.source,
            tag: receiving.tag,
            room: receiving.room,
        }
    }

    /// What an operation that does this sends or posts. After an Err nothing has changed.
    fn post(&mut self, rank: u16, effect: &Effect<u16>) -> Result<(), OutOfMemory>
        requires sends { (part_of self.old.state rank).sends < 2 ^ 64 - 1 }
        requires receives { (part_of self.old.state rank).receives < 2 ^ 64 - 1 }
        ensures ok { OnOk result (self.new.state ≡ posted_state self.old.state rank effect.now) }
        ensures err { OnErr result (self.new.state ≡ self.old.state) }
        ensures spares { self.new.spares ≡ self.old.spares }
    {
        match effect {
            Effect::Sends(sending) => {
                let message = self.message(rank, sending);
                self.mail.send(message)
            }
            Effect::Receives(receiving)
            | Effect::Posts {
                receive: receiving,
                ..
            } => {
                let receive = self.receive(rank, receiving);
                self.mail.post(receive)
            }
            _ => Ok(()),
        }
    }

    /// Takes out again what an operation has sent or posted.
    fn unpost(&mut self, effect: &Effect<u16>)
        ensures { (g : Registry) (r : ℕ) → self.old.state ≡ posted_state g r effect.now → self.new.state ≡ g }
    {
        match effect {
            Effect::Sends(_) => self.mail.unsend(),
            Effect::Receives(_) | Effect::Posts { .. } => self.mail.unpost(),
            _ => {}
        }
    }

    /// Those that call a creation of this origin.
    fn group_of(&self, origin: &Origin<u16>) -> Members
        ensures { result ≡ group_of self.now.state origin.now }
    {
        match origin {
            Origin::Grouped { group, .. } | Origin::GroupedOn { group, .. } => group.copy(),
            Origin::Duplicated { comm } | Origin::Divided { comm, .. } => self.members(
                *comm as usize,
            ),
        }
    }

    /// A thread joins the creation that it asks for. After an Err nothing has changed.
    fn join(&mut self, rank: u16, thread: u8, asked: &Asked<u16>) -> Result<(), OutOfMemory>
        ensures ok { OnOk result (self.new.state ≡ record self.old.state { creations = creations_after self.old.state rank thread (Joins asked.now) }) }
        ensures err { OnErr result (self.new.state ≡ self.old.state) }
        ensures spares { self.new.spares ≡ self.old.spares }
    {
        let name = self.creations.name_of(rank, &asked.origin);
        let group = self.group_of(&asked.origin);
        let caller = Caller {
            rank,
            thread,
            target: asked.target.copy(),
            session: asked.session,
            share: share_in(&asked.origin),
        };
        self.creations.join(name, group, caller)
    }

    /// What an operation that does this changes of communicators and creations. After an Err nothing has
    /// changed.
    fn change(&mut self, rank: u16, thread: u8, effect: &Effect<u16>) -> Result<(), OutOfMemory>
        ensures ok { OnOk result (self.new.state ≡ record self.old.state { comms = comms_after self.old.state rank effect.now; creations = creations_after self.old.state rank thread effect.now }) }
        ensures err { OnErr result (self.new.state ≡ self.old.state) }
        ensures spares { self.new.spares ≡ self.old.spares }
    {
        match effect {
            Effect::Joins(asked) => self.join(rank, thread, asked),
            Effect::Frees { comm, .. } if self.has_comm(*comm as usize) => {
                self.comms.free(*comm as usize, rank)
            }
            Effect::Ends { session, .. } => self.comms.free_session(rank, *session),
            _ => Ok(()),
        }
    }

    /// What a thread of a rank waits for once it has called an operation that does this.
    fn wait_after(&self, rank: u16, effect: &Effect<u16>) -> Wait
        requires { (part_of self.now.state rank).receives < 2 ^ 64 - 1 }
        ensures { wait_of result ≡ wait_after self.now.state rank effect.now }
    {
        match effect {
            Effect::Joins(asked) => {
                let name = self.creations.name_of(rank, &asked.origin);
                Wait::Creating(self.creations.place_joinable(&name))
            }
            Effect::Frees { comm, .. } => Wait::Freeing(*comm),
            Effect::Ends { session, .. } => Wait::Ending(*session),
            Effect::Receives(_) => Wait::Receiving(self.ranks.receives(rank) + 1),
            Effect::Completes { number, .. } => Wait::Receiving(*number),
            Effect::Awaits(name) => Wait::Awaiting(name.copy()),
            Effect::Says(_)
            | Effect::Opens(_)
            | Effect::Groups { .. }
            | Effect::Ungroups(_)
            | Effect::Sends(_)
            | Effect::Posts { .. }
            | Effect::NullPosts(_) => Wait::Idle,
        }
    }

    /// An idle thread of a rank calls an operation that does this, where the match of the call's entry may be
    /// made; whether it may is answered. After an Err nothing has changed; a count of the rank at the greatest
    /// `u64` is answered as want of memory.
    fn carry_out(
        &mut self,
        rank: u16,
        thread: u8,
        effect: Effect<u16>,
        matched: Option<Matched>,
    ) -> Result<bool, OutOfMemory>
        requires rank { rank < length self.old.state.ranks }
        requires thread { thread < THREADS }
        requires free { BindsFree (part_of self.old.state rank).local.names effect }
        ensures ok { IfOk result (λ moved. Moves (MatchFits (posted_state self.old.state rank effect) rank matched) self.old.state (called_state self.old.state rank thread effect matched) moved self.new.state) }
        ensures err { OnErr result (self.new.state ≡ self.old.state) }
    {
        self.ranks.reserve(rank)?;
        self.post(rank, &effect)?;
        if !self.may_match(rank, matched) {
            self.unpost(&effect);
            return Ok(false);
        }
        let wait = self.wait_after(rank, &effect);
        if let Err(error) = self.change(rank, thread, &effect) {
            self.unpost(&effect);
            return Err(error);
        }
        self.take(rank, matched);
        self.ranks.call(rank, thread, effect, wait);
        Ok(true)
    }

    /// What a call does, with the match and the reply of its entry; whether it may be so is answered, and
    /// nothing changes where it may not. After an Err nothing has changed; a count of the rank at the greatest
    /// `u64` is answered as want of memory.
    pub(crate) fn call(
        &mut self,
        setting: &Setting,
        rank: u16,
        thread: u8,
        op: &Op,
        matched: Option<Matched>,
        reply: &Option<Reply>,
    ) -> Result<bool, OutOfMemory>
        requires rest { AtRest setting.now self.old.state }
        requires ranks { setting.now.psets.ranks ≡ setting.now.ranks }
        ensures ok { IfOk result (λ moved. Moves (CallFits setting.now self.old.state rank thread op.now matched reply.now) self.old.state (called_state self.old.state rank thread (effect_at setting.now self.old.state rank op.now) matched) moved self.new.state) }
        ensures err { OnErr result (self.new.state ≡ self.old.state) }
    {
        if !self.ranks.is_idle(rank, thread) {
            return Ok(false);
        }
        let Some(effect) = self.effect(setting, rank, op) else {
            return Ok(false);
        };
        if said_at_once(&effect) != *reply {
            return Ok(false);
        }
        self.carry_out(rank, thread, effect, matched)
    }
}
