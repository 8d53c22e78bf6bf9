//! Replies to threads that wait.
ghost use Rattle.std.specs.Prelude.{◌≡◌, ◌↔◌, ℕ, true, Some, set, IfOk, OnErr};
ghost use Rattle.mpi_base.specs.MemberLists.{has_rank};
ghost use Rattle.mpi_law.specs.Local.Messages.{from_nobody};
ghost use Rattle.mpi_law.specs.Registry.Creations.{caller_of, has_called, outcome_for};
ghost use Rattle.mpi_law.specs.Registry.Replies.{bind_outcome, outcome_reply, owed, owed_creation, with_local};
ghost use Rattle.mpi_law.specs.Registry.State.{Creating, Made, comm_at, creation_at, part_of, thread_of};
ghost use Rattle.central_law.specs.Fits.{ReplyFits};
ghost use Rattle.central_law.specs.After.{replied_state};
ghost use Rattle.central_registry.specs.Moves.{Moves};

use crate::tables::Tables;
use central_creations::Outcome;
use central_ranks::Wait;
use mpi_base::{ErrClass, OutOfMemory, Payload, Reply};

/// What is received from the null process.
fn nothing_received() -> Reply
    ensures { result ≡ from_nobody }
{
    let Some(payload) = Payload::new(b"") else {
        unreachable!()
    };
    Reply::Received {
        source: None,
        tag: None,
        payload,
    }
}

impl Tables {
    /// What a member of a communicator is told of it.
    fn made_reply(&self, rank: u16, comm: usize) -> Reply
        ensures { result ≡ outcome_reply self.now.state rank (Made comm) }
    {
        let members = self.members(comm);
        Reply::Comm {
            ctx: if self.has_comm(comm) {
                self.comms.ctx(comm)
            } else {
                0
            },
            rank: members.place_of(rank).unwrap_or(0),
            size: members.len(),
        }
    }

    /// What a rank is owed of the creation at a place.
    fn owed_creation(&self, rank: u16, place: usize) -> Option<Reply>
        ensures { result ≡ owed_creation self.now.state rank (creation_at self.now.state place) }
    {
        if self.creations.is_uncoloured(place, rank) {
            return if self.creations.all_called(place) {
                Some(Reply::Null)
            } else {
                None
            };
        }
        match self.creations.outcome_for(place, rank)? {
            Outcome::Made(comm) => Some(self.made_reply(rank, comm as usize)),
            Outcome::NoneFree => Some(Reply::Refused(ErrClass::Exhausted)),
        }
    }

    /// Whether a rank has given a communicator back.
    pub(crate) fn is_returned(&self, comm: usize, rank: u16) -> bool
        ensures { result ≡ has_rank (comm_at self.now.state comm).returned rank }
    {
        self.has_comm(comm) && self.comms.is_returned(comm, rank)
    }

    /// The reply that a thread is owed now.
    pub(crate) fn owed(&self, rank: u16, thread: u8) -> Option<Reply>
        ensures { result ≡ owed self.now.state rank thread }
    {
        let is_there = match self.ranks.wait(rank, thread)? {
            Wait::Idle => false,
            Wait::Creating(place) => return self.owed_creation(rank, *place),
            Wait::Freeing(comm) => self.is_returned(*comm as usize, rank),
            Wait::Ending(session) => !self.comms.has_left_of(rank, *session),
            Wait::Receiving(0) => return Some(nothing_received()),
            Wait::Receiving(number) => return self.mail.owed(&self.comms, rank, *number),
            Wait::Awaiting(name) => self.ranks.is_bound(rank, name),
        };
        if is_there { Some(Reply::Fine) } else { None }
    }

    /// Whether a thread is owed this reply now.
    fn is_owed(&self, rank: u16, thread: u8, said: &Reply) -> bool
        ensures { (result ≡ true) ↔ (owed self.now.state rank thread ≡ Some said.now) }
    {
        match self.owed(rank, thread) {
            Some(owed) => owed == *said,
            None => false,
        }
    }

    /// A rank is answered of the creation at a place, which it has called: its target is bound or free again.
    fn bind_outcome(&mut self, rank: u16, place: usize)
        requires { has_called (creation_at self.old.state place) rank ≡ true }
        ensures { self.new.state ≡ record self.old.state { ranks = set self.old.state.ranks rank (with_local (part_of self.old.state rank) (bind_outcome (part_of self.old.state rank).local (caller_of (creation_at self.old.state place).callers rank) (outcome_for (creation_at self.old.state place) rank))) } }
    {
        let Some(caller) = self.creations.caller(place, rank) else {
            return;
        };
        match self.creations.outcome_for(place, rank) {
            Some(Outcome::Made(comm)) => {
                self.ranks.bind(rank, &caller.target, comm, caller.session);
            }
            Some(Outcome::NoneFree) | None => self.ranks.unbind(rank, &caller.target),
        }
    }

    /// What an answer does: the reply that its entry has.
    pub(crate) fn answer(
        &mut self,
        rank: u16,
        thread: u8,
        reply: &Option<Reply>,
    ) -> Result<bool, OutOfMemory>
        requires { (n : ℕ) → (thread_of self.old.state rank thread).wait ≡ Creating n → has_called (creation_at self.old.state n) rank ≡ true }
        ensures ok { IfOk result (λ moved. Moves (ReplyFits self.old.state rank thread reply.now) self.old.state (replied_state self.old.state rank thread reply.now) moved self.new.state) }
        ensures err { OnErr result (self.new.state ≡ self.old.state) }
    {
        let Some(said) = reply else {
            return Ok(true);
        };
        if !self.is_owed(rank, thread, said) {
            return Ok(false);
        }
        if let Some(place) = self.ranks.created_by(rank, thread) {
            self.creations.answer(place, rank)?;
            self.bind_outcome(rank, place);
        }
        self.ranks.answer(rank, thread);
        Ok(true)
    }
}
