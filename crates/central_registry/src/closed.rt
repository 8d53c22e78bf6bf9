//! Registries that are closed.
ghost use Rattle.std.specs.Prelude.{◌≡◌, ◌<◌, ◌≤◌, None, length};
ghost use Rattle.std.specs.List.{list_all, range_with_len};
ghost use Rattle.mpi_law.specs.declared.setting.TheConstants.{THREADS};
ghost use Rattle.mpi_law.specs.Closed.{is_at_rest, is_back_or_held, is_closed, is_matched_out, is_settled};
ghost use Rattle.mpi_law.specs.Registry.Calls.{to_post, to_send};
ghost use Rattle.mpi_law.specs.Registry.State.{is_idle_wait, thread_of};

use crate::tables::Tables;
use central_ranks::Wait;
use mpi_law::{Scripts, Setting, THREADS};

impl Tables {
    /// Whether a member has given a communicator back, or cannot yet.
    fn is_back_or_held(&self, comm: usize, rank: u16) -> bool
        ensures { result ≡ is_back_or_held self.now.state comm rank }
    {
        self.is_returned(comm, rank)
            || !self.all_freed(comm)
            || self.has_open_anywhere(comm)
            || self.mail.has_waiting(comm, rank)
    }

    /// Whether each member of a communicator has given it back, or cannot yet.
    fn is_settled(&self, comm: usize) -> bool
        ensures { result ≡ is_settled self.now.state comm }
    {
        let members = self.members(comm);
        for place in 0..members.len() {
            if let Some(member) = members.get(place) {
                if !self.is_back_or_held(comm, member) {
                    return false;
                }
            }
        }
        true
    }

    /// Whether a thread waits for nothing; so it does where there is no such rank or no such thread. It is
    /// never within a call.
    fn is_idle(&self, rank: u16, thread: u8) -> bool
        ensures idle { result ≡ is_idle_wait (thread_of self.now.state rank thread).wait }
        ensures sends { to_send (thread_of self.now.state rank thread).wait ≡ None }
        ensures posts { to_post (thread_of self.now.state rank thread).wait ≡ None }
    {
        match self.ranks.wait(rank, thread) {
            Some(Wait::Idle) | None => true,
            Some(_) => false,
        }
    }

    /// Whether a thread waits and is not to be answered, or has called its whole script.
    fn is_at_rest(&self, scripts: &Scripts, rank: u16, thread: u8) -> bool
        requires rank { rank < scripts.now.ranks }
        requires thread { thread < THREADS }
        ensures { result ≡ is_at_rest scripts.now self.now.state rank thread }
    {
        let is_idle = self.is_idle(rank, thread);
        self.owed(rank, thread).is_none()
            && (!is_idle || self.ranks.calls(rank, thread) >= u64::from(scripts.len(rank, thread)))
    }

    /// Whether each thread of a rank waits and is not to be answered, or has called its whole script.
    fn is_rank_at_rest(&self, scripts: &Scripts, rank: u16) -> bool
        requires { rank < scripts.now.ranks }
        ensures { result ≡ list_all (is_at_rest scripts.now self.now.state rank) (range_with_len 0 THREADS) }
    {
        (0..THREADS).all(
            |thread| -> bool
                requires rank { rank < scripts.now.ranks }
                requires thread { thread < THREADS }
                ensures { result ≡ is_at_rest scripts.entry.now self.entry.now.state rank thread }
            { self.is_at_rest(scripts, rank, thread) },
        )
    }

    /// Whether each communicator is settled.
    fn is_all_settled(&self) -> bool
        ensures { result ≡ list_all (is_settled self.now.state) (range_with_len 0 (length self.now.state.comms)) }
    {
        (0..self.comms.len()).all(
            |comm| -> bool
                ensures { result ≡ is_settled self.entry.now.state comm }
            { self.is_settled(comm) },
        )
    }

    /// Whether each thread of each rank waits and is not to be answered, or has called its whole script.
    fn is_all_at_rest(&self, scripts: &Scripts, ranks: u16) -> bool
        requires { ranks ≤ scripts.now.ranks }
        ensures { result ≡ list_all (λ r. list_all (is_at_rest scripts.now self.now.state r) (range_with_len 0 THREADS)) (range_with_len 0 ranks) }
    {
        (0..ranks).all(
            |rank| -> bool
                requires { rank < scripts.now.ranks }
                ensures { result ≡ list_all (is_at_rest scripts.entry.now self.entry.now.state rank) (range_with_len 0 THREADS) }
            { self.is_rank_at_rest(scripts, rank) },
        )
    }

    /// Whether no receive may take a message.
    fn is_matched_out(&self) -> bool
        ensures { result ≡ is_matched_out self.now.state }
    {
        self.mail.is_matched_out(&self.comms)
    }

    /// Whether nothing but calls beyond the scripts may come.
    #[tactic(auto, unfolding(mpi_law::specs::Closed::is_closed))]
    pub(crate) fn is_closed(&self, setting: &Setting, scripts: &Scripts) -> bool
        requires { scripts.now.ranks ≡ setting.now.ranks }
        ensures { result ≡ is_closed setting.now scripts.now self.now.state }
    {
        self.creations.all_picked_or_short()
            && self.is_matched_out()
            && self.is_all_settled()
            && self.is_all_at_rest(scripts, setting.ranks)
    }
}
