//! One communicator, and what its members have done with it.
ghost use Rattle.std.specs.Prelude.{◌≡◌, ◌≤◌, [], true, OnErr, OnOk};
ghost use Rattle.std.specs.List.{list_all};
ghost use Rattle.mpi_base.specs.MemberLists.{has_rank};
ghost use Rattle.mpi_law.specs.Registry.State.{session_at};
ghost use Rattle.mpi_law.specs.Registry.Contexts.{is_live_at};
ghost use Rattle.mpi_law.specs.Registry.Calls.{with_freed, is_kept};
ghost use Rattle.mpi_law.specs.Registry.Events.{with_returned};
ghost use Rattle.mpi_law.specs.Registry.Replies.{is_left_of};
ghost use Rattle.central_comms.specs.Rows.{row_comm, row_room, freed_if_kept, is_held};

use mpi_base::{Members, OutOfMemory};
use std::alloc::Global;

/// A communicator: its context, its members and the session of each, the ranks that have freed it and
/// those that have given it back.
#[derive(Drop)]
pub(crate) struct CommRow {
    pub(crate) ctx: u16,
    pub(crate) members: Members,
    pub(crate) sessions: Vec<u64>,
    pub(crate) freed: Vec<u16>,
    pub(crate) returned: Vec<u16>,
}

/// Whether a rank is among these.
fn has(ranks: &[u16], rank: u16) -> bool
    ensures { result ≡ has_rank ranks.now rank }
{
    ranks.contains(&rank)
}

/// Whether each member is among these ranks.
fn has_all(ranks: &[u16], members: &Members) -> bool
    ensures { result ≡ list_all (has_rank ranks.now) members.now }
{
    for place in 0..members.len() {
        if let Some(member) = members.get(place) {
            if !has(ranks, member) {
                return false;
            }
        }
    }
    true
}

impl CommRow {
    /// A communicator that nobody has freed or given back.
    pub(crate) fn new(alloc: Global, ctx: u16, members: Members, sessions: Vec<u64>) -> CommRow
        ensures { row_comm result ≡ record { ctx = ctx; members = members; sessions = sessions.items; freed = []; returned = [] } }
    {
        CommRow {
            ctx,
            members,
            sessions,
            freed: Vec::new(alloc),
            returned: Vec::new(alloc),
        }
    }

    /// Whether a rank is a member.
    #[tactic(auto, using(crate::proofs::PlaceFacts::is_some_position))]
    fn has_member(&self, rank: u16) -> bool
        ensures { result ≡ has_rank self.now.members rank }
    {
        self.members.place_of(rank).is_some()
    }

    /// The session of a member.
    pub(crate) fn session_at(&self, rank: u16) -> u64
        ensures { result ≡ session_at (row_comm self.now) rank }
    {
        let place = self.members.place_of(rank).unwrap_or(0);
        self.sessions.get(place as usize).copied().unwrap_or(0)
    }

    /// Whether it is live at a rank: a member that has not given it back.
    pub(crate) fn is_live_at(&self, rank: u16) -> bool
        ensures { result ≡ is_live_at (row_comm self.now) rank }
    {
        self.has_member(rank) && !self.is_returned(rank)
    }

    /// Whether a rank has given it back.
    pub(crate) fn is_returned(&self, rank: u16) -> bool
        ensures { result ≡ has_rank self.now.returned.items rank }
    {
        has(self.returned.as_slice(), rank)
    }

    /// Whether all members have freed it.
    pub(crate) fn is_all_freed(&self) -> bool
        ensures { result ≡ list_all (has_rank self.now.freed.items) self.now.members }
    {
        has_all(self.freed.as_slice(), &self.members)
    }

    /// Whether it is of this session of a rank, which has not given it back.
    pub(crate) fn is_left_of(&self, rank: u16, session: u64) -> bool
        ensures { result ≡ is_left_of rank session (row_comm self.now) }
    {
        self.is_live_at(rank) && self.session_at(rank) == session
    }

    /// Whether it is of this session of a rank, which has not freed it.
    pub(crate) fn is_kept(&self, rank: u16, session: u64) -> bool
        ensures { result ≡ is_kept rank session (row_comm self.now) }
    {
        self.has_member(rank)
            && self.session_at(rank) == session
            && !has(self.freed.as_slice(), rank)
    }

    /// Whether some member has not freed it, or not given it back.
    pub(crate) fn is_held(&self) -> bool
        ensures { result ≡ is_held (row_comm self.now) }
    {
        !(self.is_all_freed() && has_all(self.returned.as_slice(), &self.members))
    }

    /// Makes room for one rank more that frees it. All else stays, whatever it answers.
    pub(crate) fn make_room(&mut self) -> Result<(), OutOfMemory>
        ensures ok { OnOk result (1 ≤ row_room self.new) }
        ensures same { row_comm self.new ≡ row_comm self.old }
        ensures room { row_room self.old ≤ row_room self.new }
    {
        self.freed.reserve(1)?;
        Ok(())
    }

    /// A rank frees it if it is of this session of the rank, which has not freed it. There is room for it
    /// then.
    pub(crate) fn free_if_kept(&mut self, rank: u16, session: u64)
        requires { is_kept rank session (row_comm self.old) ≡ true → 1 ≤ row_room self.old }
        ensures { row_comm self.new ≡ freed_if_kept rank session (row_comm self.old) }
    {
        if self.is_kept(rank, session) {
            self.freed.push_reserved(rank);
        }
    }

    /// A rank frees it.
    pub(crate) fn free(&mut self, rank: u16) -> Result<(), OutOfMemory>
        ensures ok { OnOk result (row_comm self.new ≡ with_freed rank (row_comm self.old)) }
        ensures err { OnErr result (row_comm self.new ≡ row_comm self.old) }
    {
        self.freed.push(rank)?;
        Ok(())
    }

    /// A rank gives it back.
    pub(crate) fn give_back(&mut self, rank: u16) -> Result<(), OutOfMemory>
        ensures ok { OnOk result (row_comm self.new ≡ with_returned rank (row_comm self.old)) }
        ensures err { OnErr result (row_comm self.new ≡ row_comm self.old) }
    {
        self.returned.push(rank)?;
        Ok(())
    }
}
