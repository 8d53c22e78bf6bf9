//! Open creations.
ghost use Rattle.std.specs.List.{list_any, range_with_len};
ghost use Rattle.mpi_law.specs.declared.setting.TheConstants.{THREADS};
ghost use Rattle.std.specs.Prelude.{◌≡◌, ◌==◌};
ghost use Rattle.mpi_law.specs.Registry.Creations.{caller_of, creates, has_open_of, has_open_under, is_open, is_under, same_name};
ghost use Rattle.mpi_law.specs.Registry.State.{created_by, thread_of};
ghost use Rattle.mpi_law.specs.Registry.Calls.{around};

use crate::tables::Tables;
use call_plan::Around;
use central_creations::CreationName;
use mpi_base::Members;
use mpi_law::{Origin, THREADS};

/// A rank at its tables, for what a call of it looks at.
#[derive(Drop)]
pub(crate) struct Seat<'a> {
    pub(crate) rank: u16,
    pub(crate) tables: &'a Tables,
}

impl Around for Seat<'_> {
    ghost seen = { λ s. around s.tables.now.state s.rank };

    fn members(&self, comm: u16) -> Members {
        self.tables.members(comm as usize)
    }

    fn size(&self, comm: u16) -> u16 {
        self.members(comm).len()
    }

    fn is_busy(&self, origin: &Origin<u16>) -> bool {
        let tables: &Tables = self.tables;
        let _ = tables.ranks.count();
        let name = tables.creations.name_of(self.rank, origin);
        tables.is_open(self.rank, &name)
    }

    fn is_engaged(&self, session: u64) -> bool {
        let tables: &Tables = self.tables;
        let _ = tables.ranks.count();
        tables.has_open_of(self.rank, session)
    }
}

impl Tables {
    /// Whether a thread of a rank waits for a creation of this name.
    fn is_creating(&self, rank: u16, thread: u8, name: &CreationName) -> bool
        ensures { result ≡ creates self.now.state (λ c. same_name c.name name.now) (created_by (thread_of self.now.state rank thread).wait) }
    {
        match self.ranks.created_by(rank, thread) {
            Some(place) => self.creations.is_named(place, name),
            None => false,
        }
    }

    /// Whether a creation of this name is open at a rank.
    fn is_open(&self, rank: u16, name: &CreationName) -> bool
        ensures { result ≡ list_any (λ t. creates self.now.state (λ c. same_name c.name name.now) (created_by (thread_of self.now.state rank t).wait)) (range_with_len 0 THREADS) }
    {
        (0..THREADS).any(
            |thread| -> bool
                ensures { result ≡ creates self.entry.now.state (λ c. same_name c.name name.entry.now) (created_by (thread_of self.entry.now.state rank thread).wait) }
            { self.is_creating(rank, thread, name) },
        )
    }

    /// Whether a thread of a rank waits for a creation under a communicator.
    fn is_creating_under(&self, rank: u16, thread: u8, comm: usize) -> bool
        ensures { result ≡ creates self.now.state (λ c. is_under comm c.name) (created_by (thread_of self.now.state rank thread).wait) }
    {
        match self.ranks.created_by(rank, thread) {
            Some(place) => self.creations.is_under(place, comm),
            None => false,
        }
    }

    /// Whether a creation under a communicator is open at a rank.
    pub(crate) fn has_open_under(&self, comm: usize, rank: u16) -> bool
        ensures { result ≡ list_any (λ t. creates self.now.state (λ c. is_under comm c.name) (created_by (thread_of self.now.state rank t).wait)) (range_with_len 0 THREADS) }
    {
        (0..THREADS).any(
            |thread| -> bool
                ensures { result ≡ creates self.entry.now.state (λ c. is_under comm c.name) (created_by (thread_of self.entry.now.state rank thread).wait) }
            { self.is_creating_under(rank, thread, comm) },
        )
    }

    /// Whether a thread of a rank waits for a creation of one of the rank's sessions.
    fn is_creating_of(&self, rank: u16, thread: u8, session: u64) -> bool
        ensures { result ≡ creates self.now.state (λ c. (caller_of c.callers rank).session == session) (created_by (thread_of self.now.state rank thread).wait) }
    {
        match self.ranks.created_by(rank, thread) {
            Some(place) => self.creations.is_of_session(place, rank, session),
            None => false,
        }
    }

    /// Whether a creation of one of its sessions is open at a rank.
    fn has_open_of(&self, rank: u16, session: u64) -> bool
        ensures { result ≡ list_any (λ t. creates self.now.state (λ c. (caller_of c.callers rank).session == session) (created_by (thread_of self.now.state rank t).wait)) (range_with_len 0 THREADS) }
    {
        (0..THREADS).any(
            |thread| -> bool
                ensures { result ≡ creates self.entry.now.state (λ c. (caller_of c.callers rank).session == session) (created_by (thread_of self.entry.now.state rank thread).wait) }
            { self.is_creating_of(rank, thread, session) },
        )
    }
}
