//! What a thread waits for.
ghost use Rattle.std.specs.Prelude.{◌≡◌};
ghost use Rattle.mpi_law.specs.Registry.State.{created_by, is_idle_wait};
ghost use Rattle.central_ranks.specs.Waits.{wait_of};

use mpi_base::Name;

/// What a thread waits for between two entries of the journal. A communicator and a creation are named by
/// their places in the registry, from 0.
#[derive(Drop)]
pub enum Wait {
    /// Nothing.
    Idle,
    /// A creation, by its place (MPI 4.0, 7.4.2).
    Creating(usize),
    /// That a communicator is given back, by its place (MPI 4.0, 7.4.3).
    Freeing(u16),
    /// That the communicators of a session are given back, by its count at the rank, from 1 (MPI 4.0,
    /// 11.3.1).
    Ending(u64),
    /// A receive, by its number at the rank, from 1; 0 for one from the null process (MPI 4.0, 3.11).
    Receiving(u64),
    /// That a name is bound. This project's own.
    Awaiting(Name),
}

impl Wait {
    /// Whether it is nothing.
    pub(crate) fn is_idle(&self) -> bool
        ensures { result ≡ is_idle_wait (wait_of self.now) }
    {
        matches!(self, Wait::Idle)
    }

    /// The creation that it is, by its place; None where it is no creation.
    pub(crate) fn created(&self) -> Option<usize>
        ensures { result ≡ created_by (wait_of self.now) }
    {
        match self {
            Wait::Creating(place) => Some(*place),
            _ => None,
        }
    }
}
