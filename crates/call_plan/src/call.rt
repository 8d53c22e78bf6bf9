//! What a call looks at.
ghost use Rattle.std.specs.Prelude.{◌≡◌, ℕ, length};
ghost use Rattle.mpi_law.specs.Local.Effects.{Around as Sight};

use bind_tab::Objects;
use mpi_base::Members;
use mpi_law::{Origin, Setting};

/// What a call looks at besides the names of its rank: the communicators and the creations that are
/// open there. A communicator is named by a number.
pub trait Around {
    // What is seen, as the definitions of the operations look at it.
    ghost seen: { Self → Sight };

    /// The members of a communicator; none where there is no such communicator.
    fn members(&self, comm: u16) -> Members
        ensures { result ≡ (seen self.now).members comm };

    /// How many members a communicator has; 0 where there is no such communicator.
    fn size(&self, comm: u16) -> u16
        ensures { result ≡ length ((seen self.now).members comm) };

    /// Whether a creation of this origin is open at the rank.
    fn is_busy(&self, origin: &Origin<u16>) -> bool
        ensures { result ≡ (seen self.now).busy origin.now };

    /// Whether a creation of this session is open at the rank; a session is named by its count at the
    /// rank, from 1.
    fn is_engaged(&self, session: u64) -> bool
        ensures { result ≡ (seen self.now).engaged session };
}

/// What a call looks at: the caller's rank and setting, its names and sessions, and what is around them.
#[derive(Drop)]
pub struct Call<'a, A: Around> {
    /// The caller's rank in the world, which is one of those of the setting's process sets.
    pub rank: u16,
    /// The setting.
    pub setting: &'a Setting,
    /// The names and sessions of the rank.
    pub objects: &'a Objects,
    /// The communicators of the rank, and the creations that are open there.
    pub around: &'a A,
}
