//! What a name may be bound to.
ghost use Rattle.std.specs.Prelude.{◌≡◌};
ghost use Rattle.bind_tab.specs.Rows.{is_of, seen};

use mpi_group::Group;
use session_tab::SessionId;

/// What a name is bound to. Names stand for the caller's handles; that they may be reserved is this
/// project's own. A group and a communicator name their session by its serial.
#[derive(Drop, PartialEq, Eq)]
pub enum Bound {
    /// Held for a call that is not answered yet.
    Reserved,
    /// A session (MPI 4.0, 11.3.1).
    Session(SessionId),
    /// A group, and its session (MPI 4.0, 7.3).
    Group(Group, u64),
    /// A communicator by its context at this rank, and its session (MPI 4.0, 7.4).
    Comm(u16, u64),
    /// A request by the number of its receive, which is 0 where it receives from the null process
    /// (MPI 4.0, 3.7).
    Request(u64),
}

impl Bound {
    /// Whether it is the session with this serial, or a group or a communicator of it.
    pub(crate) fn is_of(&self, session: u64) -> bool
        ensures { result ≡ is_of session (seen self.now) }
    {
        match self {
            Bound::Session(id) => id.serial == session,
            Bound::Group(_, serial) | Bound::Comm(_, serial) => *serial == session,
            Bound::Reserved | Bound::Request(_) => false,
        }
    }
}
