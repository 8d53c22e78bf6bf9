//! Keys of creations.
ghost use Rattle.std.specs.Prelude.{◌≡◌, []};
ghost use Rattle.mpi_protocol.specs.Calls.{key_on as key_of_comm, key_of as key_of_origin};

use comm_tab::CommTab;
use mpi_base::{Key, Kind, Members, StringTag};
use mpi_law::Origin;

/// The tag of a creation under a communicator.
fn no_tag() -> StringTag
    ensures { result ≡ [] }
{
    let Some(tag) = StringTag::new(b"") else {
        unreachable!()
    };
    tag
}

/// The key of a duplicate of the communicator with a context, or of the exchange of a split.
fn key_on(comms: &CommTab, ctx: u16, kind: Kind) -> Key
    ensures { result ≡ key_of_comm comms.now.comms ctx kind }
{
    let (number, members) = match comms.find(ctx) {
        Some(row) => (row.calls, row.members.copy()),
        None => (0, Members::none()),
    };
    Key {
        parent: ctx,
        kind,
        number,
        tag: no_tag(),
        members,
    }
}

/// The key of a creation that a rank with these communicators calls now; a split begins with the
/// exchange of its shares. The number of a duplicate or of an exchange is that of the calls of both on
/// the communicator before. This project's own.
pub fn key_of(comms: &CommTab, origin: &Origin<u16>) -> Key
    ensures { result ≡ key_of_origin comms.now.comms origin.now }
{
    match origin {
        Origin::Grouped { group, tag } => Key {
            parent: 0,
            kind: Kind::From,
            number: 0,
            tag: tag.copy(),
            members: group.copy(),
        },
        Origin::Duplicated { comm } => key_on(comms, *comm, Kind::Dup),
        Origin::Divided { comm, .. } => key_on(comms, *comm, Kind::Share),
        Origin::GroupedOn { comm, tag, group } => Key {
            parent: *comm,
            kind: Kind::Group,
            number: u64::from(*tag),
            tag: no_tag(),
            members: group.copy(),
        },
    }
}
