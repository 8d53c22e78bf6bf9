//! What an operation does: one type for the central registry and for a rank. `C` is how a communicator is
//! named: by its place in the registry's list, and by its context at a rank.

use mpi_base::{Members, Name, Payload, Reply, Shared1, StringTag};

/// The greatest tag of a message, and of a group under a communicator.
pub const MOST_TAG: u16 = 32_767;

/// The lane of messages; that of collectives is another one.
pub const MESSAGE_LANE: u8 = 0;

/// What a new communicator comes from (MPI 4.0, 7.4.2).
#[derive(Drop)]
pub enum Origin<C> {
    /// An ordered group and a string tag.
    Grouped {
        /// The members of the communicator to be.
        group: Members,
        /// The tag.
        tag: StringTag,
    },
    /// A communicator that is duplicated.
    Duplicated {
        /// The communicator.
        comm: C,
    },
    /// A communicator that is split.
    Divided {
        /// The communicator.
        comm: C,
        /// The caller's share.
        share: Shared1,
    },
    /// An ordered group of members of a communicator, and a tag.
    GroupedOn {
        /// The communicator.
        comm: C,
        /// The tag, at most [`MOST_TAG`].
        tag: u16,
        /// The members of the communicator to be.
        group: Members,
    },
}

/// A creation that a caller asks for.
#[derive(Drop)]
pub struct Asked<C> {
    /// What the communicator comes from.
    pub origin: Origin<C>,
    /// The name to bind.
    pub target: Name,
    /// The caller's session of the communicator to be, by its count at the rank, from 1.
    pub session: u64,
}

/// A message that a caller sends.
#[derive(Drop)]
pub struct Sending<C> {
    /// The communicator.
    pub comm: C,
    /// The receiver's rank in it.
    pub to: u16,
    /// The tag, at most [`MOST_TAG`].
    pub tag: u16,
    /// The bytes.
    pub payload: Payload,
}

/// A receive that a caller posts.
#[derive(Drop)]
pub struct Receiving<C> {
    /// The communicator.
    pub comm: C,
    /// The sender's rank in it; None for any.
    pub source: Option<u16>,
    /// The tag, at most [`MOST_TAG`]; None for any.
    pub tag: Option<u16>,
    /// How many bytes there is room for.
    pub room: u32,
}

/// What an operation does.
#[derive(Drop)]
pub enum Effect<C> {
    /// It replies at once, and changes nothing.
    Says(Reply),
    /// It opens a session under this name.
    Opens(Name),
    /// It binds a group.
    Groups {
        /// The name to bind.
        target: Name,
        /// The members of the group.
        members: Members,
        /// The session of the group.
        session: u64,
    },
    /// It unbinds the name of a group.
    Ungroups(Name),
    /// It reserves the target, joins a creation, and waits for it.
    Joins(Asked<C>),
    /// It frees a communicator, and waits until it is given back.
    Frees {
        /// The name that is bound to it, and is unbound.
        name: Name,
        /// The communicator.
        comm: C,
    },
    /// It ends a session, and waits until its communicators are given back: those that are not freed yet are
    /// freed, which is this project's own. The names of the session, of its groups and of its communicators
    /// are unbound.
    Ends {
        /// The name that is bound to the session.
        name: Name,
        /// The session.
        session: u64,
    },
    /// It sends a message, and replies at once.
    Sends(Sending<C>),
    /// It posts a receive, and waits for it.
    Receives(Receiving<C>),
    /// It posts a receive, binds its request, and replies at once.
    Posts {
        /// The name of the request.
        target: Name,
        /// The receive.
        receive: Receiving<C>,
    },
    /// It binds the request of a receive from the null process, which is complete, and replies at once.
    NullPosts(Name),
    /// It waits for the receive of a request.
    Completes {
        /// The name that is bound to the request, and is unbound.
        name: Name,
        /// The rank's count of receives at the posting, from 1; 0 for one from the null process.
        number: u64,
    },
    /// It waits until a name is bound.
    Awaits(Name),
}
