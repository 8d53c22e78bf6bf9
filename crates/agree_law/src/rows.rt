//! The rows of the agreement's lists.

use mpi_base::{Key, Shared1};

/// What came of a creation.
#[derive(Clone, Copy, Debug, Drop, PartialEq, Eq)]
pub enum Outcome {
    /// A communicator with this context.
    Context(u16),
    /// No context was free at every member.
    Exhausted,
}

/// How far an open creation is at a rank. Rounds count from 0, the round in which members call.
#[derive(Clone, Copy, Debug, Drop, PartialEq, Eq)]
pub enum Stage {
    /// The share is told, and all members' shares are awaited.
    Sharing(Shared1),
    /// Called here: its offer of round 0 is in this rank's gather.
    Called,
    /// This round's offer is not made yet.
    Waiting(u64),
    /// This round's offer is made.
    Offered {
        /// The round.
        round: u64,
        /// Whether the offer owns the rank's mask.
        own: bool,
    },
    /// Decided.
    Done(Outcome),
}

/// What the first member says of a round.
#[derive(Clone, Copy, Debug, Drop, PartialEq, Eq)]
pub enum Verdict {
    /// All members have called.
    Ready,
    /// Some member did not own: one more round.
    Retry,
    /// The least context that was free at every member.
    Context(u16),
    /// No context was free at every member.
    Exhausted,
}

/// An open creation.
#[derive(Drop)]
pub struct CreationRow {
    /// Its key.
    pub key: Key,
    /// How far it is here.
    pub stage: Stage,
}

/// The round of a gather.
#[derive(Drop)]
pub struct RoundRow {
    /// The creation's key.
    pub key: Key,
    /// The round whose offers are gathered.
    pub round: u64,
}

/// A member's share, gathered at the first member.
#[derive(Drop)]
pub struct ShareRow {
    /// The exchange's key.
    pub key: Key,
    /// The member's place.
    pub place: u16,
    /// Its share.
    pub share: Shared1,
}
