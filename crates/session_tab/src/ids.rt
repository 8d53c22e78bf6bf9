//! Ids of sessions.

/// What names a session. The serial alone tells sessions apart.
#[derive(Clone, Copy, Debug, Drop, PartialEq, Eq)]
pub struct SessionId {
    /// The slot of the table that the session stands in, from 0. Slots are used again.
    pub slot: usize,
    /// The count of sessions that the table had given when it gave this one, from 1.
    pub serial: u64,
}
