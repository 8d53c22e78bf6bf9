//! What the members of a communicator that is split tell each other (MPI 4.0, 7.4.2).

/// One member's share of a split.
#[derive(Clone, Copy, Debug, Default, Drop, PartialEq, Eq)]
pub struct Shared1 {
    /// The class that the member wants to be in, from 0; None is the undefined colour, for no class.
    pub colour: Option<i32>,
    /// Orders the members of a class: the lower key comes first.
    pub key: i32,
}
