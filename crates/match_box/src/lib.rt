//! The box of a rank: the messages that came and no receive has taken, and the posted receives that
//! have taken no message (MPI 4.0, 3.5), with an index of both.
#![tactic(auto)]

mod counts;
mod heads;
mod index;
mod matches;
mod node;
mod queue;
mod queues;

pub use matches::MatchBox;
