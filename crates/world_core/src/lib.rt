//! All ranks of a job in code, the links between them, and the journal of their steps.
#![tactic(auto)]

mod journal;
mod step;
mod world;

pub use journal::Journal;
pub use world::World;
