//! What the central registry keeps of each rank.
#![tactic(auto)]

mod effects;
mod part;
mod ranks;
mod threads;
mod wait;

pub use ranks::Ranks;
pub use wait::Wait;
