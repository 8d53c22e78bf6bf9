//! What an operation does at its rank, decided before anything changes.
#![tactic(auto)]

mod keys;
mod surroundings;
mod tables;

pub use keys::key_of;
pub use surroundings::Surroundings;
