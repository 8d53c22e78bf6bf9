//! What an operation does at its rank, decided before anything changes; one for the central registry and
//! for a rank, each with tables of its own.
#![tactic(auto)]

mod call;
mod comms;
mod creations;
mod effect;
mod groups;
mod messages;
mod names;
mod sets;

pub use call::{Around, Call};
