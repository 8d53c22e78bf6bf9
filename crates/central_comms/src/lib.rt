//! The communicators of the central registry.
#![tactic(auto)]

mod comms;
mod pairs;
mod rows;

pub use comms::Comms;
pub use pairs::Pairs;
