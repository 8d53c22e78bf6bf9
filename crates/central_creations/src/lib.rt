//! The creations of the central registry.
#![tactic(auto)]

mod callers;
mod calls;
mod classes;
mod creations;
mod names;
mod picks;
mod rows;
mod splits;

pub use callers::Caller;
pub use creations::Creations;
pub use names::CreationName;
pub use picks::Outcome;
