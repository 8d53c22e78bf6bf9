//! The central registry as a value that runs: entries of a journal move it where they are steps of it.
#![tactic(auto)]

mod calls;
mod closed;
mod matches;
mod open;
mod picks;
mod registry;
mod replies;
mod returns;
mod tables;

pub use registry::Registry;
