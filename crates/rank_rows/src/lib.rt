//! The rows of a rank's threads, and of the receives that are not answered.
#![tactic(auto)]

mod receives;
mod threads;
mod waits;

pub use receives::Receives;
pub use threads::Threads;
