//! A job, run from its start until nothing is left to do.
#![tactic(auto)]

mod run;
#[cfg(test)]
mod tests;

pub use run::{Ran, run_job};
