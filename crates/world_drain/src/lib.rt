//! The drain: the choices of a job in one fixed order, until nothing is left to do.
#![tactic(auto)]

mod choices;
mod run;

pub use choices::next_choice;
pub use run::drain;
