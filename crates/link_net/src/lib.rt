//! The links between ranks. Each link is a queue, from one rank to another.
#![tactic(auto)]

mod links;

pub use links::Links;
