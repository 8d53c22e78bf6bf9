//! Lemmas towards the law that every run of the ranks is a run of the central registry: messages,
//! receives and markers. Which acts are proved and which are open stands in the crate's README; no law
//! is whole yet.
#![tactic(auto)]
