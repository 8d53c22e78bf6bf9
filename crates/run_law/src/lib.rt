//! Lemmas towards the law that every run of the ranks is a run of the central registry: that the ranks
//! and the registry belong together, topic by topic, and that acts keep it. Which acts are proved and
//! which are open stands in the crate's README; no law is whole yet.
#![tactic(auto)]
