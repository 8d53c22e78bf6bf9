//! The communicators of a rank, and the markers that came to it.
#![tactic(auto)]

mod comms;

pub use comms::CommTab;
