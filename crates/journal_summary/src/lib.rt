//! The summary of a journal: one line of counts.
#![tactic(auto)]

mod counts;
mod output;

pub use counts::Summary;
pub use output::write_summary;
