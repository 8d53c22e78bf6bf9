//! Lines of a journal: entries read and written.
#![tactic(auto)]

mod acts;
mod ends;
mod ranges;
mod reading;
mod writing;

pub use ranges::entries_are_in_range;
pub use reading::{read_entry, texts_tell};
pub use token_text::Line;
pub use writing::write_entry;
