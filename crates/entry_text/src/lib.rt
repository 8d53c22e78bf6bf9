//! Parts of a journal's lines: keys, packets, what was said, and replies.
#![tactic(auto)]

mod briefs;
mod keys;
mod labels;
mod messages;
mod replies;
mod said;
mod tokens;
mod words;

pub use briefs::{put_brief, read_brief};
pub use keys::{put_key, read_key};
pub use messages::{put_match, read_match};
pub use replies::{put_reply, read_reply};
pub use said::{put_said, read_owning, read_settled};
pub use tokens::{byte, number, short, text, this, word, word_or_end};
pub use words::Word;
