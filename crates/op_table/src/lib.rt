//! The words of the operations, and the fields that stand behind each word.
#![tactic(auto)]

mod kinds;
mod table;

pub use kinds::{Field, OpKind};
pub use table::{form_of, kind_of, word_of, words_tell};
