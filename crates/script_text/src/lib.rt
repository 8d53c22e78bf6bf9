//! Lines of a script: operations read and written.
#![tactic(auto)]

mod faults;
mod lines;
mod reader;
mod writing;

pub use faults::{FaultKind, LineFault};
pub use lines::{is_blank, lines_tell, read_fields, read_line};
pub use reader::{Reader, Token};
pub use token_text::Line;
pub use writing::write_op;
