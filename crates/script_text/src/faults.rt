//! What is wrong with a line.

use std::error::Error;
use std::fmt;

/// A fault of a line.
#[derive(Clone, Copy, Debug, Drop, PartialEq, Eq)]
pub enum FaultKind {
    /// The first token is no operation's word, or another token stands where `->` is wanted.
    UnknownWord,
    /// The line ends where a field is wanted.
    Missing,
    /// No name, name of a process set or string tag.
    BadName,
    /// No number, or no list of numbers, or a number out of its range.
    BadNumber,
    /// No hexadecimal digits, or an odd number of them.
    BadHex,
    /// Too many bytes, or too many items.
    TooLong,
    /// A token stands behind the last field.
    Extra,
}

impl FaultKind {
    /// The fault, with what is wanted in its place.
    fn text(self) -> &'static str {
        match self {
            FaultKind::UnknownWord => "unknown word",
            FaultKind::Missing => "the line ends where one more word is wanted",
            FaultKind::BadName => "a name, a process set or a string is wanted",
            FaultKind::BadNumber => "a number in its range, or a list of numbers, is wanted",
            FaultKind::BadHex => {
                "an even number of hexadecimal digits, or - for no bytes, is wanted"
            }
            FaultKind::TooLong => "too long",
            FaultKind::Extra => "the end of the line is wanted",
        }
    }
}

/// The first fault of a line.
#[derive(Clone, Copy, Debug, Drop, PartialEq, Eq)]
pub struct LineFault {
    /// Where the token with the fault begins, in bytes from 1; one more than the length of the line
    /// where a token is missing.
    pub column: usize,
    /// What is wrong there.
    pub kind: FaultKind,
}

impl fmt::Display for LineFault {
    /// Writes the column, and what is wrong or wanted there.
    fn fmt<W: fmt::Write>(&self, f: &mut fmt::Formatter<W>) -> fmt::Result {
        let (column, text) = (self.column, self.kind.text());
        write!(f, "column {column}: {text}")
    }
}

impl Error for LineFault {}
