//! The faults of a job in words.

use crate::faults::JobFault;
use crate::keys::{KeyText, TopKey};
use script_text::LineFault;
use std::error::Error;
use std::fmt;

/// What the value at a key of the top has to be, or each value in the table there.
fn kind_text(key: TopKey, is_entry: bool) -> &'static str {
    match key {
        TopKey::Psets if is_entry => "an array of integers",
        TopKey::Psets => "a table of arrays of integers",
        TopKey::Scripts if is_entry => "a string",
        TopKey::Scripts => "a table of strings",
        TopKey::Format | TopKey::Ranks | TopKey::Contexts => "an integer",
    }
}

/// Writes that a value is of a wrong kind.
fn write_kind<W: fmt::Write>(
    f: &mut fmt::Formatter<W>,
    key: TopKey,
    entry: &Option<KeyText>,
) -> fmt::Result {
    let name = key.name();
    let kind = kind_text(key, entry.is_some());
    match entry {
        None => write!(f, "{name}: {kind} is wanted"),
        Some(entry) => write!(f, "{name}, \"{entry}\": {kind} is wanted"),
    }
}

/// Writes which range a number has to be in.
fn write_range<W: fmt::Write>(
    f: &mut fmt::Formatter<W>,
    key: TopKey,
    least: u16,
    greatest: u16,
) -> fmt::Result {
    let name = key.name();
    write!(f, "{name}: a number from {least} to {greatest} is wanted")
}

/// Writes a place of the file.
fn write_place<W: fmt::Write>(
    f: &mut fmt::Formatter<W>,
    line: u32,
    column: u32,
    text: &str,
) -> fmt::Result {
    write!(f, "line {line}, column {column}: {text}")
}

/// Writes whose script it is.
fn write_thread<W: fmt::Write>(f: &mut fmt::Formatter<W>, rank: u16, thread: u8) -> fmt::Result {
    write!(f, "rank {rank}, thread {thread}")
}

/// Writes a fault of a line behind its thread.
fn write_line<W: fmt::Write>(
    f: &mut fmt::Formatter<W>,
    line: u32,
    fault: &LineFault,
) -> fmt::Result {
    write!(f, ", line {line}, {fault}")
}

impl fmt::Display for JobFault {
    /// Writes the place, and what is wrong or wanted there.
    fn fmt<W: fmt::Write>(&self, f: &mut fmt::Formatter<W>) -> fmt::Result {
        match self {
            JobFault::NotUtf8 { line, column } => write_place(
                f,
                *line,
                *column,
                "this is not UTF-8",
            ),
            JobFault::NotToml { line, column } => write_place(
                f,
                *line,
                *column,
                "this is not TOML",
            ),
            JobFault::UnknownKey(key) => write!(f, "\"{key}\": unknown key"),
            JobFault::Missing(key) => write!(f, "{}: the key is missing", key.name()),
            JobFault::WrongKind { key, entry } => write_kind(f, *key, entry),
            JobFault::OutOfRange {
                key,
                least,
                greatest,
            } => write_range(f, *key, *least, *greatest),
            JobFault::PsetMember(set) => {
                write!(
                    f,
                    "psets, \"{set}\": a free name, and different ranks of the job, are wanted"
                )
            }
            JobFault::ScriptName(key) => {
                write!(
                    f,
                    "scripts, \"{key}\": a rank of the job, a dot and a thread below 8 are wanted"
                )
            }
            JobFault::ScriptLong { rank, thread } => {
                write_thread(f, *rank, *thread)?;
                f.write_str(": the script has more than 4,096 lines")
            }
            JobFault::Line {
                rank,
                thread,
                line,
                fault,
            } => {
                write_thread(f, *rank, *thread)?;
                write_line(f, *line, fault)
            }
            JobFault::TooManyOps => f.write_str("the scripts have more than 16,384 operations"),
            JobFault::Memory => f.write_str("no memory was left"),
        }
    }
}

impl Error for JobFault {}
