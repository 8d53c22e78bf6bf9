//! What is wrong with a job.
ghost use Rattle.std.specs.Prelude.{◌≡◌};

use crate::keys::{KeyText, TopKey};
use mpi_base::OutOfMemory;
use script_text::LineFault;

/// Why the bytes give no job: the first fault in this order, or want of memory, which may come at any
/// place of it. Ranks and threads are numbered from 0, lines and columns from 1; a column counts bytes,
/// and blank lines count. Of a key the first 64 bytes are told; of keys that break the same rule the
/// least by its bytes.
#[derive(Debug, PartialEq, Eq, Drop)]
pub enum JobFault {
    /// The bytes are not UTF-8.
    NotUtf8 {
        /// The line of the file.
        line: u32,
        /// The column of the first byte that is part of no character.
        column: u32,
    },
    /// The text is no TOML document.
    NotToml {
        /// The line of the file.
        line: u32,
        /// The column where the fault was seen.
        column: u32,
    },
    /// A key at the top is none of `format`, `ranks`, `contexts`, `psets` and `scripts`.
    UnknownKey(KeyText),
    /// `format` or `ranks` is missing.
    Missing(TopKey),
    /// A value is of another kind than it has to be.
    WrongKind {
        /// The key at the top.
        key: TopKey,
        /// The key in its table, where the fault is in the table.
        entry: Option<KeyText>,
    },
    /// `format`, `ranks` or `contexts` is out of its range.
    OutOfRange {
        /// The key at the top.
        key: TopKey,
        /// The least value that it may have.
        least: u16,
        /// The greatest value that it may have.
        greatest: u16,
    },
    /// The name of a set breaks its rule, or a member is no rank, or is repeated.
    PsetMember(KeyText),
    /// A key of `scripts` names no thread.
    ScriptName(KeyText),
    /// The script of a thread has more than 4,096 lines; the first such thread.
    ScriptLong {
        /// The rank.
        rank: u16,
        /// The thread.
        thread: u8,
    },
    /// A line that is not blank spells no operation; the first such line of the first such thread.
    Line {
        /// The rank.
        rank: u16,
        /// The thread.
        thread: u8,
        /// The line of the script.
        line: u32,
        /// The first fault of the line.
        fault: LineFault,
    },
    /// All scripts together have more than 16,384 operations.
    TooManyOps,
    /// No memory was left.
    Memory,
}

impl From<OutOfMemory> for JobFault {
    ghost use Rattle.job_file.specs.declared.faults.JobFault.TheVariants.{Memory};

    ghost from_gives = { λ _ error. error ≡ Memory };

    fn from(_error: OutOfMemory) -> JobFault {
        JobFault::Memory
    }
}
