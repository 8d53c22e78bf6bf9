//! The keys at the top of a job, and what is told of a key.
ghost use Rattle.std.specs.Prelude.{◌≡◌, ◌≤◌, length};
ghost use Rattle.job_file.specs.Keys.{name_of, front_of};

use arrayvec::ArrayVec;
use std::fmt;
use std::marker::Model;

/// The most bytes of a key that a fault tells.
const MOST_TOLD: usize = 64;

/// A key at the top of a job.
#[derive(Clone, Copy, Debug, PartialEq, Eq, Drop)]
pub enum TopKey {
    /// `format`, which is 1.
    Format,
    /// `ranks`, from 1 to 16.
    Ranks,
    /// `contexts`, from 1 to 63.
    Contexts,
    /// `psets`, a table of arrays of integers.
    Psets,
    /// `scripts`, a table of strings.
    Scripts,
}

impl TopKey {
    /// The key, as it stands in a job.
    pub fn name(self) -> &'static str
        ensures { result.now ≡ name_of self }
    {
        match self {
            TopKey::Format => "format",
            TopKey::Ranks => "ranks",
            TopKey::Contexts => "contexts",
            TopKey::Psets => "psets",
            TopKey::Scripts => "scripts",
        }
    }
}

/// The first 64 bytes of a key.
#[derive(Debug, PartialEq, Eq, Drop)]
pub struct KeyText {
    text: ArrayVec<u8, MOST_TOLD>,
}

impl Model for KeyText {
    ghost use Rattle.std.specs.Prelude.{List, ℕ};

    ghost Value = { List ℕ };

    ghost view = { λ s. s.text.items };

    ghost inverse = { λ xs. record { text = record { items = xs } } };
}

/// The first bytes of a key.
fn front(bytes: &[u8]) -> &[u8]
    ensures value { result.now ≡ front_of bytes.now }
    ensures short { length result.now ≤ MOST_TOLD }
{
    if bytes.len() <= MOST_TOLD {
        return bytes;
    }
    let (front, _) = bytes.split_at(MOST_TOLD);
    front
}

impl KeyText {
    /// The front of a key.
    pub(crate) fn of(key: &str) -> KeyText
        ensures { result ≡ front_of key.now }
    {
        let mut text = ArrayVec::new();
        let _ = text.try_extend_from_slice(front(key.as_bytes()));
        KeyText { text }
    }

    /// The bytes, at most 64 of them.
    pub fn bytes(&self) -> &[u8]
        ensures { result.now ≡ self.now }
    {
        self.text.as_slice()
    }
}

impl fmt::Display for KeyText {
    /// Writes each byte from 32 to 126 as it is, and any other as `\x` and two hexadecimal digits.
    fn fmt<W: fmt::Write>(&self, f: &mut fmt::Formatter<W>) -> fmt::Result {
        for byte in self.bytes() {
            if (32..127).contains(byte) {
                write!(f, "{}", char::from(*byte))?;
            } else {
                write!(f, "\\x{byte:02x}")?;
            }
        }
        Ok(())
    }
}
