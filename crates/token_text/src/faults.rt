//! What is wrong with a token.
ghost use Rattle.std.specs.Prelude.{◌≡◌};

use std::error::Error;
use std::fmt;

/// Why a token shows no value of a form.
#[derive(Clone, Copy, Debug, Drop, PartialEq, Eq)]
pub enum TokenFault {
    /// The token is not of the form, or its number is out of range.
    NotOfForm,
    /// The token is of the form, but too long or with too many items.
    TooLong,
}

impl fmt::Display for TokenFault {
    /// Writes what is wrong with the token.
    fn fmt<W: fmt::Write>(&self, f: &mut fmt::Formatter<W>) -> fmt::Result {
        f.write_str(match self {
            TokenFault::NotOfForm => "not of the form",
            TokenFault::TooLong => "too long",
        })
    }
}

impl Error for TokenFault {}
