//! Names, names of process sets and string tags.
ghost use Rattle.std.specs.Prelude.{◌≡◌, ◌≤◌, ◌+◌, if◌then◌else◌, Some, None, length};
ghost use Rattle.std.specs.Option.{option_copied};
ghost use Rattle.token_text.specs.Reading.{Reads, Puts};
ghost use Rattle.token_text.specs.Texts.{name_form, pset_name_form, tag_form, is_wrapped, inside};

use crate::faults::TokenFault;
use crate::writing::{Line, put};
use mpi_base::{Name, PsetName, StringTag};

/// Reads a name.
pub fn read_name(token: &[u8]) -> Result<Name, TokenFault>
    ensures { Reads name_form token.now result }
{
    if !Name::has_form(token) {
        return Err(TokenFault::NotOfForm);
    }
    Name::new(token).ok_or(TokenFault::TooLong)
}

/// Reads a name of a process set.
pub fn read_pset_name(token: &[u8]) -> Result<PsetName, TokenFault>
    ensures { Reads pset_name_form token.now result }
{
    if !PsetName::has_form(token) {
        return Err(TokenFault::NotOfForm);
    }
    PsetName::new(token).ok_or(TokenFault::TooLong)
}

fn between_quotes(token: &[u8]) -> Option<&[u8]>
    ensures { option_copied result ≡ (if is_wrapped 34 34 token.now then Some (inside token.now) else None) }
{
    match token {
        [b'"', tag @ .., b'"'] => Some(tag),
        _ => None,
    }
}

/// Reads a string tag between its quotes.
pub fn read_quoted(token: &[u8]) -> Result<StringTag, TokenFault>
    ensures { Reads tag_form token.now result }
{
    match between_quotes(token) {
        None => Err(TokenFault::NotOfForm),
        Some(tag) => {
            if !StringTag::has_form(tag) {
                return Err(TokenFault::NotOfForm);
            }
            StringTag::new(tag).ok_or(TokenFault::TooLong)
        }
    }
}

/// Adds a string tag between its quotes.
pub fn put_quoted(out: &mut Line, tag: &StringTag)
    requires room { length out.old.items + 65 ≤ 2048 }
    ensures { Puts tag_form 65 tag.now out.old.items out.new.items }
{
    put(out, b"\"");
    put(out, tag.bytes());
    put(out, b"\"");
}
