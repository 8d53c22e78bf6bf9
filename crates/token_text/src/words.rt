//! Numbers, or words in their place.
ghost use Rattle.std.specs.Prelude.{◌≡◌, ◌≤◌, ◌+◌, length};
ghost use Rattle.token_text.specs.Reading.{Reads, Puts};
ghost use Rattle.token_text.specs.Numbers.{num_form, int_form};
ghost use Rattle.token_text.specs.Words.{word_or, source_form, rank_arg_form, rank_out_form};

use crate::faults::TokenFault;
use crate::numbers::{put_int, put_num, read_int, read_num, read_number};
use crate::writing::{Line, put};
use mpi_base::{RankArg, RankOut, SrcArg};

/// Reads a number of at most 2,147,483,647, or the word in its place.
pub fn read_num_or(word: &[u8], token: &[u8]) -> Result<Option<u32>, TokenFault>
    ensures { Reads (word_or word.now num_form) token.now result }
{
    if token == word {
        return Ok(None);
    }
    Ok(Some(read_num(token)?))
}

/// Reads a number with or without a sign, or the word in its place.
pub fn read_int_or(word: &[u8], token: &[u8]) -> Result<Option<i32>, TokenFault>
    ensures { Reads (word_or word.now int_form) token.now result }
{
    if token == word {
        return Ok(None);
    }
    Ok(Some(read_int(token)?))
}

/// Reads the source of a receive.
pub fn read_source(token: &[u8]) -> Result<SrcArg, TokenFault>
    ensures { Reads source_form token.now result }
{
    if token == b"any".as_slice() {
        return Ok(SrcArg::Any);
    }
    if token == b"null".as_slice() {
        return Ok(SrcArg::Null);
    }
    Ok(SrcArg::At(read_num(token)?))
}

/// Reads a rank that is to be translated.
pub(crate) fn read_rank_arg(token: &[u8]) -> Result<RankArg, TokenFault>
    ensures { Reads rank_arg_form token.now result }
{
    if token == b"null".as_slice() {
        return Ok(RankArg::Null);
    }
    Ok(RankArg::At(read_int(token)?))
}

/// Reads a rank that was translated.
pub(crate) fn read_rank_out(token: &[u8]) -> Result<RankOut, TokenFault>
    ensures { Reads rank_out_form token.now result }
{
    if token == b"null".as_slice() {
        return Ok(RankOut::Null);
    }
    if token == b"undefined".as_slice() {
        return Ok(RankOut::Undefined);
    }
    Ok(RankOut::At(read_number(65_535, token)? as u16))
}

/// Adds a number, or the word where there is none.
pub fn put_num_or(out: &mut Line, word: &[u8], number: Option<u32>)
    requires room { length out.old.items + 10 ≤ 2048 }
    requires word { length word.now ≤ 10 }
    ensures { Puts (word_or word.now num_form) 10 number out.old.items out.new.items }
{
    match number {
        None => put(out, word),
        Some(number) => put_num(out, number),
    }
}

/// Adds a number with or without a sign, or the word where there is none.
pub fn put_int_or(out: &mut Line, word: &[u8], number: Option<i32>)
    requires room { length out.old.items + 11 ≤ 2048 }
    requires word { length word.now ≤ 11 }
    ensures { Puts (word_or word.now int_form) 11 number out.old.items out.new.items }
{
    match number {
        None => put(out, word),
        Some(number) => put_int(out, number),
    }
}

/// Adds the source of a receive.
pub fn put_source(out: &mut Line, source: SrcArg)
    requires room { length out.old.items + 10 ≤ 2048 }
    ensures { Puts source_form 10 source out.old.items out.new.items }
{
    match source {
        SrcArg::At(rank) => put_num(out, rank),
        SrcArg::Any => put(out, b"any"),
        SrcArg::Null => put(out, b"null"),
    }
}

/// Adds a rank that is to be translated.
pub(crate) fn put_rank_arg(out: &mut Line, rank: RankArg)
    requires room { length out.old.items + 11 ≤ 2048 }
    ensures { Puts rank_arg_form 11 rank out.old.items out.new.items }
{
    match rank {
        RankArg::At(rank) => put_int(out, rank),
        RankArg::Null => put(out, b"null"),
    }
}

/// Adds a rank that was translated.
pub(crate) fn put_rank_out(out: &mut Line, rank: RankOut)
    requires room { length out.old.items + 10 ≤ 2048 }
    ensures { Puts rank_out_form 10 rank out.old.items out.new.items }
{
    match rank {
        RankOut::At(rank) => put_num(out, u32::from(rank)),
        RankOut::Null => put(out, b"null"),
        RankOut::Undefined => put(out, b"undefined"),
    }
}
