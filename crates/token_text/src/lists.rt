//! Lists, between brackets and with a comma between two items.
ghost use Rattle.std.specs.Prelude.{◌≡◌, ◌≤◌, ◌+◌, length};
ghost use Rattle.token_text.specs.Reading.{Reads, Puts};
ghost use Rattle.token_text.specs.Lists.{ints_form, rank_args_form, rank_outs_form, triplets_form, members_form, triplet_form};
ghost use Rattle.token_text.specs.Steps.{TakesInt};

use crate::faults::TokenFault;
use crate::numbers::{put_int, put_num, read_int, read_number};
use crate::parts::{Parts, items};
use crate::words::{put_rank_arg, put_rank_out, read_rank_arg, read_rank_out};
use crate::writing::{Line, put};
use mpi_base::{Ints, Members, RankArgs, RankOuts, Triplet, Triplets};

/// Takes the next part as a number.
fn next_int(parts: &mut Parts) -> Result<i32, TokenFault>
    ensures { TakesInt parts.old.parts result parts.new.parts }
{
    match parts.next() {
        None => Err(TokenFault::NotOfForm),
        Some(part) => read_int(part),
    }
}

/// Reads a range of ranks: three numbers with a colon between two.
fn read_triplet(token: &[u8]) -> Result<Triplet, TokenFault>
    ensures { Reads triplet_form token.now result }
{
    let mut parts = Parts::new(b':', token);
    let first = next_int(&mut parts)?;
    let last = next_int(&mut parts)?;
    let stride = next_int(&mut parts)?;
    if parts.next().is_some() {
        return Err(TokenFault::NotOfForm);
    }
    Ok(Triplet {
        first,
        last,
        stride,
    })
}

/// Reads a list of numbers with or without a sign.
pub fn read_ints(token: &[u8]) -> Result<Ints, TokenFault>
    ensures { Reads ints_form token.now result }
{
    let mut items = items(token).ok_or(TokenFault::NotOfForm)?;
    let mut list = Ints::none();
    let mut is_long = false;
    while let Some(item) = items.next() {
        is_long |= !list.push(read_int(item)?);
    }
    if is_long {
        Err(TokenFault::TooLong)
    } else {
        Ok(list)
    }
}

/// Reads a list of ranks that are to be translated.
pub fn read_rank_args(token: &[u8]) -> Result<RankArgs, TokenFault>
    ensures { Reads rank_args_form token.now result }
{
    let mut items = items(token).ok_or(TokenFault::NotOfForm)?;
    let mut list = RankArgs::none();
    let mut is_long = false;
    while let Some(item) = items.next() {
        is_long |= !list.push(read_rank_arg(item)?);
    }
    if is_long {
        Err(TokenFault::TooLong)
    } else {
        Ok(list)
    }
}

/// Reads a list of ranks that were translated.
pub fn read_rank_outs(token: &[u8]) -> Result<RankOuts, TokenFault>
    ensures { Reads rank_outs_form token.now result }
{
    let mut items = items(token).ok_or(TokenFault::NotOfForm)?;
    let mut list = RankOuts::none();
    let mut is_long = false;
    while let Some(item) = items.next() {
        is_long |= !list.push(read_rank_out(item)?);
    }
    if is_long {
        Err(TokenFault::TooLong)
    } else {
        Ok(list)
    }
}

/// Reads a list of ranges of ranks.
pub fn read_triplets(token: &[u8]) -> Result<Triplets, TokenFault>
    ensures { Reads triplets_form token.now result }
{
    let mut items = items(token).ok_or(TokenFault::NotOfForm)?;
    let mut list = Triplets::none();
    let mut is_long = false;
    while let Some(item) = items.next() {
        is_long |= !list.push(read_triplet(item)?);
    }
    if is_long {
        Err(TokenFault::TooLong)
    } else {
        Ok(list)
    }
}

/// Reads a list of distinct ranks.
pub fn read_members(token: &[u8]) -> Result<Members, TokenFault>
    ensures { Reads members_form token.now result }
{
    let mut items = items(token).ok_or(TokenFault::NotOfForm)?;
    let mut list = Members::none();
    while let Some(item) = items.next() {
        if !list.push(read_number(15, item)? as u16) {
            return Err(TokenFault::NotOfForm);
        }
    }
    Ok(list)
}

/// Adds a range of ranks.
fn put_triplet(out: &mut Line, range: Triplet)
    requires room { length out.old.items + 35 ≤ 2048 }
    ensures { Puts triplet_form 35 range out.old.items out.new.items }
{
    put_int(out, range.first);
    put(out, b":");
    put_int(out, range.last);
    put(out, b":");
    put_int(out, range.stride);
}

/// Adds a list of numbers with or without a sign.
pub fn put_ints(out: &mut Line, list: &Ints)
    requires room { length out.old.items + 194 ≤ 2048 }
    ensures { Puts ints_form 194 list.now out.old.items out.new.items }
{
    put(out, b"[");
    let mut mark: &[u8] = b"";
    for item in list.as_slice() {
        put(out, mark);
        put_int(out, *item);
        mark = b",";
    }
    put(out, b"]");
}

/// Adds a list of ranks that are to be translated.
pub fn put_rank_args(out: &mut Line, list: &RankArgs)
    requires room { length out.old.items + 194 ≤ 2048 }
    ensures { Puts rank_args_form 194 list.now out.old.items out.new.items }
{
    put(out, b"[");
    let mut mark: &[u8] = b"";
    for item in list.as_slice() {
        put(out, mark);
        put_rank_arg(out, *item);
        mark = b",";
    }
    put(out, b"]");
}

/// Adds a list of ranks that were translated.
pub fn put_rank_outs(out: &mut Line, list: &RankOuts)
    requires room { length out.old.items + 178 ≤ 2048 }
    ensures { Puts rank_outs_form 178 list.now out.old.items out.new.items }
{
    put(out, b"[");
    let mut mark: &[u8] = b"";
    for item in list.as_slice() {
        put(out, mark);
        put_rank_out(out, *item);
        mark = b",";
    }
    put(out, b"]");
}

/// Adds a list of ranges of ranks.
pub fn put_triplets(out: &mut Line, list: &Triplets)
    requires room { length out.old.items + 578 ≤ 2048 }
    ensures { Puts triplets_form 578 list.now out.old.items out.new.items }
{
    put(out, b"[");
    let mut mark: &[u8] = b"";
    for item in list.as_slice() {
        put(out, mark);
        put_triplet(out, *item);
        mark = b",";
    }
    put(out, b"]");
}

/// Adds a list of distinct ranks.
pub fn put_members(out: &mut Line, members: &Members)
    requires room { length out.old.items + 178 ≤ 2048 }
    ensures { Puts members_form 178 members.now out.old.items out.new.items }
{
    put(out, b"[");
    let mut mark: &[u8] = b"";
    for place in 0..members.len() {
        if let Some(rank) = members.get(place) {
            put(out, mark);
            put_num(out, u32::from(rank));
            mark = b",";
        }
    }
    put(out, b"]");
}
