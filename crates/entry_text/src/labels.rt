//! Tokens that only journals have, read and written.
ghost use Rattle.std.specs.Prelude.{◌≡◌, ◌≤◌, ◌<◌, ◌+◌, ◌==◌, ◌++◌, ◌∷◌, [], length, find, bytes_eq, position, IfSome, IfNone};
ghost use Rattle.mpi_base.specs.Classes.{text_of_lem};
ghost use Rattle.token_text.specs.Reading.{Reads};
ghost use Rattle.entry_text.specs.Labels.{most_16, labelled_text, before_dot, behind_dot, sent_form, own_rank_form};
ghost use Rattle.entry_text.specs.LabelForms.{labelled_form, picked_form, class_form, class_in, round_form};

use mpi_base::{ErrClass, Said};
use token_text::{Line, TokenFault, put, put_number, read_number};

/// Reads a number behind a label.
pub fn read_labelled(label: &[u8], most: u64, token: &[u8]) -> Result<u64, TokenFault>
    ensures { Reads (labelled_form label.now most) token.now result }
{
    if !token.starts_with(label) {
        return Err(TokenFault::NotOfForm);
    }
    let (_, digits) = token.split_at(label.len());
    read_number(most, digits)
}

fn first_dot(text: &[u8]) -> Option<usize>
    ensures value { result ≡ position (λ b. b == 46) text.now }
    ensures bound { IfSome result (λ i. i < length text.now) }
{
    text.iter().position(|byte| *byte == b'.')
}

/// What stands before the first `.` and behind it.
#[tactic(auto, using(crate::proofs::Shown::dot_before, crate::proofs::Shown::dot_behind, crate::proofs::Shown::dot_whole, crate::proofs::Shown::dot_none))]
fn at_dot(token: &[u8]) -> Option<(&[u8], &[u8])>
    ensures before { IfSome result (λ p. p.0.now ≡ before_dot token.now) }
    ensures behind { IfSome result (λ p. p.1.now ≡ behind_dot token.now) }
    ensures whole { IfSome result (λ p. token.now ≡ before_dot token.now ++ 46 ∷ behind_dot token.now) }
    ensures none { IfNone result (behind_dot token.now ≡ []) }
{
    let place = first_dot(token)?;
    let (before, rest) = token.split_at(place);
    let (_, behind) = rest.split_at(1);
    Some((before, behind))
}

/// Reads a rank, a `.` and a message's number.
pub fn read_sent(token: &[u8]) -> Result<(u16, u64), TokenFault>
    ensures { Reads sent_form token.now result }
{
    let Some((from, number)) = at_dot(token) else {
        return Err(TokenFault::NotOfForm);
    };
    let from = read_number(65_535, from)?;
    let number = read_number(u64::MAX, number)?;
    Ok((from as u16, number))
}

/// Reads a picked context, or that none was picked.
pub fn read_picked(token: &[u8]) -> Result<Option<u16>, TokenFault>
    ensures { Reads picked_form token.now result }
{
    if token == b"exhausted".as_slice() {
        return Ok(None);
    }
    Ok(Some(read_labelled(b"ctx=", 65_535, token)? as u16))
}

/// Reads a rank, or that there is none.
pub fn read_own_rank(token: &[u8]) -> Result<Option<u16>, TokenFault>
    ensures { Reads own_rank_form token.now result }
{
    if token == b"undefined".as_slice() {
        return Ok(None);
    }
    Ok(Some(read_number(65_535, token)? as u16))
}

fn first_class(classes: &[ErrClass], text: &[u8]) -> Option<ErrClass>
    ensures { result ≡ find (λ c. bytes_eq (text_of_lem c) text.now) classes.now }
{
    classes
        .iter()
        .copied()
        .find(|class| class.text().as_slice() == text)
}

fn class_of(text: &[u8]) -> Option<ErrClass>
    ensures { result ≡ class_in text.now }
{
    let classes = [
        ErrClass::Session,
        ErrClass::Group,
        ErrClass::Comm,
        ErrClass::Rank,
        ErrClass::Tag,
        ErrClass::Arg,
        ErrClass::Request,
        ErrClass::Truncate,
        ErrClass::Busy,
        ErrClass::Exhausted,
    ];
    first_class(&classes, text)
}

/// Reads an error class.
#[tactic(auto, using(crate::proofs::Shown::class_shown))]
pub fn read_class(token: &[u8]) -> Result<ErrClass, TokenFault>
    ensures { Reads class_form token.now result }
{
    match class_of(token) {
        Some(class) => Ok(class),
        None => Err(TokenFault::NotOfForm),
    }
}

/// Reads what a packet says of a round.
pub fn read_round(token: &[u8]) -> Result<Said, TokenFault>
    ensures { Reads round_form token.now result }
{
    if token == b"ready".as_slice() {
        return Ok(Said::Ready);
    }
    if token == b"retry".as_slice() {
        return Ok(Said::Retry);
    }
    if token == b"exhausted".as_slice() {
        return Ok(Said::Exhausted);
    }
    Ok(Said::Picked(read_labelled(b"ctx=", 65_535, token)? as u16))
}

/// Adds a label and a number, at most 30 bytes.
pub fn put_labelled(out: &mut Line, label: &[u8], number: u64)
    requires room { length out.old.items + 30 ≤ 2048 }
    requires label { length label.now ≤ 10 }
    ensures added { out.new.items ≡ out.old.items ++ labelled_text label.now number }
    ensures short { length out.new.items ≤ length out.old.items + 30 }
{
    put(out, label);
    put_number(out, number);
}
