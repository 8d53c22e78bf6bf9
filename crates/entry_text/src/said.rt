//! What offers and settles say, read and written.
ghost use Rattle.std.specs.Prelude.{◌≡◌, ◌≤◌, ◌+◌, length};
ghost use Rattle.entry_text.specs.Said.{said_tokens, owning_said};
ghost use Rattle.entry_text.specs.Reading.{owning_part, verdict_part, said_part, settled_part};
ghost use Rattle.entry_text.specs.Parts.{Reads, Adds};

use crate::keys::{behind_kind, read_kind};
use crate::labels::put_labelled;
use crate::tokens::{picked, this, word};
use crate::words::Word;
use mpi_base::{Key, Kind, Said};
use script_text::Reader;
use token_text::{Line, put};

/// Reads whether an offer owns the mask.
pub fn read_owning(reader: &mut Reader) -> Option<bool>
    ensures { Reads owning_part reader.old reader.new result }
{
    match word(reader)? {
        Word::Own => Some(true),
        Word::Zero => Some(false),
        _ => None,
    }
}

fn read_verdict(reader: &mut Reader) -> Option<Said>
    ensures { Reads verdict_part reader.old reader.new result }
{
    match word(reader)? {
        Word::Ready => Some(Said::Ready),
        Word::Retry => Some(Said::Retry),
        Word::Pick => match picked(reader)? {
            Some(ctx) => Some(Said::Picked(ctx)),
            None => Some(Said::Exhausted),
        },
        _ => None,
    }
}

fn marked_verdict(reader: &mut Reader) -> Option<Said>
    ensures { Reads (said_part Kind.From) reader.old reader.new result }
{
    this(reader, Word::Mark)?;
    read_verdict(reader)
}

fn marked_share(reader: &mut Reader) -> Option<Said>
    ensures { Reads (said_part Kind.Share) reader.old reader.new result }
{
    this(reader, Word::Mark)?;
    this(reader, Word::Shared)?;
    Some(Said::Shared)
}

/// What is said where a key of a kind is settled.
fn behind_key(reader: &mut Reader, kind: Kind) -> Option<Said>
    ensures { Reads (said_part kind) reader.old reader.new result }
{
    match kind {
        Kind::From => marked_verdict(reader),
        Kind::Group => marked_verdict(reader),
        Kind::Dup => marked_verdict(reader),
        Kind::Split => marked_verdict(reader),
        Kind::Share => marked_share(reader),
    }
}

/// Reads a key that is settled, and what is said of it.
pub fn read_settled(reader: &mut Reader) -> Option<(Key, Said)>
    ensures { Reads settled_part reader.old reader.new result }
{
    let kind = read_kind(reader)?;
    let key = behind_kind(reader, kind)?;
    let said = behind_key(reader, kind)?;
    Some((key, said))
}

/// Adds what is said.
pub fn put_said(out: &mut Line, said: Said)
    requires room { length out.old.items + 36 ≤ 2048 }
    ensures { Adds 36 (said_tokens said) out.old.items out.new.items }
{
    match said {
        Said::Own => put(out, b" own"),
        Said::Zero => put(out, b" zero"),
        Said::Ready => put(out, b" ready"),
        Said::Retry => put(out, b" retry"),
        Said::Picked(ctx) => {
            put(out, b" pick ");
            put_labelled(out, b"ctx=", u64::from(ctx));
        }
        Said::Exhausted => put(out, b" pick exhausted"),
        Said::Shared => put(out, b" shared"),
    }
}
