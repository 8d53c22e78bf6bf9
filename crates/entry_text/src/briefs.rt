//! Packets, read and written.
ghost use Rattle.std.specs.Prelude.{◌≡◌, ◌≤◌, ◌+◌, ◌++◌, ◌∷◌, length};
ghost use Rattle.entry_text.specs.Labels.{round_text};
ghost use Rattle.entry_text.specs.Said.{said_tokens, owning_said};
ghost use Rattle.entry_text.specs.Briefs.{brief_tokens};
ghost use Rattle.entry_text.specs.Reading.{brief_part};
ghost use Rattle.entry_text.specs.Parts.{Reads, Adds};

use crate::keys::{put_key, read_key};
use crate::labels::put_labelled;
use crate::said::read_owning;
use crate::tokens::{labelled, labelled_byte, labelled_short, number, round_said, word};
use crate::words::Word;
use mpi_base::{Brief, Said};
use script_text::Reader;
use token_text::{Line, put, put_number};

/// Reads a packet.
pub fn read_brief(reader: &mut Reader) -> Option<Brief>
    ensures { Reads brief_part reader.old reader.new result }
{
    match word(reader)? {
        Word::Up => Some(Brief::Up {
            round: number(reader, u64::MAX)?,
            own: read_owning(reader)?,
            key: read_key(reader)?,
        }),
        Word::Down => Some(Brief::Down {
            round: number(reader, u64::MAX)?,
            said: round_said(reader)?,
            key: read_key(reader)?,
        }),
        Word::Share => Some(Brief::Share {
            key: read_key(reader)?,
        }),
        Word::Shares => Some(Brief::Shares {
            key: read_key(reader)?,
        }),
        Word::Msg => Some(Brief::Msg {
            ctx: labelled_short(reader, b"ctx=")?,
            lane: labelled_byte(reader, b"lane=")?,
            number: labelled(reader, b"number=", u64::MAX)?,
        }),
        Word::Marker => Some(Brief::Marker {
            ctx: labelled_short(reader, b"ctx=")?,
        }),
        _ => None,
    }
}

/// Adds what a packet says of a round, without the space before it.
fn put_round(out: &mut Line, said: Said)
    requires room { length out.old.items + 30 ≤ 2048 }
    ensures added { out.new.items ≡ out.old.items ++ round_text said }
    ensures short { length out.new.items ≤ length out.old.items + 30 }
{
    match said {
        Said::Own => put(out, b"own"),
        Said::Zero => put(out, b"zero"),
        Said::Ready => put(out, b"ready"),
        Said::Retry => put(out, b"retry"),
        Said::Picked(ctx) => put_labelled(out, b"ctx=", u64::from(ctx)),
        Said::Exhausted => put(out, b"exhausted"),
        Said::Shared => put(out, b"shared"),
    }
}

fn put_owning(out: &mut Line, own: bool)
    requires room { length out.old.items + 5 ≤ 2048 }
    ensures { Adds 5 (said_tokens (owning_said own)) out.old.items out.new.items }
{
    if own {
        put(out, b" own");
    } else {
        put(out, b" zero");
    }
}

/// Adds a packet.
pub fn put_brief(out: &mut Line, brief: &Brief)
    requires room { length out.old.items + 307 ≤ 2048 }
    ensures { Adds 307 (brief_tokens brief.now) out.old.items out.new.items }
{
    match brief {
        Brief::Up { round, own, key } => {
            put(out, b" up ");
            put_number(out, *round);
            put_owning(out, *own);
            put_key(out, key);
        }
        Brief::Down { round, said, key } => {
            put(out, b" down ");
            put_number(out, *round);
            put(out, b" ");
            put_round(out, *said);
            put_key(out, key);
        }
        Brief::Share { key } => {
            put(out, b" share");
            put_key(out, key);
        }
        Brief::Shares { key } => {
            put(out, b" shares");
            put_key(out, key);
        }
        Brief::Msg { ctx, lane, number } => {
            put(out, b" msg");
            put_labelled(out, b" ctx=", u64::from(*ctx));
            put_labelled(out, b" lane=", u64::from(*lane));
            put_labelled(out, b" number=", *number);
        }
        Brief::Marker { ctx } => {
            put(out, b" marker");
            put_labelled(out, b" ctx=", u64::from(*ctx));
        }
    }
}
