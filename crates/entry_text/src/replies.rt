//! Replies, read and written.
ghost use Rattle.std.specs.Prelude.{◌≡◌, ◌≤◌, ◌+◌, ◌++◌, length};
ghost use Rattle.entry_text.specs.Labels.{own_rank_form};
ghost use Rattle.entry_text.specs.Replies.{like_text, reply_tokens};
ghost use Rattle.entry_text.specs.Reading.{reply_part};
ghost use Rattle.entry_text.specs.Parts.{Reads, Adds};

use crate::labels::put_labelled;
use crate::messages::{put_message, read_message};
use crate::tokens::{
    class, labelled_short, labelled_wide, members, own_rank, pset_name, rank_outs, short, wide,
    word,
};
use crate::words::Word;
use mpi_base::{Likeness, Reply};
use script_text::Reader;
use token_text::{Line, put, put_members, put_number, put_rank_outs};

/// Reads a reply.
pub fn read_reply(reader: &mut Reader) -> Option<Reply>
    ensures { Reads reply_part reader.old reader.new result }
{
    match word(reader)? {
        Word::Fine => Some(Reply::Fine),
        Word::Err => Some(Reply::Refused(class(reader)?)),
        Word::Null => Some(Reply::Null),
        Word::Psets => Some(Reply::Psets(wide(reader)?)),
        Word::Name => Some(Reply::NthName(pset_name(reader)?)),
        Word::Info => Some(Reply::Size0(labelled_wide(reader, b"mpi_size=")?)),
        Word::Group => Some(Reply::Group(members(reader)?)),
        Word::Ranks => Some(Reply::Ranks(rank_outs(reader)?)),
        Word::Ident => Some(Reply::Like(Likeness::Ident)),
        Word::Congruent => Some(Reply::Like(Likeness::Congruent)),
        Word::Similar => Some(Reply::Like(Likeness::Similar)),
        Word::Unequal => Some(Reply::Like(Likeness::Unequal)),
        Word::Size => Some(Reply::Size(short(reader)?)),
        Word::Rank => Some(Reply::Rank(own_rank(reader)?)),
        Word::Comm => Some(Reply::Comm {
            ctx: labelled_short(reader, b"ctx=")?,
            rank: labelled_short(reader, b"rank=")?,
            size: labelled_short(reader, b"size=")?,
        }),
        Word::Received => read_message(reader),
        _ => None,
    }
}

/// Adds how alike two objects are, without the space before it.
fn put_likeness(out: &mut Line, likeness: Likeness)
    requires room { length out.old.items + 9 ≤ 2048 }
    ensures added { out.new.items ≡ out.old.items ++ like_text likeness }
    ensures short { length out.new.items ≤ length out.old.items + 9 }
{
    match likeness {
        Likeness::Ident => put(out, b"ident"),
        Likeness::Congruent => put(out, b"congruent"),
        Likeness::Similar => put(out, b"similar"),
        Likeness::Unequal => put(out, b"unequal"),
    }
}

/// Adds a rank, or that there is none.
fn put_own_rank(out: &mut Line, rank: Option<u16>)
    requires room { length out.old.items + 20 ≤ 2048 }
    ensures added { out.new.items ≡ out.old.items ++ own_rank_form.text rank }
    ensures short { length out.new.items ≤ length out.old.items + 20 }
{
    match rank {
        None => put(out, b"undefined"),
        Some(rank) => put_number(out, u64::from(rank)),
    }
}

/// Adds a reply.
pub fn put_reply(out: &mut Line, reply: &Reply)
    requires room { length out.old.items + 608 ≤ 2048 }
    ensures { Adds 608 (reply_tokens reply.now) out.old.items out.new.items }
{
    match reply {
        Reply::Fine => put(out, b" ok"),
        Reply::Refused(class) => {
            put(out, b" err ");
            put(out, class.text().as_slice());
        }
        Reply::Null => put(out, b" null"),
        Reply::Psets(count) => {
            put(out, b" psets ");
            put_number(out, u64::from(*count));
        }
        Reply::NthName(name) => {
            put(out, b" name ");
            put(out, name.bytes());
        }
        Reply::Size0(size) => {
            put(out, b" info");
            put_labelled(out, b" mpi_size=", u64::from(*size));
        }
        Reply::Group(members) => {
            put(out, b" group ");
            put_members(out, members);
        }
        Reply::Ranks(ranks) => {
            put(out, b" ranks ");
            put_rank_outs(out, ranks);
        }
        Reply::Like(likeness) => {
            put(out, b" ");
            put_likeness(out, *likeness);
        }
        Reply::Size(size) => {
            put(out, b" size ");
            put_number(out, u64::from(*size));
        }
        Reply::Rank(rank) => {
            put(out, b" rank ");
            put_own_rank(out, *rank);
        }
        Reply::Comm { ctx, rank, size } => {
            put(out, b" comm");
            put_labelled(out, b" ctx=", u64::from(*ctx));
            put_labelled(out, b" rank=", u64::from(*rank));
            put_labelled(out, b" size=", u64::from(*size));
        }
        Reply::Received {
            source,
            tag,
            payload,
        } => {
            put(out, b" recv");
            put_message(out, *source, *tag, payload);
        }
    }
}
