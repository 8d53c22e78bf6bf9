//! Entries, read behind the word of their step.
ghost use Rattle.std.specs.Prelude.{[], ◌∷◌, codes};
ghost use Rattle.entry_text.specs.Labels.{most_8, most_16, most_64};
ghost use Rattle.entry_text.specs.Grammar.{branch, number, this, op, reply, brief, key, settled, owning, call_end, match_end};
ghost use Rattle.entry_text.specs.Parts.{Reads};
ghost use Rattle.history_text.specs.Steps.{behind_part, step_part, entry_part};

use crate::ends::{read_call_end, read_match_end, read_op};
use entry_text::{
    Word, byte, number, read_brief, read_key, read_owning, read_reply, read_settled, short, this,
    word,
};
use mpi_base::{Act, Choice, Entry, Said};
use script_text::Reader;

fn call(reader: &mut Reader, rank: u16) -> Option<Entry>
    ensures { Reads (behind_part rank (codes "call") (number most_8 ∷ op ∷ branch call_end ∷ [])) reader.old reader.new result }
{
    let thread = byte(reader)?;
    let op = read_op(reader)?;
    let (matched, reply) = read_call_end(reader)?;
    Some(Entry {
        choice: Choice {
            rank,
            act: Act::Call { thread, op },
        },
        brief: None,
        said: None,
        matched,
        dropped: None,
        reply,
    })
}

fn answer(reader: &mut Reader, rank: u16) -> Option<Entry>
    ensures { Reads (behind_part rank (codes "answer") (number most_8 ∷ this Word.Gives ∷ branch reply ∷ [])) reader.old reader.new result }
{
    let thread = byte(reader)?;
    this(reader, Word::Gives)?;
    let reply = read_reply(reader)?;
    Some(Entry {
        choice: Choice {
            rank,
            act: Act::Answer { thread },
        },
        brief: None,
        said: None,
        matched: None,
        dropped: None,
        reply: Some(reply),
    })
}

fn deliver(reader: &mut Reader, rank: u16) -> Option<Entry>
    ensures { Reads (behind_part rank (codes "deliver") (number most_16 ∷ branch brief ∷ branch match_end ∷ [])) reader.old reader.new result }
{
    let from = short(reader)?;
    let packet = read_brief(reader)?;
    let matched = read_match_end(reader)?;
    Some(Entry {
        choice: Choice {
            rank,
            act: Act::Deliver { from },
        },
        brief: Some(packet),
        said: None,
        matched,
        dropped: None,
        reply: None,
    })
}

fn offer(reader: &mut Reader, rank: u16) -> Option<Entry>
    ensures { Reads (behind_part rank (codes "offer") (branch key ∷ this Word.Mark ∷ branch owning ∷ [])) reader.old reader.new result }
{
    let key = read_key(reader)?;
    this(reader, Word::Mark)?;
    let said = if read_owning(reader)? {
        Said::Own
    } else {
        Said::Zero
    };
    Some(Entry {
        choice: Choice {
            rank,
            act: Act::Offer { key },
        },
        brief: None,
        said: Some(said),
        matched: None,
        dropped: None,
        reply: None,
    })
}

fn settle(reader: &mut Reader, rank: u16) -> Option<Entry>
    ensures { Reads (behind_part rank (codes "settle") (branch settled ∷ [])) reader.old reader.new result }
{
    let (key, said) = read_settled(reader)?;
    Some(Entry {
        choice: Choice {
            rank,
            act: Act::Settle { key },
        },
        brief: None,
        said: Some(said),
        matched: None,
        dropped: None,
        reply: None,
    })
}

fn leave(reader: &mut Reader, rank: u16) -> Option<Entry>
    ensures { Reads (behind_part rank (codes "leave") (number most_16 ∷ [])) reader.old reader.new result }
{
    let ctx = short(reader)?;
    Some(Entry {
        choice: Choice {
            rank,
            act: Act::Leave { ctx },
        },
        brief: None,
        said: None,
        matched: None,
        dropped: None,
        reply: None,
    })
}

fn back(reader: &mut Reader, rank: u16) -> Option<Entry>
    ensures { Reads (behind_part rank (codes "back") (number most_16 ∷ this Word.Mark ∷ this Word.Drop ∷ number most_64 ∷ [])) reader.old reader.new result }
{
    let ctx = short(reader)?;
    this(reader, Word::Mark)?;
    this(reader, Word::Drop)?;
    let count = number(reader, u64::MAX)?;
    Some(Entry {
        choice: Choice {
            rank,
            act: Act::Back { ctx },
        },
        brief: None,
        said: None,
        matched: None,
        dropped: Some(count),
        reply: None,
    })
}

/// An entry of a rank, behind the rank.
fn step(reader: &mut Reader, rank: u16) -> Option<Entry>
    ensures { Reads (step_part rank) reader.old reader.new result }
{
    match word(reader)? {
        Word::Call => call(reader, rank),
        Word::Answer => answer(reader, rank),
        Word::Deliver => deliver(reader, rank),
        Word::Offer => offer(reader, rank),
        Word::Settle => settle(reader, rank),
        Word::Leave => leave(reader, rank),
        Word::Back => back(reader, rank),
        _ => None,
    }
}

/// The entry that the next tokens show.
pub fn read_tokens(reader: &mut Reader) -> Option<Entry>
    ensures { Reads entry_part reader.old reader.new result }
{
    let rank = short(reader)?;
    step(reader, rank)
}
