//! Operations, and what may stand at the end of a line, read.
ghost use Rattle.entry_text.specs.Parts.{Reads};
ghost use Rattle.history_text.specs.Steps.{op_part, reply_end_part, match_end_part, call_end_part};

use entry_text::{Word, read_match, read_reply, text, word_or_end};
use mpi_base::{Matched, Op, Reply};
use op_table::kind_of;
use script_text::{Reader, read_fields};

/// Reads an operation.
pub fn read_op(reader: &mut Reader) -> Option<Op>
    ensures { Reads op_part reader.old reader.new result }
{
    let kind = kind_of(text(reader)?)?;
    read_fields(kind, reader).ok()
}

/// Reads a reply or nothing.
pub fn read_reply_end(reader: &mut Reader) -> Option<Option<Reply>>
    ensures { Reads reply_end_part reader.old reader.new result }
{
    match word_or_end(reader)? {
        None => Some(None),
        Some(Word::Gives) => Some(Some(read_reply(reader)?)),
        Some(_) => None,
    }
}

/// Reads a match or nothing.
pub fn read_match_end(reader: &mut Reader) -> Option<Option<Matched>>
    ensures { Reads match_end_part reader.old reader.new result }
{
    match word_or_end(reader)? {
        None => Some(None),
        Some(Word::Mark) => Some(Some(read_match(reader)?)),
        Some(_) => None,
    }
}

/// Reads a match, a reply, both or nothing.
pub fn read_call_end(reader: &mut Reader) -> Option<(Option<Matched>, Option<Reply>)>
    ensures { Reads call_end_part reader.old reader.new result }
{
    match word_or_end(reader)? {
        None => Some((None, None)),
        Some(Word::Mark) => {
            let matched = read_match(reader)?;
            let reply = read_reply_end(reader)?;
            Some((Some(matched), reply))
        }
        Some(Word::Gives) => Some((None, Some(read_reply(reader)?))),
        Some(_) => None,
    }
}
