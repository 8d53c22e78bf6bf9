//! Received messages and matches, read and written.
ghost use Rattle.std.specs.Prelude.{◌≡◌, ◌≤◌, ◌+◌, length};
ghost use Rattle.entry_text.specs.Replies.{message_tokens, match_tokens};
ghost use Rattle.entry_text.specs.Reading.{ReadsSource, ReadsLen, bytes_part, sized_part, message_part, match_part};
ghost use Rattle.entry_text.specs.Parts.{Reads, Adds};

use crate::labels::{put_labelled, read_labelled};
use crate::tokens::{exactly, labelled_short, number, sent, text, this};
use crate::words::Word;
use mpi_base::{Matched, Payload, Reply};
use script_text::Reader;
use token_text::{Line, put, put_hex, put_number, read_hex};

/// From whom a message came.
fn source(reader: &mut Reader) -> Option<Option<u16>>
    ensures { ReadsSource reader.old reader.new result }
{
    let token = text(reader)?;
    if token == b"src=null".as_slice() {
        return Some(None);
    }
    match read_labelled(b"src=", 65_535, token) {
        Ok(rank) => Some(Some(rank as u16)),
        Err(_) => None,
    }
}

/// How many bytes follow.
fn len(reader: &mut Reader) -> Option<u64>
    ensures { ReadsLen reader.old reader.new result }
{
    match read_labelled(b"len=", u64::MAX, text(reader)?) {
        Ok(len) => Some(len),
        Err(_) => None,
    }
}

/// So many bytes.
fn bytes(reader: &mut Reader, len: u64) -> Option<Payload>
    ensures { Reads (bytes_part len) reader.old reader.new result }
{
    match read_hex(text(reader)?) {
        Ok(payload) => {
            if payload.bytes().len() as u64 == len {
                Some(payload)
            } else {
                None
            }
        }
        Err(_) => None,
    }
}

/// How many bytes, and the bytes.
fn sized(reader: &mut Reader) -> Option<Payload>
    ensures { Reads sized_part reader.old reader.new result }
{
    let len = len(reader)?;
    bytes(reader, len)
}

/// What a received message shows.
pub fn read_message(reader: &mut Reader) -> Option<Reply>
    ensures { Reads message_part reader.old reader.new result }
{
    match source(reader)? {
        None => {
            exactly(reader, b"tag=any")?;
            exactly(reader, b"len=0")?;
            exactly(reader, b"-")?;
            Some(Reply::Received {
                source: None,
                tag: None,
                payload: Payload::new(&[])?,
            })
        }
        Some(rank) => Some(Reply::Received {
            source: Some(rank),
            tag: Some(labelled_short(reader, b"tag=")?),
            payload: sized(reader)?,
        }),
    }
}

/// Reads a match behind its mark.
pub fn read_match(reader: &mut Reader) -> Option<Matched>
    ensures { Reads match_part reader.old reader.new result }
{
    this(reader, Word::Match)?;
    let receive = number(reader, u64::MAX)?;
    let (from, number) = sent(reader)?;
    Some(Matched {
        receive,
        from,
        number,
    })
}

/// Adds what a received message shows.
pub fn put_message(out: &mut Line, source: Option<u16>, tag: Option<u16>, payload: &Payload)
    requires room { length out.old.items + 603 ≤ 2048 }
    ensures { Adds 603 (message_tokens source tag payload.now) out.old.items out.new.items }
{
    match source {
        None => put(out, b" src=null"),
        Some(rank) => put_labelled(out, b" src=", u64::from(rank)),
    }
    match tag {
        None => put(out, b" tag=any"),
        Some(tag) => put_labelled(out, b" tag=", u64::from(tag)),
    }
    put_labelled(out, b" len=", payload.bytes().len() as u64);
    put(out, b" ");
    put_hex(out, payload);
}

/// Adds a match behind its mark.
pub fn put_match(out: &mut Line, matched: &Matched)
    requires room { length out.old.items + 69 ≤ 2048 }
    ensures { Adds 69 (match_tokens matched.now) out.old.items out.new.items }
{
    put(out, b" match ");
    put_number(out, matched.receive);
    put(out, b" ");
    put_number(out, u64::from(matched.from));
    put(out, b".");
    put_number(out, matched.number);
}
