//! Keys of creations, read and written.
ghost use Rattle.std.specs.Prelude.{◌≡◌, ◌≤◌, ◌+◌, ◌++◌, length};
ghost use Rattle.script_text.specs.Tokens.{spaced};
ghost use Rattle.entry_text.specs.Keys.{parent_tokens, key_tokens};
ghost use Rattle.entry_text.specs.Reading.{ReadsKind, key_part, kind_part, numbered_part};
ghost use Rattle.entry_text.specs.Parts.{Reads, Adds};

use crate::tokens::{members, number, short, tag, word};
use crate::words::Word;
use mpi_base::{Key, Kind, StringTag};
use script_text::Reader;
use token_text::{Line, put, put_members, put_number, put_quoted};

/// A key with a tag, behind its word.
fn tagged(reader: &mut Reader) -> Option<Key>
    ensures { Reads (kind_part Kind.From) reader.old reader.new result }
{
    let tag = tag(reader)?;
    let members = members(reader)?;
    Some(Key {
        parent: 0,
        kind: Kind::From,
        number: 0,
        tag,
        members,
    })
}

/// A key with a parent, behind its word.
fn numbered(reader: &mut Reader, kind: Kind) -> Option<Key>
    ensures { Reads (numbered_part kind) reader.old reader.new result }
{
    let parent = short(reader)?;
    let number = number(reader, u64::MAX)?;
    let members = members(reader)?;
    let tag = StringTag::new(&[])?;
    Some(Key {
        parent,
        kind,
        number,
        tag,
        members,
    })
}

/// The word of a key.
pub fn read_kind(reader: &mut Reader) -> Option<Kind>
    ensures { ReadsKind reader.old reader.new result }
{
    match word(reader)? {
        Word::From => Some(Kind::From),
        Word::Group => Some(Kind::Group),
        Word::Dup => Some(Kind::Dup),
        Word::Split => Some(Kind::Split),
        Word::Share => Some(Kind::Share),
        _ => None,
    }
}

/// A key of a kind, behind its word.
pub fn behind_kind(reader: &mut Reader, kind: Kind) -> Option<Key>
    ensures { Reads (kind_part kind) reader.old reader.new result }
{
    match kind {
        Kind::From => tagged(reader),
        Kind::Group => numbered(reader, Kind::Group),
        Kind::Dup => numbered(reader, Kind::Dup),
        Kind::Split => numbered(reader, Kind::Split),
        Kind::Share => numbered(reader, Kind::Share),
    }
}

/// Reads a key.
pub fn read_key(reader: &mut Reader) -> Option<Key>
    ensures { Reads key_part reader.old reader.new result }
{
    let kind = read_kind(reader)?;
    behind_kind(reader, kind)
}

/// Adds a word, and what a key with a parent shows behind it.
fn put_numbered(out: &mut Line, word: &[u8], key: &Key)
    requires room { length out.old.items + 227 ≤ 2048 }
    requires word { length word.now ≤ 6 }
    ensures added { out.new.items ≡ out.old.items ++ (word.now ++ spaced (parent_tokens key.now)) }
    ensures short { length out.new.items ≤ length out.old.items + 227 }
{
    put(out, word);
    put(out, b" ");
    put_number(out, u64::from(key.parent));
    put(out, b" ");
    put_number(out, key.number);
    put(out, b" ");
    put_members(out, &key.members);
}

/// Adds a key.
pub fn put_key(out: &mut Line, key: &Key)
    requires room { length out.old.items + 250 ≤ 2048 }
    ensures { Adds 250 (key_tokens key.now) out.old.items out.new.items }
{
    match key.kind {
        Kind::From => {
            put(out, b" from ");
            put_quoted(out, &key.tag);
            put(out, b" ");
            put_members(out, &key.members);
        }
        Kind::Group => put_numbered(out, b" group", key),
        Kind::Dup => put_numbered(out, b" dup", key),
        Kind::Split => put_numbered(out, b" split", key),
        Kind::Share => put_numbered(out, b" share", key),
    }
}
