//! Entries, read.
ghost use Rattle.std.specs.Prelude.{◌≡◌, false, List, All, Some, IfSome};
ghost use Rattle.history_text.specs.Text.{IsEntry, entry_text, journal_text};
ghost use Rattle.history_text.specs.Feeds.{has_line_feed};
ghost use Rattle.mpi_base.specs.declared.entries.Entry.{Entry as AnyEntry};

use crate::acts::read_tokens;
use crate::writing::write_entry;
use mpi_base::Entry;
use script_text::Reader;
use token_text::Line;

/// The well-formed entry whose text a line is, and None exactly where it is the text of none. The
/// line feed is not part of the line.
pub fn read_entry(line: &[u8]) -> Option<Entry>
    // What is read is written so.
    ensures found { IfSome result (λ e. IsEntry e × (line.now ≡ entry_text e)) }
    // What is written so is read.
    ensures only { (e : AnyEntry) → IsEntry e → line.now ≡ entry_text e → result ≡ Some e }
{
    let mut reader = Reader::new(line);
    let entry = read_tokens(&mut reader)?;
    let mut text = Line::new();
    write_entry(&entry, &mut text);
    if text.as_slice() == line {
        Some(entry)
    } else {
        None
    }
}

/// Two well-formed entries with one text are equal, and the text of one has no line feed. So two journals of
/// well-formed entries with one text are equal.
pub fn texts_tell()
    ensures one_line { (e : AnyEntry) → IsEntry e → has_line_feed (entry_text e) ≡ false }
    ensures alone { (a b : AnyEntry) → IsEntry a → IsEntry b → entry_text a ≡ entry_text b → a ≡ b }
    ensures journals { (a b : List AnyEntry) → All IsEntry a → All IsEntry b → journal_text a ≡ journal_text b → a ≡ b }
{}
