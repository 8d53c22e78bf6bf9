//! A journal written to a sink: each entry's line with a line feed, in pieces of up to 64 KiB.
#![tactic(auto)]

ghost use Rattle.std.specs.Prelude.{◌≡◌, ◌≤◌, false, is_ok, is_some, length, OnOk, OnErr};
ghost use Rattle.io_edge.specs.Counts.{Rose};
ghost use Rattle.io_edge.specs.Sink.{Takes, TakesFront};
ghost use Rattle.history_text.specs.Text.{journal_text};
ghost use Rattle.journal_out.specs.Output.{Collects};

use arrayvec::ArrayVec;
use history_text::write_entry;
use io_edge::{Failed, Sink};
use mpi_base::Entry;
use script_text::Line;
use token_text::put;

/// The most bytes that one write hands to the sink.
const PIECE: usize = 65_536;

/// Lines that are not written yet.
type Piece = ArrayVec<u8, PIECE>;

/// Writes all bytes, in as many pieces as the sink takes. After a fault a front of them, perhaps the
/// empty one, has been written.
pub fn write_all<K: Sink>(sink: &mut K, bytes: &[u8]) -> Result<(), Failed>
    ensures whole { OnOk result (Takes (K.written sink.old) bytes.now (K.written sink.new)) }
    ensures front { OnErr result (TakesFront (K.written sink.old) bytes.now (K.written sink.new)) }
    ensures same_count { OnOk result (K.faults sink.new ≡ K.faults sink.old) }
    ensures failed { OnErr result (Rose (K.faults sink.old) (K.faults sink.new)) }
    ensures unfinished { OnErr result (K.finished sink.new ≡ false) }
    ensures never_falls { K.faults sink.old ≤ K.faults sink.new }
    ensures tells { is_some (K.written sink.new) ≡ is_some (K.written sink.old) }
{
    let mut rest = bytes;
    while !rest.is_empty() {
        let count = sink.write(rest)?;
        let (_, behind) = rest.split_at(count);
        rest = behind;
    }
    Ok(())
}

/// Adds a line to a piece; before that the piece is written where the line does not fit into it. After a
/// fault a front of the piece, perhaps the empty one, has been written.
fn collect<K: Sink>(sink: &mut K, piece: &mut Piece, line: &[u8]) -> Result<(), Failed>
    requires short { length line.now ≤ PIECE }
    ensures whole { OnOk result (Collects (K.written sink.old) piece.old.items line.now (K.written sink.new) piece.new.items) }
    ensures front { OnErr result (TakesFront (K.written sink.old) piece.old.items (K.written sink.new)) }
    ensures same_count { OnOk result (K.faults sink.new ≡ K.faults sink.old) }
    ensures failed { OnErr result (Rose (K.faults sink.old) (K.faults sink.new)) }
    ensures unfinished { OnErr result (K.finished sink.new ≡ false) }
    ensures never_falls { K.faults sink.old ≤ K.faults sink.new }
    ensures tells { is_some (K.written sink.new) ≡ is_some (K.written sink.old) }
{
    if piece.remaining_capacity() < line.len() {
        write_all(sink, piece.as_slice())?;
        piece.clear();
    }
    let _ = piece.try_extend_from_slice(line);
    Ok(())
}

/// Writes each entry's line with a line feed, several lines at once, and finishes the sink. After a
/// fault a front of that text, perhaps the empty one or all of it, has been written.
pub fn write_journal<K: Sink>(sink: &mut K, entries: &[Entry]) -> Result<(), Failed>
    ensures whole { OnOk result (Takes (K.written sink.old) (journal_text entries.now) (K.written sink.new)) }
    ensures front { OnErr result (TakesFront (K.written sink.old) (journal_text entries.now) (K.written sink.new)) }
    ensures same_count { OnOk result (K.faults sink.new ≡ K.faults sink.old) }
    ensures failed { OnErr result (Rose (K.faults sink.old) (K.faults sink.new)) }
    ensures finished { K.finished sink.new ≡ is_ok result }
    ensures never_falls { K.faults sink.old ≤ K.faults sink.new }
    ensures tells { is_some (K.written sink.new) ≡ is_some (K.written sink.old) }
{
    let mut line = Line::new();
    let mut piece = Piece::new();
    for entry in entries {
        write_entry(entry, &mut line);
        put(&mut line, b"\n");
        collect(sink, &mut piece, line.as_slice())?;
    }
    write_all(sink, piece.as_slice())?;
    sink.finish()
}
