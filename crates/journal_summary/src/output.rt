//! The summary of a journal, written.
ghost use Rattle.std.specs.Prelude.{◌≡◌, ◌≤◌, ◌+◌, ◌++◌, false, is_ok, is_some, length, decimal, OnOk, OnErr};
ghost use Rattle.io_edge.specs.Counts.{Rose};
ghost use Rattle.io_edge.specs.Sink.{Takes, TakesFront};
ghost use Rattle.journal_summary.specs.Summaries.{summary_of, summary_text};

use crate::counts::Summary;
use io_edge::{Failed, Sink};
use itoa::Buffer;
use journal_out::write_all;
use mpi_base::Entry;
use token_text::{Line, put, put_number};

/// Adds a number of 128 bits, at most 39 bytes.
fn put_wide(out: &mut Line, number: u128)
    requires { length out.old.items + 39 ≤ 2048 }
    ensures added { out.new.items ≡ out.old.items ++ decimal number }
    ensures short { length out.new.items ≤ length out.old.items + 39 }
{
    put(out, Buffer::new().format(number).as_bytes());
}

/// Adds a label and a number, at most 31 bytes.
fn put_count(out: &mut Line, label: &[u8], count: u64)
    requires room { length out.old.items + 31 ≤ 2048 }
    requires label { length label.now ≤ 11 }
    ensures added { out.new.items ≡ out.old.items ++ label.now ++ decimal count }
    ensures short { length out.new.items ≤ length out.old.items + 31 }
{
    put(out, label);
    put_number(out, count);
}

/// The line of a summary with its line feed, at most 235 bytes.
fn line_of(summary: &Summary) -> Line
    ensures text { result.items ≡ summary_text summary.now }
    ensures short { length result.items ≤ 235 }
{
    let mut line = Line::new();
    put_count(&mut line, b"ops=", summary.ops);
    put_count(&mut line, b" steps=", summary.steps);
    put_count(&mut line, b" picks=", summary.picks);
    put_count(&mut line, b" exhausted=", summary.exhausted);
    put_count(&mut line, b" matches=", summary.matches);
    put_count(&mut line, b" retries=", summary.retries);
    put(&mut line, b" dropped=");
    put_wide(&mut line, summary.dropped);
    put(&mut line, b"\n");
    line
}

/// Writes the summary of a journal, one line, and finishes the sink. After a fault a front of that line,
/// perhaps the empty one or all of it, has been written.
pub fn write_summary<K: Sink>(sink: &mut K, entries: &[Entry]) -> Result<(), Failed>
    ensures whole { OnOk result (Takes (K.written sink.old) (summary_text (summary_of entries.now)) (K.written sink.new)) }
    ensures front { OnErr result (TakesFront (K.written sink.old) (summary_text (summary_of entries.now)) (K.written sink.new)) }
    ensures same_count { OnOk result (K.faults sink.new ≡ K.faults sink.old) }
    ensures failed { OnErr result (Rose (K.faults sink.old) (K.faults sink.new)) }
    ensures finished { K.finished sink.new ≡ is_ok result }
    ensures never_falls { K.faults sink.old ≤ K.faults sink.new }
    ensures tells { is_some (K.written sink.new) ≡ is_some (K.written sink.old) }
{
    let line = line_of(&Summary::of(entries));
    write_all(sink, line.as_slice())?;
    sink.finish()
}
