//! What a session writes.
ghost use Rattle.std.specs.Prelude.{◌≡◌, ◌≤◌, true, false, is_ok, OnOk, OnErr};
ghost use Rattle.io_edge.specs.Counts.{Rose};
ghost use Rattle.io_edge.specs.Sink.{Takes, TakesFront};
ghost use Rattle.mpisess.specs.Outputs.{output_of};
ghost use Rattle.mpisess.specs.Statuses.{was_run, was_written};

use crate::command::Command;
use crate::status::Status;
use io_edge::{Failed, Sink};
use job_run::Ran;
use journal_out::write_journal;
use journal_summary::write_summary;
use mpi_base::Entry;

/// Writes what a command writes of a journal, and finishes the sink.
fn write_text<K: Sink>(sink: &mut K, command: Command, entries: &[Entry]) -> Result<(), Failed>
    ensures whole { OnOk result (Takes (K.written sink.old) (output_of command entries.now) (K.written sink.new)) }
    ensures front { OnErr result (TakesFront (K.written sink.old) (output_of command entries.now) (K.written sink.new)) }
    ensures same_count { OnOk result (K.faults sink.new ≡ K.faults sink.old) }
    ensures failed { OnErr result (Rose (K.faults sink.old) (K.faults sink.new)) }
    ensures finished { K.finished sink.new ≡ is_ok result }
    ensures never_falls { K.faults sink.old ≤ K.faults sink.new }
{
    match command {
        Command::Serial | Command::Solo => write_journal(sink, entries),
        Command::Gen { .. } => write_summary(sink, entries),
    }
}

/// Writes what a command writes of a job that was run, and tells how the session ended.
pub(crate) fn write_out<K: Sink>(sink: &mut K, command: Command, ran: &Ran) -> Status
    ensures run { was_run result ≡ true }
    ensures fine { result ≡ Status.Fine → ran.now.ended ≡ true }
    ensures stuck { result ≡ Status.Stuck → ran.now.ended ≡ false }
    ensures written { was_written result ≡ true → Takes (K.written sink.old) (output_of command ran.now.journal.entries) (K.written sink.new) }
    ensures finished { was_written result ≡ true → K.finished sink.new ≡ true }
    ensures writes_well { was_written result ≡ true → K.faults sink.new ≡ K.faults sink.old }
    ensures front { result ≡ Status.WriteFault → TakesFront (K.written sink.old) (output_of command ran.now.journal.entries) (K.written sink.new) }
    ensures unfinished { result ≡ Status.WriteFault → K.finished sink.new ≡ false }
    ensures write_fault { result ≡ Status.WriteFault → Rose (K.faults sink.old) (K.faults sink.new) }
    ensures never_falls { K.faults sink.old ≤ K.faults sink.new }
{
    match write_text(sink, command, ran.journal.as_slice()) {
        Ok(()) if ran.ended => Status::Fine,
        Ok(()) => Status::Stuck,
        Err(Failed) => Status::WriteFault,
    }
}
