//! A session of the program: a job is read from a source, run until nothing is left to do, and its
//! journal written to a sink.
ghost use Rattle.std.specs.Prelude.{◌≡◌, ◌≤◌, ◌<◌, ◌⊎◌, ℕ, List, [], true, false, length, is_none, is_some, IfSome, Some, None, All};
ghost use Rattle.io_edge.specs.Counts.{Rose};
ghost use Rattle.io_edge.specs.Sink.{Takes, TakesFront};
ghost use Rattle.history_text.specs.Text.{IsEntry, journal_text};
ghost use Rattle.mpi_base.specs.declared.entries.Entry.{Entry};
ghost use Rattle.mpi_law.specs.declared.setting.Setting.{Setting};
ghost use Rattle.mpi_law.specs.declared.setting.TheConstants.{THREADS};
ghost use Rattle.mpi_law.specs.Settings.{IsSetting};
ghost use Rattle.mpi_law.specs.ScriptLists.{AllScripts, script_of};
ghost use Rattle.mpi_law.specs.Registry.State.{registry_opening};
ghost use Rattle.mpi_law.specs.Registry.Runs.{IsRegistryRun};
ghost use Rattle.mpi_law.specs.Closed.{is_closed};
ghost use Rattle.mpi_protocol.specs.World.{opening};
ghost use Rattle.mpi_protocol.specs.Run.{IsProtocolRun, end_of, events_of, calls_of};
ghost use Rattle.mpi_protocol.specs.Order.{IsDrained, IsQuiet};
ghost use Rattle.projection_law.specs.Premises.{SetsAreOfRanks};
ghost use Rattle.registry_law.specs.Facts.{registry_of};
ghost use Rattle.script_law.specs.Called.{AreOfScripts, AreEnded};
ghost use Rattle.mpisess.specs.Input.{ReadsAll, ReadsAtMost, TellsLong};
ghost use Rattle.mpisess.specs.Commands.{command_of, are_reading};
ghost use Rattle.mpisess.specs.Jobs.{IsAlone, IsJobOf, IsFaultOf, IsTold, TellsJob, TellsFault};
ghost use Rattle.mpisess.specs.Outputs.{output_of};
ghost use Rattle.mpisess.specs.Statuses.{is_usage, is_bad_job, is_of_input, was_read, was_run, was_written};

use crate::command::{Command, command_in};
use crate::jobs::{commands_tell, find_job};
use crate::output::write_out;
use crate::status::Status;
use history_text::texts_tell;
use io_edge::{Sink, Source};
use job_file::{Job, JobFault};
use job_run::run_job;
use std::alloc::Global;
use world_core::Journal;

/// What a session leaves.
#[derive(Drop)]
pub struct Done {
    /// How it ended.
    pub status: Status,
    /// The job that was run.
    pub job: Option<Job>,
    /// What was run.
    pub journal: Journal,
    /// What was wrong with the job.
    pub fault: Option<JobFault>,
}

/// A session of the program: reads a job, runs it until nothing is left to do, and writes its journal, one
/// line a step. The words are those of the command line behind the program's name: `serial` for a job of
/// many ranks, `solo` for the script of one.
///
/// `serial` reads a job file with at most 16 ranks of 8 threads and 63 contexts, `solo` a script of at most
/// 4,096 lines for thread 0 of one rank with 63 contexts. The input has at most 4,194,304 bytes. The
/// operations are those of the Sessions model: sessions and the groups of process sets (MPI 4.0, 11.3 and
/// 7.3), communicators (7.4) and messages between two processes (3.2). The job is drained from its start,
/// each time by the first of the choices that may be made.
///
/// The source is read to its end before anything is run, and the sink is written when the run is over.
/// Fine comes where every script is ended, Stuck where nothing is left to do and some thread waits. Usage
/// comes of other words, BadJob of an input that is no job, TooLong of too many bytes, ReadFault and
/// WriteFault of a source and a sink that fail. `Memory` alone is tied to no cause. Of a source or a sink
/// that does not tell its bytes no clause about bytes says anything.
pub fn mpisess_calm<S: Source, K: Sink>(
    alloc: Global,
    words: &[String],
    source: &mut S,
    sink: &mut K,
) -> Done
    // The command line.
    ensures usage { is_usage result.status ≡ is_none (command_of words.now) }
    // The job and the faults.
    ensures told { (command : Command) → command_of words.now ≡ Some command → IfSome result.job (λ job. TellsJob command (S.left source.old) job.setting job.scripts) }
    ensures alone { command_of words.now ≡ Some Command.Solo → IfSome result.job (λ job. IsAlone job.setting job.scripts) }
    ensures setting { IfSome result.job (λ job. IsSetting job.setting) }
    ensures sets { IfSome result.job (λ job. SetsAreOfRanks job.setting) }
    ensures ran { is_some result.job ≡ was_run result.status }
    ensures bad_job { (command : Command) → command_of words.now ≡ Some command → IfSome result.fault (TellsFault command (S.left source.old)) }
    ensures fault { is_some result.fault ≡ is_bad_job result.status }
    ensures too_long { result.status ≡ Status.TooLong → TellsLong (S.left source.old) }
    ensures read_fault { result.status ≡ Status.ReadFault → Rose (S.faults source.old) (S.faults source.new) }
    ensures write_fault { result.status ≡ Status.WriteFault → Rose (K.faults sink.old) (K.faults sink.new) }
    ensures source_never_falls { S.faults source.old ≤ S.faults source.new }
    ensures sink_never_falls { K.faults sink.old ≤ K.faults sink.new }
    // What was read.
    ensures reads_all { are_reading (command_of words.now) ≡ true → was_read result.status ≡ true → ReadsAll (S.left source.old) (S.left source.new) }
    ensures reads_well { was_read result.status ≡ true → S.faults source.new ≡ S.faults source.old }
    ensures reads_at_most { ReadsAtMost 4194305 (S.left source.old) (S.left source.new) }
    ensures unread { are_reading (command_of words.now) ≡ false → source.new ≡ source.old }
    ensures of_input { are_reading (command_of words.now) ≡ false → is_of_input result.status ≡ false }
    // The journal of the job that was run.
    ensures run { IfSome result.job (λ job. IsProtocolRun job.setting result.journal.entries) }
    ensures registry { IfSome result.job (λ job. IsRegistryRun job.setting (registry_opening job.setting) (events_of result.journal.entries)) }
    ensures drained { IfSome result.job (λ job. IsDrained job.scripts (opening job.setting) result.journal.entries) }
    ensures quiet { IfSome result.job (λ job. IsQuiet (end_of job.setting result.journal.entries) job.scripts) }
    ensures closed { IfSome result.job (λ job. is_closed job.setting job.scripts (registry_of job.setting result.journal.entries) ≡ true) }
    ensures script { IfSome result.job (λ job. AreOfScripts job.scripts (end_of job.setting result.journal.entries) result.journal.entries) }
    ensures ended { result.status ≡ Status.Fine → IfSome result.job (λ job. AreEnded job.scripts (end_of job.setting result.journal.entries)) }
    ensures whole { result.status ≡ Status.Fine → IfSome result.job (λ job. (r t : ℕ) → r < job.setting.ranks → t < THREADS → calls_of r t result.journal.entries ≡ script_of job.scripts r t) }
    ensures stuck { result.status ≡ Status.Stuck → IfSome result.job (λ job. AreEnded job.scripts (end_of job.setting result.journal.entries) → ⊥) }
    ensures no_journal { was_run result.status ≡ false → result.journal.entries ≡ [] }
    ensures well_formed { All IsEntry result.journal.entries }
    ensures determined { (entries : List Entry) → All IsEntry entries → journal_text entries ≡ journal_text result.journal.entries → entries ≡ result.journal.entries }
    // What was written.
    ensures written { (command : Command) → command_of words.now ≡ Some command → was_written result.status ≡ true → Takes (K.written sink.old) (output_of command result.journal.entries) (K.written sink.new) }
    ensures finished { was_written result.status ≡ true → K.finished sink.new ≡ true }
    ensures writes_well { was_written result.status ≡ true → K.faults sink.new ≡ K.faults sink.old }
    ensures front { (command : Command) → command_of words.now ≡ Some command → result.status ≡ Status.WriteFault → TakesFront (K.written sink.old) (output_of command result.journal.entries) (K.written sink.new) }
    ensures unfinished { result.status ≡ Status.WriteFault → K.finished sink.new ≡ false }
    ensures unwritten { was_run result.status ≡ false → sink.new ≡ sink.old }
    // Completeness.
    ensures complete { (command : Command) (bytes : List ℕ) (setting : Setting) (scripts : AllScripts) → command_of words.now ≡ Some command → S.left source.old ≡ Some bytes → length bytes ≤ 4194304 → IsJobOf command bytes setting scripts
        → (Rose (S.faults source.old) (S.faults source.new) → ⊥) → (Rose (K.faults sink.old) (K.faults sink.new) → ⊥) → (was_written result.status ≡ true) ⊎ (result.status ≡ Status.Memory) }
    ensures complete_fault { (command : Command) (bytes : List ℕ) (fault : JobFault) → command_of words.now ≡ Some command → S.left source.old ≡ Some bytes → length bytes ≤ 4194304 → IsFaultOf command bytes fault
        → (Rose (S.faults source.old) (S.faults source.new) → ⊥) → IsTold bytes fault result.fault ⊎ (result.status ≡ Status.Memory) }
    ensures complete_gen { (number ops : ℕ) → command_of words.now ≡ Some (Command.Gen number ops)
        → (Rose (K.faults sink.old) (K.faults sink.new) → ⊥) → (was_written result.status ≡ true) ⊎ (result.status ≡ Status.Memory) }
    ensures complete_long { (bytes : List ℕ) → are_reading (command_of words.now) ≡ true → S.left source.old ≡ Some bytes → 4194304 < length bytes
        → (Rose (S.faults source.old) (S.faults source.new) → ⊥) → (result.status ≡ Status.TooLong) ⊎ (result.status ≡ Status.Memory) }
{
    texts_tell();
    let Some(command) = command_in(words) else {
        return without_run(alloc, Status::Usage, None);
    };
    commands_tell();
    let job = match find_job(alloc, command, source) {
        Ok(job) => job,
        Err(stop) => return without_run(alloc, stop.status(), stop.fault()),
    };
    let Ok(ran) = run_job(alloc, &job) else {
        return without_run(alloc, Status::Memory, None);
    };
    let status = write_out(sink, command, &ran);
    Done {
        status,
        job: Some(job),
        journal: ran.journal,
        fault: None,
    }
}

/// A session that ran nothing.
fn without_run(alloc: Global, status: Status, fault: Option<JobFault>) -> Done
    ensures status { result.status ≡ status }
    ensures job { result.job ≡ None }
    ensures journal { result.journal.entries ≡ [] }
    ensures fault { result.fault ≡ fault }
{
    Done {
        status,
        job: None,
        journal: Journal::none(alloc),
        fault,
    }
}
