//! The job of a command.
ghost use Rattle.std.specs.Prelude.{◌≡◌, ◌≤◌, ◌<◌, ◌-◌, ◌^◌, ◌⊎◌, ℕ, List, true, false, length, IfOk, IfErr, OnOk, Some, Err};
ghost use Rattle.io_edge.specs.Counts.{Rose};
ghost use Rattle.mpi_law.specs.declared.setting.Setting.{Setting};
ghost use Rattle.mpi_law.specs.Settings.{IsSetting};
ghost use Rattle.mpi_law.specs.ScriptLists.{AllScripts};
ghost use Rattle.projection_law.specs.Premises.{SetsAreOfRanks};
ghost use Rattle.job_gen.specs.declared.job.TheConstants.{LEAST_OPS, MOST_OPS};
ghost use Rattle.job_gen.specs.Parts.{IsGenerated};
ghost use Rattle.mpisess.specs.Commands.{reads};
ghost use Rattle.mpisess.specs.Reading.{IsInRange};
ghost use Rattle.job_law.specs.Scripts.{ScriptsAreOps};
ghost use Rattle.mpisess.specs.Input.{ReadsAll, ReadsAtMost, TellsLong};
ghost use Rattle.mpisess.specs.Jobs.{IsAlone, IsJobOf, IsFaultOf, IsTold, TellsJob, TellsFault};
ghost use Rattle.mpisess.specs.Statuses.{was_read};
ghost use Rattle.mpisess.specs.Stops.{stop_status};

use crate::command::Command;
use crate::input::read_input;
use crate::status::Stop;
use io_edge::Source;
use job_file::{Job, JobFault, jobs_tell, read_job, read_solo, solo_tells};
use job_gen::{generate, generated_operations_are_well_formed};
use job_law::{
    scripts_of_jobs_are_ops, sets_of_generated_are_of_ranks, sets_of_jobs_are_of_ranks,
    sets_of_solo_are_of_ranks,
};
use mpi_base::OutOfMemory;
use std::alloc::Global;

/// The job of a command: read from a source, or made from a number.
pub(crate) fn find_job<S: Source>(
    alloc: Global,
    command: Command,
    source: &mut S,
) -> Result<Job, Stop>
    requires { IsInRange command }
    // The job.
    ensures told { IfOk result (λ job. TellsJob command (S.left source.old) job.setting job.scripts) }
    ensures alone { command ≡ Command.Solo → IfOk result (λ job. IsAlone job.setting job.scripts) }
    ensures setting { IfOk result (λ job. IsSetting job.setting) }
    ensures ranks { IfOk result (λ job. job.scripts.ranks ≡ job.setting.ranks) }
    ensures sets { IfOk result (λ job. SetsAreOfRanks job.setting) }
    ensures ops { IfOk result (λ job. ScriptsAreOps job.setting.ranks job.scripts) }
    // The faults.
    ensures bad_job { (fault : JobFault) → result ≡ Err (Stop.BadJob fault) → TellsFault command (S.left source.old) fault }
    ensures too_long { result ≡ Err Stop.TooLong → TellsLong (S.left source.old) }
    ensures read_fault { result ≡ Err Stop.ReadFault → Rose (S.faults source.old) (S.faults source.new) }
    ensures never_falls { S.faults source.old ≤ S.faults source.new }
    ensures of_input { reads command ≡ false → IfErr result (λ stop. stop ≡ Stop.Memory) }
    // What was read.
    ensures reads_all { reads command ≡ true → OnOk result (ReadsAll (S.left source.old) (S.left source.new)) }
    ensures reads_at_most { ReadsAtMost 4194305 (S.left source.old) (S.left source.new) }
    ensures reads_well { OnOk result (S.faults source.new ≡ S.faults source.old) }
    ensures stops_all { IfErr result (λ stop. was_read (stop_status stop) ≡ true → ReadsAll (S.left source.old) (S.left source.new)) }
    ensures stops_well { IfErr result (λ stop. was_read (stop_status stop) ≡ true → S.faults source.new ≡ S.faults source.old) }
    ensures unread { reads command ≡ false → source.new ≡ source.old }
{
    match command {
        Command::Serial | Command::Solo => take_job(alloc, command, source),
        Command::Gen { number, ops } => Ok(made(alloc, number, ops)?),
    }
}

/// The job that a number makes.
fn made(alloc: Global, number: u64, ops: u32) -> Result<Job, OutOfMemory>
    requires least { LEAST_OPS ≤ ops }
    requires most { ops ≤ MOST_OPS }
    ensures job { IfOk result (λ job. IsGenerated number ops job.setting job.scripts) }
    ensures setting { IfOk result (λ job. IsSetting job.setting) }
    ensures ranks { IfOk result (λ job. job.scripts.ranks ≡ job.setting.ranks) }
    ensures sets { IfOk result (λ job. SetsAreOfRanks job.setting) }
    ensures ops { IfOk result (λ job. ScriptsAreOps job.setting.ranks job.scripts) }
{
    sets_of_generated_are_of_ranks();
    generated_operations_are_well_formed();
    let (setting, scripts) = generate(alloc, number, ops)?;
    Ok(Job { setting, scripts })
}

/// Reads the job of a command from a source.
fn take_job<S: Source>(alloc: Global, command: Command, source: &mut S) -> Result<Job, Stop>
    requires { reads command ≡ true }
    // The job.
    ensures told { IfOk result (λ job. TellsJob command (S.left source.old) job.setting job.scripts) }
    ensures alone { command ≡ Command.Solo → IfOk result (λ job. IsAlone job.setting job.scripts) }
    ensures setting { IfOk result (λ job. IsSetting job.setting) }
    ensures ranks { IfOk result (λ job. job.scripts.ranks ≡ job.setting.ranks) }
    ensures sets { IfOk result (λ job. SetsAreOfRanks job.setting) }
    ensures ops { IfOk result (λ job. ScriptsAreOps job.setting.ranks job.scripts) }
    // The faults.
    ensures bad_job { (fault : JobFault) → result ≡ Err (Stop.BadJob fault) → TellsFault command (S.left source.old) fault }
    ensures too_long { result ≡ Err Stop.TooLong → TellsLong (S.left source.old) }
    ensures read_fault { result ≡ Err Stop.ReadFault → Rose (S.faults source.old) (S.faults source.new) }
    ensures never_falls { S.faults source.old ≤ S.faults source.new }
    // What was read.
    ensures reads_all { OnOk result (ReadsAll (S.left source.old) (S.left source.new)) }
    ensures reads_well { OnOk result (S.faults source.new ≡ S.faults source.old) }
    ensures reads_at_most { ReadsAtMost 4194305 (S.left source.old) (S.left source.new) }
    ensures stops_all { IfErr result (λ stop. was_read (stop_status stop) ≡ true → ReadsAll (S.left source.old) (S.left source.new)) }
    ensures stops_well { IfErr result (λ stop. was_read (stop_status stop) ≡ true → S.faults source.new ≡ S.faults source.old) }
{
    let bytes = read_input(alloc, source)?;
    Ok(job_of(alloc, command, &bytes)?)
}

/// The job that bytes are to a command.
fn job_of(alloc: Global, command: Command, bytes: &[u8]) -> Result<Job, JobFault>
    requires reads { reads command ≡ true }
    requires few { length bytes.now < 2 ^ 32 - 1 }
    ensures job { IfOk result (λ job. IsJobOf command bytes.now job.setting job.scripts) }
    ensures alone { command ≡ Command.Solo → IfOk result (λ job. IsAlone job.setting job.scripts) }
    ensures setting { IfOk result (λ job. IsSetting job.setting) }
    ensures ranks { IfOk result (λ job. job.scripts.ranks ≡ job.setting.ranks) }
    ensures sets { IfOk result (λ job. SetsAreOfRanks job.setting) }
    ensures ops { IfOk result (λ job. ScriptsAreOps job.setting.ranks job.scripts) }
    ensures fault { IfErr result (λ fault. (fault ≡ JobFault.Memory) ⊎ IsFaultOf command bytes.now fault) }
{
    sets_of_jobs_are_of_ranks();
    sets_of_solo_are_of_ranks();
    scripts_of_jobs_are_ops();
    match command {
        Command::Serial => read_job(alloc, bytes),
        Command::Solo => read_solo(alloc, bytes),
        Command::Gen { .. } => unreachable!(),
    }
}

/// Bytes that are the job of a command have no fault, and no bytes have two faults, but for the place where a
/// text is no TOML.
pub(crate) fn commands_tell()
    ensures apart { (command : Command) (bytes : List ℕ) (s : Setting) (scripts : AllScripts) (fault : JobFault) → IsJobOf command bytes s scripts → IsFaultOf command bytes fault → ⊥ }
    ensures faults { (command : Command) (bytes : List ℕ) (a b : JobFault) → IsFaultOf command bytes a → IsFaultOf command bytes b → IsTold bytes b (Some a) }
{
    jobs_tell();
    solo_tells();
}
