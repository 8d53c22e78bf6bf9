//! A journal replayed on the central registry.
ghost use Rattle.std.specs.Prelude.{◌≡◌, ◌≤◌, true, IfOk};
ghost use Rattle.mpi_law.specs.Settings.{IsSetting};
ghost use Rattle.mpi_law.specs.ScriptLists.{AllScripts};
ghost use Rattle.mpi_law.specs.Registry.State.{registry_opening};
ghost use Rattle.mpi_law.specs.Registry.Runs.{IsRegistryRun};
ghost use Rattle.mpi_law.specs.Closed.{is_closed};
ghost use Rattle.job_gen.specs.declared.job.TheConstants.{LEAST_OPS, MOST_OPS};
ghost use Rattle.job_gen.specs.Parts.{IsGenerated, generated_setting};
ghost use Rattle.mpi_protocol.specs.World.{opening};
ghost use Rattle.mpi_protocol.specs.Order.{IsDrained};
ghost use Rattle.mpi_protocol.specs.Run.{events_of};
ghost use Rattle.registry_law.specs.Facts.{registry_of};

use central_registry::Registry;
use job_file::Job;
use job_gen::{generate, generated_operations_are_well_formed};
use job_law::sets_of_generated_are_of_ranks;
use job_run::run_job;
use mpi_base::{Entry, OutOfMemory};
use std::alloc::Global;
use world_core::Journal;

/// What a registry says of a journal.
#[derive(Drop)]
pub(crate) struct Replay {
    /// The journal.
    pub(crate) journal: Journal,
    /// Whether each of its entries is a step of the registry.
    pub(crate) all: bool,
    /// Whether the registry is closed after them.
    pub(crate) closed: bool,
}

/// Whether each entry of the journal of a job is a step of the registry, and whether it is closed after them.
fn asked(alloc: Global, job: &Job, entries: &[Entry]) -> Result<(bool, bool), OutOfMemory>
    requires setting { IsSetting job.now.setting }
    requires ranks { job.now.scripts.ranks ≡ job.now.setting.ranks }
    requires run { IsRegistryRun job.now.setting (registry_opening job.now.setting) (events_of entries.now) }
    requires done { is_closed job.now.setting job.now.scripts (registry_of job.now.setting entries.now) ≡ true }
    ensures all { IfOk result (λ told. told.0 ≡ true) }
    ensures closed { IfOk result (λ told. told.1 ≡ true) }
{
    let mut registry = Registry::start(alloc, &job.setting)?;
    let all = registry.try_steps(entries)?;
    let closed = registry.closed(&job.scripts);
    Ok((all, closed))
}

/// Runs the job that a number makes, with at most so many operations, and replays its journal. Each entry is a
/// step, and the registry is closed after them.
pub(crate) fn replay_generated(alloc: Global, number: u64, ops: u32) -> Result<Replay, OutOfMemory>
    requires least { LEAST_OPS ≤ ops }
    requires most { ops ≤ MOST_OPS }
    ensures drained { IfOk result (λ replay. (scripts : AllScripts) × IsGenerated number ops generated_setting scripts × IsDrained scripts (opening generated_setting) replay.journal.entries) }
    ensures all { IfOk result (λ replay. replay.all ≡ true) }
    ensures closed { IfOk result (λ replay. replay.closed ≡ true) }
{
    sets_of_generated_are_of_ranks();
    generated_operations_are_well_formed();
    let (setting, scripts) = generate(alloc, number, ops)?;
    let job = Job { setting, scripts };
    let journal = run_job(alloc, &job)?.journal;
    let (all, closed) = asked(alloc, &job, journal.as_slice())?;
    Ok(Replay {
        journal,
        all,
        closed,
    })
}
