//! A job, run from its start until nothing is left to do.
ghost use Rattle.std.specs.Prelude.{◌≡◌, ◌<◌, ℕ, true, false, IfOk, All};
ghost use Rattle.mpi_law.specs.declared.setting.TheConstants.{THREADS};
ghost use Rattle.mpi_law.specs.Settings.{IsSetting};
ghost use Rattle.mpi_law.specs.ScriptLists.{script_of};
ghost use Rattle.mpi_law.specs.Registry.State.{registry_opening};
ghost use Rattle.mpi_law.specs.Registry.Runs.{IsRegistryRun};
ghost use Rattle.mpi_law.specs.Closed.{is_closed};
ghost use Rattle.mpi_protocol.specs.World.{opening};
ghost use Rattle.mpi_protocol.specs.Run.{IsProtocolRun, end_of, events_of, calls_of};
ghost use Rattle.mpi_protocol.specs.Order.{IsDrained, IsQuiet};
ghost use Rattle.history_text.specs.Text.{IsEntry};
ghost use Rattle.job_law.specs.Scripts.{ScriptsAreOps};
ghost use Rattle.projection_law.specs.Premises.{SetsAreOfRanks};
ghost use Rattle.registry_law.specs.Facts.{registry_of};
ghost use Rattle.script_law.specs.Called.{AreOfScripts, AreEnded};
ghost use Rattle.job_run.specs.Idle.{RanksAreIdle, ThreadsAreIdle};

use closed_law::quiet_ends_are_closed;
use entry_law::entries_are_well_formed;
use history_text::entries_are_in_range;
use job_file::Job;
use mpi_base::OutOfMemory;
use mpi_law::THREADS;
use registry_law::runs_are_registry_runs;
use script_law::{drained_calls_are_of_scripts, ended_scripts_are_called_whole, ranks_stay};
use std::alloc::Global;
use world_core::{Journal, World};
use world_drain::drain;

/// What is left of a job that was run.
#[derive(Drop)]
pub struct Ran {
    /// The journal.
    pub journal: Journal,
    /// Whether every script is ended.
    pub ended: bool,
}

/// Runs a job from its start until nothing is left to do, each time by the first of the choices that may be
/// made. What is asked of the job holds of every one that was read (`job_file`, `job_law`) or generated
/// (`job_gen`, `job_law`).
pub fn run_job(alloc: Global, job: &Job) -> Result<Ran, OutOfMemory>
    requires setting { IsSetting job.now.setting }
    requires ranks { job.now.scripts.ranks ≡ job.now.setting.ranks }
    requires sets { SetsAreOfRanks job.now.setting }
    requires ops { ScriptsAreOps job.now.setting.ranks job.now.scripts }
    ensures run { IfOk result (λ ran. IsProtocolRun job.now.setting ran.journal.entries) }
    ensures registry { IfOk result (λ ran. IsRegistryRun job.now.setting (registry_opening job.now.setting) (events_of ran.journal.entries)) }
    ensures drained { IfOk result (λ ran. IsDrained job.now.scripts (opening job.now.setting) ran.journal.entries) }
    ensures quiet { IfOk result (λ ran. IsQuiet (end_of job.now.setting ran.journal.entries) job.now.scripts) }
    ensures closed { IfOk result (λ ran. is_closed job.now.setting job.now.scripts (registry_of job.now.setting ran.journal.entries) ≡ true) }
    ensures well_formed { IfOk result (λ ran. All IsEntry ran.journal.entries) }
    ensures script { IfOk result (λ ran. AreOfScripts job.now.scripts (end_of job.now.setting ran.journal.entries) ran.journal.entries) }
    ensures ended { IfOk result (λ ran. ran.ended ≡ true → AreEnded job.now.scripts (end_of job.now.setting ran.journal.entries)) }
    ensures whole { IfOk result (λ ran. ran.ended ≡ true → (r t : ℕ) → r < job.now.setting.ranks → t < THREADS → calls_of r t ran.journal.entries ≡ script_of job.now.scripts r t) }
    ensures stuck { IfOk result (λ ran. ran.ended ≡ false → AreEnded job.now.scripts (end_of job.now.setting ran.journal.entries) → ⊥) }
{
    let mut world = World::<1>::start(alloc, job.setting.try_copy(alloc)?)?;
    drain(&mut world, &job.scripts)?;
    let ended = ranks_are_idle(&world);
    let journal = world.into_journal();
    entries_are_in_range(journal.as_slice());
    entries_are_well_formed();
    runs_are_registry_runs();
    quiet_ends_are_closed();
    ranks_stay();
    drained_calls_are_of_scripts();
    ended_scripts_are_called_whole();
    Ok(Ran { journal, ended })
}

/// Whether no thread of a rank waits.
fn threads_are_idle(world: &World<1>, rank: u16) -> bool
    requires { rank < world.now.setting.ranks }
    ensures idle { result ≡ true → ThreadsAreIdle world.now.world rank }
    ensures waits { result ≡ false → ThreadsAreIdle world.now.world rank → ⊥ }
{
    for thread in 0..THREADS {
        if !world.idle(rank, thread) {
            return false;
        }
    }
    true
}

/// Whether no thread waits.
fn ranks_are_idle(world: &World<1>) -> bool
    ensures idle { result ≡ true → RanksAreIdle world.now.setting.ranks world.now.world }
    ensures waits { result ≡ false → RanksAreIdle world.now.setting.ranks world.now.world → ⊥ }
{
    for rank in 0..world.setting().ranks {
        if !threads_are_idle(world, rank) {
            return false;
        }
    }
    true
}
