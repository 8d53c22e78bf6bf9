//! A job, run from a program of your own: the library's crates read it, run it and give its journal.
#![tactic(auto)]

ghost use Rattle.std.specs.Prelude.{◌<◌, ◌-◌, ◌^◌, length, IfOk};
ghost use Rattle.library_example.specs.Whole.{IsWhole};

use job_file::{JobFault, read_job};
use job_law::{scripts_of_jobs_are_ops, sets_of_jobs_are_of_ranks};
use job_run::run_job;
use std::alloc::Global;
use std::process::ExitCode;
use world_core::Journal;

/// Two ranks make a communicator together.
const JOB: &[u8] = b"
format = 1
ranks = 2
[scripts]
\"0.0\" = \"\"\"
session s
pset s mpi://WORLD -> g
create g \"t\" -> c
\"\"\"
\"1.0\" = \"\"\"
session s
pset s mpi://WORLD -> g
create g \"t\" -> c
\"\"\"
";

/// The journal of a job, run until nothing is left to do.
fn run(alloc: Global, bytes: &[u8]) -> Result<Journal, JobFault>
    requires { length bytes.now < 2 ^ 32 - 1 }
    ensures whole { IfOk result (λ journal. IsWhole bytes.now journal.entries) }
{
    let job = read_job(alloc, bytes)?;
    sets_of_jobs_are_of_ranks();
    scripts_of_jobs_are_ops();
    let ran = run_job(alloc, &job)?;
    Ok(ran.journal)
}

fn main(rt: HostRuntime) -> ExitCode {
    match run(rt.alloc(), JOB) {
        Ok(journal) => {
            let _ = println!(rt; "{} steps", journal.len());
            ExitCode::SUCCESS
        }
        Err(fault) => {
            let _ = eprintln!(rt; "{fault}");
            ExitCode::FAILURE
        }
    }
}
