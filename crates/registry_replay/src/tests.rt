//! Journals of jobs on a running registry.
ghost use Rattle.std.specs.Prelude.{◌≤◌};
ghost use Rattle.job_gen.specs.declared.job.TheConstants.{LEAST_OPS, MOST_OPS};

use crate::replay::replay_generated;
use central_registry::Registry;
use job_file::read_job;
use job_law::{scripts_of_jobs_are_ops, sets_of_jobs_are_of_ranks};
use job_run::run_job;
use mpi_base::Said;
use std::alloc::Global;
use std::process::Abort;

/// Two ranks make a communicator together.
const PAIR: &[u8] = b"
format = 1
ranks = 2
[scripts]
\"0.0\" = \"\"\"
session s
pset s mpi://WORLD -> g
create g \"t\" -> c
\"\"\"
\"1.0\" = \"\"\"
session s
pset s mpi://WORLD -> g
create g \"t\" -> c
\"\"\"
";

#[test]
fn a_context_beyond_the_last_is_no_step(rt: HostRuntime) {
    sets_of_jobs_are_of_ranks();
    scripts_of_jobs_are_ops();
    let job = read_job(rt.alloc(), PAIR).expect(&rt, "a job");
    let mut registry = Registry::start(rt.alloc(), &job.setting).expect(&rt, "memory");
    let journal = run_job(rt.alloc(), &job).expect(&rt, "memory").journal;
    let mut refused = false;
    for entry in journal.as_slice() {
        if entry.said == Some(Said::Picked(1)) {
            let mut other = entry.copy();
            other.said = Some(Said::Picked(64));
            assert!(rt; !registry.try_step(&other).expect(&rt, "memory"));
            refused = true;
        }
        assert!(rt; registry.try_step(entry).expect(&rt, "memory"));
    }
    assert!(rt; refused);
    assert_eq!(rt; journal.len(), 16);
}

fn assert_replays(rt: &impl Abort, alloc: Global, number: u64, ops: u32, steps: u64)
    requires least { LEAST_OPS ≤ ops }
    requires most { ops ≤ MOST_OPS }
{
    let replay = replay_generated(alloc, number, ops).expect(rt, "memory");
    assert_eq!(rt; replay.journal.len(), steps, "gen {number} {ops}");
    assert!(rt; replay.all && replay.closed, "gen {number} {ops}");
}

#[test]
fn generated_journals_are_steps_to_a_closed_registry(rt: HostRuntime) {
    assert_replays(&rt, rt.alloc(), 1, 20, 70);
    assert_replays(&rt, rt.alloc(), 1, 28, 74);
    assert_replays(&rt, rt.alloc(), 1, 29, 74);
}
