//! Jobs that are run to their end.
ghost use Rattle.std.specs.Prelude.{◌<◌, ◌-◌, ◌^◌, length};

use crate::run_job;
use job_file::read_job;
use job_law::{scripts_of_jobs_are_ops, sets_of_jobs_are_of_ranks};
use std::alloc::Global;
use std::process::Abort;
use std::test::Fail;

/// Two ranks make a communicator together.
const PAIR: &[u8] = b"\
format = 1
ranks = 2
[scripts]
'0.0' = \"session s\\npset s mpi://WORLD -> g\\ncreate g \\\"t\\\" -> c\"
'1.0' = \"session s\\npset s mpi://WORLD -> g\\ncreate g \\\"t\\\" -> c\"
";

/// A rank waits for a name that nobody binds.
const WAITING: &[u8] = b"\
format = 1
ranks = 1
[scripts]
'0.0' = \"session s\\nawait x\"
";

fn assert_ends(
    rt: &impl Abort,
    alloc: Global,
    bytes: &[u8],
    ended: bool,
    steps: u64,
) -> Result<(), Fail>
    requires { length bytes.now < 2 ^ 32 - 1 }
{
    sets_of_jobs_are_of_ranks();
    scripts_of_jobs_are_ops();
    let job = read_job(alloc, bytes).expect(rt, "a job");
    let ran = run_job(alloc, &job)?;
    assert_eq!(rt; ran.ended, ended);
    assert_eq!(rt; ran.journal.len(), steps);
    Ok(())
}

#[test]
fn a_job_runs_until_nothing_is_left_to_do(rt: HostRuntime) -> Result<(), Fail> {
    assert_ends(&rt, rt.alloc(), PAIR, true, 16)?;
    assert_ends(&rt, rt.alloc(), WAITING, false, 2)
}
