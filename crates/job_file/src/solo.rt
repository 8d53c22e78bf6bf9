//! The script of a job with one rank: a line for each operation of its first thread.
ghost use Rattle.std.specs.Prelude.{◌≡◌, ◌⊎◌, ℕ, List, IfOk, IfErr};
ghost use Rattle.mpi_base.specs.declared.ops.Op.{Op as AnyOp};
ghost use Rattle.mpi_law.specs.ScriptLists.{script_of};
ghost use Rattle.job_file.specs.Solo.{solo_setting, solo_of, IsSoloScript, IsSoloFault};

use crate::faults::JobFault;
use crate::job::Job;
use crate::lines::{are_many, first_fault};
use crate::scripts::add_script;
use mpi_law::{MOST_CONTEXTS, Scripts, Setting};
use pset_reg::Psets;
use script_text::lines_tell;
use std::alloc::Global;

/// The job of one rank, of which the bytes are the script of thread 0, with 63 contexts and no
/// configured set. The other seven threads have no operation.
///
/// Else the first fault: `ScriptLong` or `Line`, of rank 0 and thread 0; or `Memory`, which is tied to no
/// cause.
pub fn read_solo(alloc: Global, bytes: &[u8]) -> Result<Job, JobFault>
    ensures setting { IfOk result (λ job. job.setting ≡ solo_setting) }
    ensures alone { IfOk result (λ job. job.scripts ≡ solo_of (script_of job.scripts 0 0)) }
    ensures spelled { IfOk result (λ job. IsSoloScript bytes.now (script_of job.scripts 0 0)) }
    ensures fault { IfErr result (λ fault. (fault ≡ JobFault.Memory) ⊎ IsSoloFault bytes.now fault) }
{
    let (rank, thread) = (0, 0);
    if are_many(bytes) {
        return Err(JobFault::ScriptLong { rank, thread });
    }
    if let Some((line, fault)) = first_fault(bytes) {
        return Err(JobFault::Line {
            rank,
            thread,
            line,
            fault,
        });
    }
    let mut scripts = Scripts::none(alloc, 1)?;
    add_script(&mut scripts, rank, thread, bytes)?;
    Ok(Job {
        setting: Setting {
            ranks: 1,
            contexts: MOST_CONTEXTS,
            psets: Psets::start(alloc, 1)?,
        },
        scripts,
    })
}

/// Two scripts of the same bytes are equal, bytes that are a script have no fault, and no bytes have two
/// faults.
pub fn solo_tells()
    ensures scripts { (bytes : List ℕ) (xs ys : List AnyOp) → IsSoloScript bytes xs → IsSoloScript bytes ys → xs ≡ ys }
    ensures apart { (bytes : List ℕ) (ops : List AnyOp) (fault : JobFault) → IsSoloScript bytes ops → IsSoloFault bytes fault → ⊥ }
    ensures faults { (bytes : List ℕ) (a b : JobFault) → IsSoloFault bytes a → IsSoloFault bytes b → a ≡ b }
{
    lines_tell();
}
