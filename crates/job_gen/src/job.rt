//! A job from a number.
ghost use Rattle.std.specs.Prelude.{◌≡◌, ◌≤◌, ◌<◌, ℕ, IfOk, All};
ghost use Rattle.mpi_law.specs.declared.setting.Setting.{Setting as SettingValue};
ghost use Rattle.mpi_law.specs.declared.setting.TheConstants.{THREADS};
ghost use Rattle.mpi_law.specs.ScriptLists.{AllScripts, script_of};
ghost use Rattle.mpi_law.specs.Settings.{IsSetting};
ghost use Rattle.script_text.specs.Spelling.{IsOp};
ghost use Rattle.job_gen.specs.Parts.{IsGenerated, generated_setting};

use crate::draws::Draws;
use crate::parts::{Part, RANKS, add_part};
use mpi_base::OutOfMemory;
use mpi_law::{MOST_CONTEXTS, Scripts, Setting};
use pset_reg::Psets;
use std::alloc::Global;

/// The least number of operations that a generated job may be allowed: those of its start and its end.
pub const LEAST_OPS: u32 = 20;

/// The greatest.
pub const MOST_OPS: u32 = 16_384;

/// The most operations of a round and of the end together.
const ROOM: u32 = 16;

/// The job of a number, with at most so many operations: a setting and scripts for it. Four ranks make a
/// communicator, go through rounds that are drawn from the number, and end. In a round all duplicate the
/// communicator, split it, or make another one, or one sends a message to one of them.
pub fn generate(alloc: Global, number: u64, ops: u32) -> Result<(Setting, Scripts), OutOfMemory>
    requires least { LEAST_OPS ≤ ops }
    requires most { ops ≤ MOST_OPS }
    ensures job { IfOk result (λ job. IsGenerated number ops job.0 job.1) }
    ensures setting { IfOk result (λ job. IsSetting job.0) }
    ensures ranks { IfOk result (λ job. job.1.ranks ≡ job.0.ranks) }
{
    let mut scripts = Scripts::none(alloc, RANKS)?;
    add_part(&mut scripts, Part::Start)?;
    let mut draws = Draws::of(number);
    let mut rounds = 0;
    while scripts.total() + ROOM <= ops {
        add_part(&mut scripts, draws.round(rounds))?;
        rounds += 1;
    }
    add_part(&mut scripts, Part::End)?;
    let setting = Setting {
        ranks: RANKS,
        contexts: MOST_CONTEXTS,
        psets: Psets::start(alloc, RANKS)?,
    };
    Ok((setting, scripts))
}

/// A number and a number of operations have one job, and its setting is within the limits.
pub fn generated_jobs_are_one()
    ensures one { (number ops : ℕ) (s z : SettingValue) (a b : AllScripts) → IsGenerated number ops s a → IsGenerated number ops z b → (s ≡ z) × (a ≡ b) }
    ensures setting { IsSetting generated_setting }
{}

/// Each operation in the scripts of a generated job is well formed.
pub fn generated_operations_are_well_formed()
    ensures { (number ops : ℕ) (s : SettingValue) (scripts : AllScripts) → IsGenerated number ops s scripts → (r t : ℕ) → r < s.ranks → t < THREADS → All IsOp (script_of scripts r t) }
{}
