//! The process sets and the scripts of jobs. Laws of protocol runs ask of the setting that the members of each process
//! set are distinct ranks (`SetsAreOfRanks` of `projection_law`), and of the scripts that each operation is well
//! formed (`ScriptsAreOps`). The first holds of the jobs of files, of scripts and of numbers, the second of those of
//! files and scripts (of numbers it is a law of `job_gen`). Each law is a function without a body.
#![tactic(auto)]

ghost use Rattle.std.specs.Prelude.{ℕ, List};
ghost use Rattle.mpi_law.specs.declared.setting.Setting.{Setting};
ghost use Rattle.mpi_law.specs.ScriptLists.{AllScripts};
ghost use Rattle.job_file.specs.Jobs.{IsJob};
ghost use Rattle.job_file.specs.Solo.{solo_setting, solo_of, IsSoloScript};
ghost use Rattle.job_gen.specs.Parts.{generated_setting};
ghost use Rattle.mpi_base.specs.declared.ops.Op.{Op};
ghost use Rattle.projection_law.specs.Premises.{SetsAreOfRanks};
ghost use Rattle.job_law.specs.Scripts.{ScriptsAreOps};

/// The members of each process set of a job are distinct ranks below the number of its ranks: of the two sets that are
/// always there and of each set that the job file lists. The set `mpi://SELF` lists no members, since each rank sees
/// itself there.
pub fn sets_of_jobs_are_of_ranks()
    ensures { (bytes : List ℕ) (s : Setting) (scripts : AllScripts) → IsJob bytes s scripts → SetsAreOfRanks s }
{}

/// So are those of the one rank that runs a script alone.
pub fn sets_of_solo_are_of_ranks()
    ensures { SetsAreOfRanks solo_setting }
{}

/// And those of the four ranks of a job that is made from a number.
pub fn sets_of_generated_are_of_ranks()
    ensures { SetsAreOfRanks generated_setting }
{}

/// Each operation in the scripts of a job is well formed, of a job file and of the script of one rank alone.
pub fn scripts_of_jobs_are_ops()
    ensures jobs { (bytes : List ℕ) (s : Setting) (scripts : AllScripts) → IsJob bytes s scripts → ScriptsAreOps s.ranks scripts }
    ensures solo { (bytes : List ℕ) (ops : List Op) → IsSoloScript bytes ops → ScriptsAreOps solo_setting.ranks (solo_of ops) }
{}
