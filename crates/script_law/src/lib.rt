//! What the calls of a drained journal are: those of the scripts, in order. Each law is a function without a
//! body; what it asks of a journal stands before the arrow. All of it is this project's own.
#![tactic(auto)]

ghost use Rattle.std.specs.Prelude.{◌≡◌, ◌<◌, ℕ, true, List, length};
ghost use Rattle.mpi_base.specs.declared.entries.Entry.{Entry};
ghost use Rattle.mpi_law.specs.declared.setting.Setting.{Setting};
ghost use Rattle.mpi_law.specs.declared.setting.TheConstants.{THREADS};
ghost use Rattle.mpi_law.specs.ScriptLists.{AllScripts, script_of};
ghost use Rattle.mpi_protocol.specs.Rank.{thread_at, is_idle};
ghost use Rattle.mpi_protocol.specs.World.{opening, rank_at};
ghost use Rattle.mpi_protocol.specs.Run.{IsProtocolRun, end_of, calls_of};
ghost use Rattle.mpi_protocol.specs.Order.{IsDrained, IsQuiet};
ghost use Rattle.script_law.specs.Called.{AreOfScripts, AreEnded};

/// A journal leaves as many ranks as the setting has.
pub fn ranks_stay()
    ensures { (s : Setting) (journal : List Entry) → length (end_of s journal).ranks ≡ s.ranks }
{}

/// In a drained journal each thread calls the beginning of its script: as many operations as the rank has counted
/// of it at the end.
pub fn drained_calls_are_of_scripts()
    ensures { (s : Setting) (scripts : AllScripts) (journal : List Entry) → IsProtocolRun s journal → IsDrained scripts (opening s) journal → AreOfScripts scripts (end_of s journal) journal }
{}

/// Where nothing is left to do, a thread that waits for nothing has called its whole script. Any other waits.
pub fn quiet_ends_have_called_all_or_wait()
    ensures { (s : Setting) (scripts : AllScripts) (journal : List Entry) → IsProtocolRun s journal → IsDrained scripts (opening s) journal → IsQuiet (end_of s journal) scripts
        → (r t : ℕ) → r < s.ranks → t < THREADS → is_idle (thread_at (rank_at (end_of s journal) r) t).waits ≡ true → calls_of r t journal ≡ script_of scripts r t }
{}

/// Where every script is ended, each thread has called its whole script.
pub fn ended_scripts_are_called_whole()
    ensures { (s : Setting) (scripts : AllScripts) (journal : List Entry) → IsProtocolRun s journal → IsDrained scripts (opening s) journal → AreEnded scripts (end_of s journal)
        → (r t : ℕ) → r < s.ranks → t < THREADS → calls_of r t journal ≡ script_of scripts r t }
{}
