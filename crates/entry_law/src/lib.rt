//! Each entry of a protocol run is well formed. The law is a function without a body; what it asks of a
//! journal stands before the arrow. All of it is this project's own.
#![tactic(auto)]

ghost use Rattle.std.specs.Prelude.{List, All};
ghost use Rattle.mpi_base.specs.declared.entries.Entry.{Entry};
ghost use Rattle.history_text.specs.Text.{IsEntry};
ghost use Rattle.history_text.specs.Ranges.{EntryInRange};
ghost use Rattle.mpi_law.specs.declared.setting.Setting.{Setting};
ghost use Rattle.mpi_protocol.specs.Run.{IsProtocolRun};
ghost use Rattle.entry_law.specs.Calls.{CallsAreOps};

/// The entries of a protocol run are well formed where the operations that it calls are, and where the numbers,
/// texts and lists of the entries are in the ranges of their types, as those of every journal in code are.
pub fn entries_are_well_formed()
    ensures { (s : Setting) (journal : List Entry) → IsProtocolRun s journal → CallsAreOps s journal → All EntryInRange journal → All IsEntry journal }
{}
