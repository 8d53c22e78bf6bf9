//! The way out: the drain of every protocol run comes to an end within a bound, in a quiet world, and there nothing is
//! under way. Each law is a function without a body; what it asks of a setting and a journal stands before the arrow.
//!
//! Each law has the premises of the laws of the agreement in protocol runs: `SetsAreOfRanks`, that the members of each
//! process set are distinct ranks, and that each communicator that a caller has a name for is known to its rank and
//! not left there (`CallersNamesAreKnown` in a journal, `NamesAreKnownFrom` in what the drain goes on to do,
//! `NamesAreKnownInRuns` in every protocol run). The second holds of every protocol run (`registry_law`).
#![tactic(auto)]

ghost use Rattle.std.specs.Prelude.{List};
ghost use Rattle.mpi_base.specs.declared.entries.Entry.{Entry};
ghost use Rattle.mpi_law.specs.declared.setting.Setting.{Setting};
ghost use Rattle.mpi_law.specs.ScriptLists.{AllScripts};
ghost use Rattle.mpi_protocol.specs.World.{opening};
ghost use Rattle.mpi_protocol.specs.Order.{IsQuiet, IsDrained};
ghost use Rattle.mpi_protocol.specs.Run.{IsProtocolRun, end_of};
ghost use Rattle.projection_law.specs.Premises.{SetsAreOfRanks};
ghost use Rattle.projection_law.specs.KnownNames.{NamesAreKnownFrom, CallersNamesAreKnown};
ghost use Rattle.wayout_law.specs.Facts.{IsWithinBound, IsWithinJob, DrainEnds, NamesAreKnownInRuns, IsAtRest};

/// From the world that a protocol run leaves, the drain makes no more choices than the bound says: for n ranks, u
/// operations not answered, l live pairs of a rank and a communicator and f packets in flight `(n + 32) * (u + l) + f`.
pub fn drains_are_short()
    ensures { (s : Setting) (scripts : AllScripts) (journal drained : List Entry) → SetsAreOfRanks s → CallersNamesAreKnown s journal → IsProtocolRun s journal → NamesAreKnownFrom (end_of s journal) drained → IsDrained scripts (end_of s journal) drained → IsWithinBound scripts (end_of s journal) drained }
{}

/// The drain of a job from its opening makes no more choices than n + 32 for each operation of its scripts.
pub fn jobs_are_short()
    ensures { (s : Setting) (scripts : AllScripts) (drained : List Entry) → SetsAreOfRanks s → NamesAreKnownFrom (opening s) drained → IsDrained scripts (opening s) drained → IsWithinJob s scripts drained }
{}

/// From the world that a protocol run leaves, the drain ends: it is a run of the ranks, each choice is the first one
/// in its order, and the world that it leaves is quiet.
pub fn drains_end()
    ensures { (s : Setting) (scripts : AllScripts) (journal : List Entry) → SetsAreOfRanks s → NamesAreKnownInRuns s → IsProtocolRun s journal → DrainEnds scripts (end_of s journal) }
{}

/// Where a protocol run leaves nothing to do, nothing is under way: no packet between two ranks, no key offered or
/// waiting, no owner of a mask, no key undecided that all its members have called, and no exchange for which all its
/// members have told their shares.
pub fn quiet_worlds_are_at_rest()
    ensures { (s : Setting) (scripts : AllScripts) (journal : List Entry) → SetsAreOfRanks s → CallersNamesAreKnown s journal → IsProtocolRun s journal → IsQuiet (end_of s journal) scripts → IsAtRest (end_of s journal) }
{}
