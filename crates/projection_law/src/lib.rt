//! The agreement in every protocol run. Each choice of the protocol is one event of the agreement alone, or
//! none, so that the agreement's laws hold of the ranks. Each law is a function without a body; what it asks
//! of a setting and a journal stands before the arrow.
//!
//! Each law but `picks_are_contexts` has the premise `CallersNamesAreKnown`: each communicator that a caller has a
//! name for is known to its rank and not left there. `registry_law` shows it of every protocol run.
//! `SetsAreOfRanks`, that the members of each process set are distinct ranks, is asked of the setting.
#![tactic(auto)]

ghost use Rattle.std.specs.Prelude.{ℕ, List};
ghost use Rattle.mpi_base.specs.declared.entries.Entry.{Entry};
ghost use Rattle.mpi_law.specs.declared.setting.Setting.{Setting};
ghost use Rattle.mpi_protocol.specs.Run.{IsProtocolRun, end_of};
ghost use Rattle.projection_law.specs.Premises.{SetsAreOfRanks};
ghost use Rattle.projection_law.specs.KnownNames.{CallersNamesAreKnown};
ghost use Rattle.projection_law.specs.Facts.{IsAgreementRun, PacketsAreTaken, OpensFit, OpensAreWaitedFor, OpensAreCounted, AllHaveCalled, CommsFit, OwnersHaveOffered, MasksStay, PicksAreFree, PicksAreContexts, ExhaustedIsTaken, RetriesHaveZero, RetriesAreCaused, SettledSharesAreTold};

/// Each choice of a protocol run is one event of the agreement, which may happen there, or none; and the world
/// after these events is the agreement of the world that the run leaves.
pub fn protocol_runs_are_agreement_runs()
    ensures { (s : Setting) (journal : List Entry) → SetsAreOfRanks s → CallersNamesAreKnown s journal → IsProtocolRun s journal → IsAgreementRun s journal }
{}

/// Each packet of the agreement at the head of a link is taken when it is delivered.
pub fn packets_are_taken()
    ensures { (s : Setting) (journal : List Entry) → SetsAreOfRanks s → CallersNamesAreKnown s journal → IsProtocolRun s journal → PacketsAreTaken (end_of s journal) }
{}

/// A creation that is open in the agreement at a rank is of distinct ranks and has the rank as a member.
pub fn opens_fit()
    ensures { (s : Setting) (journal : List Entry) → SetsAreOfRanks s → CallersNamesAreKnown s journal → IsProtocolRun s journal → OpensFit (end_of s journal) }
{}

/// A thread of the rank waits for each creation that is open there in the agreement.
pub fn opens_are_waited_for()
    ensures { (s : Setting) (journal : List Entry) → SetsAreOfRanks s → CallersNamesAreKnown s journal → IsProtocolRun s journal → OpensAreWaitedFor (end_of s journal) }
{}

/// A duplicate or a split that is open in the agreement at a rank is counted at its communicator, which the rank
/// has not left.
pub fn opens_are_counted()
    ensures { (s : Setting) (journal : List Entry) → SetsAreOfRanks s → CallersNamesAreKnown s journal → IsProtocolRun s journal → OpensAreCounted (end_of s journal) }
{}

/// Once the first member of a key is in round 1 or later, each member has called, and none is decided.
pub fn all_have_called()
    ensures { (s : Setting) (journal : List Entry) → SetsAreOfRanks s → CallersNamesAreKnown s journal → IsProtocolRun s journal → AllHaveCalled (end_of s journal) }
{}

/// A communicator that a rank knows has a context of the setting and distinct ranks as members, the rank among
/// them.
pub fn comms_fit()
    ensures { (s : Setting) (journal : List Entry) → SetsAreOfRanks s → CallersNamesAreKnown s journal → IsProtocolRun s journal → CommsFit s (end_of s journal) }
{}

/// The owner of a rank's mask is open there, its last offer there owned, and no verdict on it is taken.
pub fn owners_have_offered()
    ensures { (s : Setting) (journal : List Entry) → SetsAreOfRanks s → CallersNamesAreKnown s journal → IsProtocolRun s journal → OwnersHaveOffered (end_of s journal) }
{}

/// A choice leaves a mask that has an owner, or brings the rank a verdict on that owner.
pub fn masks_stay()
    ensures { (s : Setting) (journal : List Entry) → SetsAreOfRanks s → CallersNamesAreKnown s journal → IsProtocolRun s journal → MasksStay (end_of s journal) }
{}

/// A context that is picked is free in each member's mask, which the key owns.
pub fn picks_are_free_at_every_member()
    ensures { (s : Setting) (journal : List Entry) → SetsAreOfRanks s → CallersNamesAreKnown s journal → IsProtocolRun s journal → PicksAreFree (end_of s journal) }
{}

/// A context that is picked is from 1 to the setting's greatest.
pub fn picks_are_contexts()
    ensures { (s : Setting) (journal : List Entry) → IsProtocolRun s journal → PicksAreContexts s (end_of s journal) }
{}

/// Exhausted is said only where each context is taken at some member, whose mask the key owns.
pub fn exhausted_only_where_all_are_taken()
    ensures { (s : Setting) (journal : List Entry) → SetsAreOfRanks s → CallersNamesAreKnown s journal → IsProtocolRun s journal → ExhaustedIsTaken s (end_of s journal) }
{}

/// A retry is said only where some member's offer of the round does not own its mask.
pub fn retries_have_zero()
    ensures { (s : Setting) (journal : List Entry) → SetsAreOfRanks s → CallersNamesAreKnown s journal → IsProtocolRun s journal → RetriesHaveZero (end_of s journal) }
{}

/// A retry is said only where, since the key's last settle, a member made an offer that does not own its mask:
/// another key owned it, or a lesser key waited there.
pub fn retries_have_their_cause()
    ensures { (s : Setting) (journal : List Entry) → SetsAreOfRanks s → CallersNamesAreKnown s journal → IsProtocolRun s journal → RetriesAreCaused s journal }
{}

/// What the first member of an exchange settles is the share of each member, which the member has told and waits
/// with.
pub fn settled_shares_are_told()
    ensures { (s : Setting) (journal : List Entry) → SetsAreOfRanks s → CallersNamesAreKnown s journal → IsProtocolRun s journal → SettledSharesAreTold (end_of s journal) }
{}
