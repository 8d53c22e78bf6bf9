//! What is said of a creation and not taken yet: a final verdict is due to a member from the settle that says it until
//! the member takes it. What is due is a function of the events of a run; the laws are of every run of the agreement,
//! and of every protocol run. Each law is a function without a body.
//!
//! The laws of protocol runs have the premises of `projection_law`: `SetsAreOfRanks` is asked of the setting, and
//! `CallersNamesAreKnown` holds of every protocol run (`registry_law`).
#![tactic(auto)]

ghost use Rattle.std.specs.Prelude.{ℕ, List};
ghost use Rattle.mpi_base.specs.declared.entries.Entry.{Entry};
ghost use Rattle.mpi_law.specs.declared.setting.Setting.{Setting};
ghost use Rattle.agree_law.specs.World.{Event, run, opening as agreement_opening};
ghost use Rattle.mpi_protocol.specs.World.{opening};
ghost use Rattle.mpi_protocol.specs.Run.{IsProtocolRun, end_of};
ghost use Rattle.projection_law.specs.Premises.{SetsAreOfRanks};
ghost use Rattle.projection_law.specs.KnownNames.{CallersNamesAreKnown};
ghost use Rattle.due_law.specs.Dues.{none_due, dues_after};
ghost use Rattle.due_law.specs.Facts.{DuesAreOffered, DownsBringDues, NoneDueAtSettles, NoneDueUnopened, NoneDueOutside};
ghost use Rattle.due_law.specs.Agreed.{Untold, DueIsFree};
ghost use Rattle.due_law.specs.Runs.{dues_of, DuesAreTheAgreements, SettlesFind, DownsFind, EachFinds};

/// What is due is due to a member that has offered its mask in the key's round; the key owns the mask, in which a
/// context that is due is free.
pub fn dues_are_offered()
    ensures { (ranks top : ℕ) (events : List Event) → DuesAreOffered (run top events (agreement_opening ranks top)) (dues_after ranks top events) }
{}

/// A final verdict on its way is what is due to its receiver; one that is ready or retry goes where nothing is due.
pub fn downs_bring_dues()
    ensures { (ranks top : ℕ) (events : List Event) → DownsBringDues (run top events (agreement_opening ranks top)) (dues_after ranks top events) }
{}

/// Where a key may be settled nothing is due for it.
pub fn none_due_at_settles()
    ensures { (ranks top : ℕ) (events : List Event) → NoneDueAtSettles (run top events (agreement_opening ranks top)) (dues_after ranks top events) }
{}

/// Nothing is due under a key that is not open at the rank.
pub fn none_due_unopened()
    ensures { (ranks top : ℕ) (events : List Event) → NoneDueUnopened (run top events (agreement_opening ranks top)) (dues_after ranks top events) }
{}

/// Nothing is due to a rank that is no member.
pub fn none_due_outside()
    ensures { (ranks top : ℕ) (events : List Event) → NoneDueOutside (run top events (agreement_opening ranks top)) (dues_after ranks top events) }
{}

/// What is due at the end of a protocol run is what is due after its events in the agreement.
pub fn dues_are_the_agreements()
    ensures { (s : Setting) (journal : List Entry) → SetsAreOfRanks s → CallersNamesAreKnown s journal → IsProtocolRun s journal → DuesAreTheAgreements s journal }
{}

/// Each choice of a protocol run finds what it asks: nothing is due that is not open, each context that is due is
/// free, and an offer, a settle and a verdict that comes find the stage, the owner, the masks and the due of theirs.
pub fn each_choice_finds()
    ensures { (s : Setting) (journal : List Entry) → SetsAreOfRanks s → CallersNamesAreKnown s journal → IsProtocolRun s journal → EachFinds s (opening s) none_due journal }
{}

/// At the end of a protocol run nothing is due under a key that is not open at the rank.
pub fn nothing_is_due_untold()
    ensures { (s : Setting) (journal : List Entry) → SetsAreOfRanks s → CallersNamesAreKnown s journal → IsProtocolRun s journal → Untold (end_of s journal).ranks (dues_of s journal) }
{}

/// At the end of a protocol run each context that is due is free in the mask.
pub fn dues_are_free()
    ensures { (s : Setting) (journal : List Entry) → SetsAreOfRanks s → CallersNamesAreKnown s journal → IsProtocolRun s journal → DueIsFree (end_of s journal).ranks (dues_of s journal) }
{}

/// At the end of a protocol run the first member of a key that may settle it finds what its verdict asks.
pub fn settles_find()
    ensures { (s : Setting) (journal : List Entry) → SetsAreOfRanks s → CallersNamesAreKnown s journal → IsProtocolRun s journal → SettlesFind s (end_of s journal) (dues_of s journal) }
{}

/// At the end of a protocol run the receiver of each verdict at the head of a link takes it, and finds what it asks.
pub fn downs_find()
    ensures { (s : Setting) (journal : List Entry) → SetsAreOfRanks s → CallersNamesAreKnown s journal → IsProtocolRun s journal → DownsFind (end_of s journal) (dues_of s journal) }
{}
