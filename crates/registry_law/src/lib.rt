//! The journal of every protocol run is a run of one central registry: the laws of names, creations and
//! communicators, those of messages, and those of the agreement put together into one induction. Each law is a
//! function without a body. What is asked, `SetsAreOfRanks`, is of the setting: the members of each process set are
//! distinct ranks of the job.
#![tactic(auto)]

ghost use Rattle.std.specs.Prelude.{◌≡◌, ℕ, true, List, None, is_some};
ghost use Rattle.mpi_base.specs.declared.keys.Key.{Key};
ghost use Rattle.mpi_base.specs.declared.entries.Entry.{Entry};
ghost use Rattle.mpi_law.specs.declared.setting.Setting.{Setting};
ghost use Rattle.mpi_law.specs.Registry.State.{registry_opening, creation_at};
ghost use Rattle.mpi_law.specs.Registry.Creations.{outcome_for};
ghost use Rattle.mpi_law.specs.Registry.Apart.{LiveApart};
ghost use Rattle.mpi_law.specs.Registry.Runs.{IsRegistryRun};
ghost use Rattle.agree_law.specs.Part.{stage_of};
ghost use Rattle.mpi_protocol.specs.World.{rank_at};
ghost use Rattle.mpi_protocol.specs.Run.{IsProtocolRun, end_of, events_of};
ghost use Rattle.projection_law.specs.Premises.{SetsAreOfRanks};
ghost use Rattle.projection_law.specs.KnownNames.{CallersNamesAreKnown};
ghost use Rattle.projection_law.specs.Facts.{PicksAreFree, ExhaustedIsTaken, RetriesAreCaused};
ghost use Rattle.registry_law.specs.Facts.{registry_of};
ghost use Rattle.registry_law.specs.TakenPackets.{PacketsAreTaken};
ghost use Rattle.registry_law.specs.Keys.{Stands};

/// The events of every protocol run are a run of the central registry.
pub fn runs_are_registry_runs()
    ensures { (s : Setting) (journal : List Entry) → SetsAreOfRanks s → IsProtocolRun s journal → IsRegistryRun s (registry_opening s) (events_of journal) }
{}

/// Each communicator that a caller has a name for is known to its rank, and not left there.
pub fn callers_names_are_known()
    ensures { (s : Setting) (journal : List Entry) → SetsAreOfRanks s → IsProtocolRun s journal → CallersNamesAreKnown s journal }
{}

/// Each packet that comes is taken: of the agreement, a message, or a marker.
pub fn packets_are_taken()
    ensures { (s : Setting) (journal : List Entry) → SetsAreOfRanks s → IsProtocolRun s journal → PacketsAreTaken (end_of s journal) }
{}

/// Two communicators that are live at one rank have different contexts.
pub fn live_contexts_differ()
    ensures { (s : Setting) (journal : List Entry) → SetsAreOfRanks s → IsProtocolRun s journal → LiveApart (registry_of s journal) }
{}

/// A key that is open at a rank stands there for one creation of the registry, which the rank has called and for which
/// a thread of the rank waits: it has the creation's name and members. What one key stands for at two ranks is one
/// creation where nothing is picked of it for either. (Else one of them may have been answered, and have called
/// again by the same name, while the other is not answered yet.)
pub fn keys_stand_for_creations()
    ensures stands { (s : Setting) (journal : List Entry) (r : ℕ) (key : Key) → SetsAreOfRanks s → IsProtocolRun s journal → is_some (stage_of (rank_at (end_of s journal) r).agree.opened key) ≡ true
        → Stands (end_of s journal) (registry_of s journal) r key }
    ensures one { (s : Setting) (journal : List Entry) (r q : ℕ) (key : Key) → SetsAreOfRanks s → IsProtocolRun s journal
        → (a : Stands (end_of s journal) (registry_of s journal) r key) → (b : Stands (end_of s journal) (registry_of s journal) q key)
        → outcome_for (creation_at (registry_of s journal) a.place) r ≡ None → outcome_for (creation_at (registry_of s journal) b.place) q ≡ None → a.place ≡ b.place }
{}

/// A context that is picked is free in each member's mask, which the key owns.
pub fn picks_are_free_at_every_member()
    ensures { (s : Setting) (journal : List Entry) → SetsAreOfRanks s → IsProtocolRun s journal → PicksAreFree (end_of s journal) }
{}

/// Exhausted is said only where each context is taken at some member, whose mask the key owns.
pub fn exhausted_only_where_all_are_taken()
    ensures { (s : Setting) (journal : List Entry) → SetsAreOfRanks s → IsProtocolRun s journal → ExhaustedIsTaken s (end_of s journal) }
{}

/// A retry is said only where, since the key's last settle, a member made an offer that does not own its mask:
/// another key owned it, or a lesser key waited there.
pub fn retries_have_their_cause()
    ensures { (s : Setting) (journal : List Entry) → SetsAreOfRanks s → IsProtocolRun s journal → RetriesAreCaused s journal }
{}
