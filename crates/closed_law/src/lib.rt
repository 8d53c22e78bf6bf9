//! Where a protocol run of many ranks ends quiet, and what a closed registry allows. Each law is a function without a
//! body. What is asked of the setting, `SetsAreOfRanks`, is that the members of each process set are distinct ranks of
//! the job.
#![tactic(auto)]

ghost use Rattle.std.specs.Prelude.{◌≡◌, ◌<◌, ℕ, Bool, true, false, List, length, None, Option};
ghost use Rattle.mpi_base.specs.MemberLists.{has_rank};
ghost use Rattle.mpi_base.specs.declared.entries.Entry.{Entry};
ghost use Rattle.mpi_base.specs.declared.keys.Key.{Key};
ghost use Rattle.mpi_base.specs.declared.ops.Op.{Op};
ghost use Rattle.mpi_base.specs.declared.replies.Reply.{Reply};
ghost use Rattle.mpi_law.specs.declared.setting.Setting.{Setting};
ghost use Rattle.mpi_law.specs.declared.setting.TheConstants.{THREADS};
ghost use Rattle.mpi_law.specs.ScriptLists.{AllScripts, next_op};
ghost use Rattle.mpi_law.specs.Registry.State.{Registry, creation_at, thread_of};
ghost use Rattle.mpi_law.specs.Registry.Creations.{all_called};
ghost use Rattle.mpi_law.specs.Registry.Events.{Calls, Picks, Matches, Backs, Replies};
ghost use Rattle.mpi_law.specs.Registry.Runs.{Allowed};
ghost use Rattle.mpi_law.specs.Closed.{is_picked_or_short, is_matched_out, is_settled, is_closed};
ghost use Rattle.mpi_protocol.specs.Run.{IsProtocolRun, end_of};
ghost use Rattle.mpi_protocol.specs.Order.{IsQuiet};
ghost use Rattle.projection_law.specs.Premises.{SetsAreOfRanks};
ghost use Rattle.registry_law.specs.Facts.{registry_of};
ghost use Rattle.closed_law.specs.GoingOn.{GoesOn, IsUnderWay};

/// What closed means: no pick, no match, no give-back and no reply is allowed, and no call but one beyond the scripts.
pub fn closed_is_the_end()
    ensures picks { (s : Setting) (scripts : AllScripts) (g : Registry) (r : ℕ) (key : Key) (pick : Option ℕ) → is_closed s scripts g ≡ true → Allowed s g (Picks r key pick) → ⊥ }
    ensures matches { (s : Setting) (scripts : AllScripts) (g : Registry) (r number from sent : ℕ) → is_closed s scripts g ≡ true → Allowed s g (Matches r number from sent) → ⊥ }
    ensures backs { (s : Setting) (scripts : AllScripts) (g : Registry) (r c dropped : ℕ) → is_closed s scripts g ≡ true → Allowed s g (Backs r c dropped) → ⊥ }
    ensures replies { (s : Setting) (scripts : AllScripts) (g : Registry) (r t : ℕ) (said : Reply) → is_closed s scripts g ≡ true → r < s.ranks → t < THREADS → Allowed s g (Replies r t said) → ⊥ }
    ensures calls { (s : Setting) (scripts : AllScripts) (g : Registry) (r t : ℕ) (op : Op) (now : Bool) → is_closed s scripts g ≡ true → Allowed s g (Calls r t op now)
        → next_op scripts r t (thread_of g r t).calls ≡ None }
{}

/// Where a protocol run ends quiet, no receive may take a message.
pub fn quiet_ends_take_no_message()
    ensures { (s : Setting) (scripts : AllScripts) (journal : List Entry) → SetsAreOfRanks s → IsProtocolRun s journal → IsQuiet (end_of s journal) scripts → is_matched_out (registry_of s journal) ≡ true }
{}

/// Where a protocol run ends quiet, no communicator may be given back: each member has given it back, or some member
/// has not freed it, or a creation under it is open, or a receive of the member on it is without a message.
pub fn quiet_ends_give_nothing_back()
    ensures { (s : Setting) (scripts : AllScripts) (journal : List Entry) (p : ℕ) → SetsAreOfRanks s → IsProtocolRun s journal → IsQuiet (end_of s journal) scripts → p < length (registry_of s journal).comms → is_settled (registry_of s journal) p ≡ true }
{}

/// Where a protocol run ends quiet, no creation can be decided: each is, or some member has not called it.
pub fn quiet_ends_decide_no_creation()
    ensures { (s : Setting) (scripts : AllScripts) (journal : List Entry) (n : ℕ) → SetsAreOfRanks s → IsProtocolRun s journal → IsQuiet (end_of s journal) scripts → n < length (registry_of s journal).creations → is_picked_or_short (creation_at (registry_of s journal) n) ≡ true }
{}

/// Where a protocol run ends quiet, the registry is closed.
pub fn quiet_ends_are_closed()
    ensures { (s : Setting) (scripts : AllScripts) (journal : List Entry) → SetsAreOfRanks s → IsProtocolRun s journal → IsQuiet (end_of s journal) scripts → is_closed s scripts (registry_of s journal) ≡ true }
{}

/// What is not closed goes on: of the registry that a protocol run leaves, where it is not closed, a pick, a match, a
/// give-back or a reply is allowed, or that some thread calls the next operation of its script.
pub fn what_is_not_closed_goes_on()
    ensures { (s : Setting) (scripts : AllScripts) (journal : List Entry) → SetsAreOfRanks s → IsProtocolRun s journal → is_closed s scripts (registry_of s journal) ≡ false → GoesOn s scripts (registry_of s journal) }
{}

/// Where all members of a creation have called it and some member has no answer, a rank may do something that is no call.
pub fn called_creations_go_on()
    ensures { (s : Setting) (journal : List Entry) (n r : ℕ) → SetsAreOfRanks s → IsProtocolRun s journal → n < length (registry_of s journal).creations → all_called (creation_at (registry_of s journal) n) ≡ true
        → has_rank (creation_at (registry_of s journal) n).group r ≡ true → has_rank (creation_at (registry_of s journal) n).answered r ≡ false → IsUnderWay (end_of s journal) }
{}
