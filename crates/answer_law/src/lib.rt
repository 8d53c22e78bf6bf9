//! What the central registry answers, in every run from its opening on. Each law is a function without a body; what
//! it asks stands before the arrow. A creation is named by its place in the registry's list, and the group of an
//! answer is the one that the standard gives the rank by the creation's name (`group_of_answer`).
#![tactic(auto)]

ghost use Rattle.std.specs.Prelude.{◌≡◌, ◌⊎◌, ◌≤◌, ◌==◌, ◌&&◌, ℕ, ℤ, true, false, List, length, position, nat_lt, Some};
ghost use Rattle.mpi_base.specs.MemberLists.{has_rank};
ghost use Rattle.mpi_base.specs.declared.errors.ErrClass.TheVariants.{Exhausted};
ghost use Rattle.mpi_base.specs.declared.replies.Reply.{Reply};
ghost use Rattle.mpi_base.specs.declared.replies.Reply.TheVariants.{Comm, Null, Refused};
ghost use Rattle.mpi_base.specs.declared.shares.Shared1.{Shared1};
ghost use Rattle.mpi_law.specs.declared.setting.Setting.{Setting};
ghost use Rattle.mpi_law.specs.Splits.{has_colour, split_class};
ghost use Rattle.mpi_law.specs.Registry.State.{Message, Receive, Creating, place_in, thread_of};
ghost use Rattle.mpi_law.specs.Registry.Messages.{message_of, receive_of};
ghost use Rattle.mpi_law.specs.Registry.Creations.{has_called, all_called, is_uncoloured};
ghost use Rattle.mpi_law.specs.Registry.Apart.{LiveApart};
ghost use Rattle.mpi_law.specs.Registry.Events.{Event};
ghost use Rattle.answer_law.specs.Answers.{IsRun, registry_at, Answer, CalledLast, HasCalled, creation_in, group_of_answer, WasFree, NoneWasFree};
ghost use Rattle.answer_law.specs.Places.{comes_before};
ghost use Rattle.answer_law.specs.Receipts.{Receipt, TookFirst, SentBy, PostedBy};

/// The creation that a thread is answered of is the one that it has called last.
pub fn answers_are_of_the_last_call()
    ensures { (s : Setting) (events : List Event) (n r : ℕ) (said : Reply) → IsRun s events → (answer : Answer s events n r said) → CalledLast s answer.before n r answer.thread }
{}

/// A thread that waits for a creation is of a rank that stands as a caller at it.
pub fn waiting_threads_have_called()
    ensures { (s : Setting) (events : List Event) (n r t : ℕ) → IsRun s events → (thread_of (registry_at s events) r t).wait ≡ Creating n → has_called (creation_in s events n) r ≡ true }
{}

/// Who stands as a caller at a creation has called it by its name, with the share that stands there; and nothing is
/// answered of a creation before all have called it.
pub fn creations_are_called_by_all()
    ensures callers { (s : Setting) (events : List Event) (n r : ℕ) → IsRun s events → has_called (creation_in s events n) r ≡ true → HasCalled s events n r }
    ensures all { (s : Setting) (events : List Event) (n r : ℕ) (said : Reply) → IsRun s events → (answer : Answer s events n r said) → all_called (creation_in s answer.before n) ≡ true }
{}

/// Where one member is told a communicator, each member of its group that is answered is told the same context and
/// size, and its own place in the group.
pub fn members_are_told_one_communicator()
    ensures { (s : Setting) (events : List Event) (n r q ctx rank size : ℕ) (told : Reply) → IsRun s events → Answer s events n r (Comm ctx rank size) → Answer s events n q told
        → has_rank (group_of_answer s events n r) q ≡ true → told ≡ Comm ctx (place_in (group_of_answer s events n r) q) size }
{}

/// The rank that is told is the caller's place in its group, and the size is the group's length.
pub fn ranks_are_places_in_the_group()
    ensures rank { (s : Setting) (events : List Event) (n r ctx rank size : ℕ) → IsRun s events → Answer s events n r (Comm ctx rank size)
        → position (λ m. m == r) (group_of_answer s events n r) ≡ Some rank }
    ensures size { (s : Setting) (events : List Event) (n r ctx rank size : ℕ) → IsRun s events → Answer s events n r (Comm ctx rank size)
        → size ≡ length (group_of_answer s events n r) }
{}

/// A context that is told was picked before, for the members of the group, and was in use at none of them then.
pub fn contexts_were_free_at_every_member()
    ensures { (s : Setting) (events : List Event) (n r ctx rank size : ℕ) → IsRun s events → (answer : Answer s events n r (Comm ctx rank size))
        → WasFree s answer.before n (group_of_answer s events n r) ctx }
{}

/// Where one member is told that no context was free, each member of its group that is answered is told so.
pub fn exhausted_is_told_to_all()
    ensures { (s : Setting) (events : List Event) (n r q : ℕ) (told : Reply) → IsRun s events → Answer s events n r (Refused Exhausted) → Answer s events n q told
        → has_rank (group_of_answer s events n r) q ≡ true → told ≡ Refused Exhausted }
{}

/// And that was found before, where each context was in use at some member of the group.
pub fn exhausted_where_none_was_free()
    ensures { (s : Setting) (events : List Event) (n r : ℕ) → IsRun s events → (answer : Answer s events n r (Refused Exhausted))
        → NoneWasFree s answer.before n (group_of_answer s events n r) }
{}

/// Who gave an undefined colour in a split is told null, and anybody else a communicator or that no context was free.
pub fn only_the_uncoloured_are_told_null()
    ensures null { (s : Setting) (events : List Event) (n r : ℕ) (said : Reply) → IsRun s events → Answer s events n r said → is_uncoloured (creation_in s events n) r ≡ true → said ≡ Null }
    ensures others { (s : Setting) (events : List Event) (n r : ℕ) (said : Reply) → IsRun s events → Answer s events n r said → is_uncoloured (creation_in s events n) r ≡ false
        → (said ≡ Refused Exhausted) ⊎ ((ctx : ℕ) × (rank : ℕ) × (size : ℕ) × (said ≡ Comm ctx rank size)) }
{}

/// The group of a colour has the members with this colour, in the order of their keys, and where keys are equal in the
/// order of their ranks in the communicator that is split.
pub fn split_groups_are_in_order()
    ensures members { (share : ℕ → Shared1) (members : List ℕ) (colour : ℤ) (m : ℕ) → has_rank (split_class share members colour) m ≡ (has_rank members m && has_colour colour (share m).colour) }
    ensures order { (share : ℕ → Shared1) (members : List ℕ) (colour : ℤ) (a b : ℕ) → has_rank (split_class share members colour) a ≡ true → has_rank (split_class share members colour) b ≡ true
        → nat_lt (place_in (split_class share members colour) a) (place_in (split_class share members colour) b) ≡ comes_before share members a b }
{}

/// A message of the registry is one that a call of its sender sent, and a receive one that a call of its rank posted.
pub fn messages_and_receives_are_of_calls()
    ensures messages { (s : Setting) (events : List Event) (from number : ℕ) (m : Message) → IsRun s events → message_of (registry_at s events) from number ≡ Some m → SentBy s events m }
    ensures receives { (s : Setting) (events : List Event) (r number : ℕ) (x : Receive) → IsRun s events → receive_of (registry_at s events) r number ≡ Some x → PostedBy s events x }
{}

/// A receive takes a message of a member of its own communicator, the first of this sender's open messages that fit
/// it, and its answer tells that message. Receives from the null process have no number.
pub fn receives_take_the_first_that_fits()
    ensures { (s : Setting) (events : List Event) (r number : ℕ) (said : Reply) → IsRun s events → (receipt : Receipt s events r number said) → 1 ≤ number
        → TookFirst s receipt.before r number said }
{}

/// Two communicators that are live at one rank have different contexts.
pub fn live_contexts_differ()
    ensures { (s : Setting) (events : List Event) → IsRun s events → LiveApart (registry_at s events) }
{}
