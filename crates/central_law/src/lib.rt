//! Which entries of a journal are steps of the central registry: for each entry a test of the registry before it, in
//! parts, and the registry after it. Each law is a function without a body; what it asks stands before the arrow. All
//! of it is this project's own, but for the definitions of `mpi_law` that it stands on.
#![tactic(auto)]

ghost use Rattle.std.specs.Prelude.{◌≡◌, ◌≢◌, ◌↔◌, ◌<◌, ◌&&◌, not, ℕ, true, List, [], ◌∷◌, ◌++◌, Option};
ghost use Rattle.std.specs.Option.{option_or};
ghost use Rattle.mpi_base.specs.declared.entries.Act.TheVariants.{Call, Answer, Deliver, Offer, Settle, Leave, Back};
ghost use Rattle.mpi_base.specs.declared.entries.Entry.{Entry};
ghost use Rattle.mpi_base.specs.declared.entries.Said.{Said};
ghost use Rattle.mpi_base.specs.declared.keys.Key.{Key};
ghost use Rattle.mpi_base.specs.declared.ops.Op.{Op};
ghost use Rattle.mpi_base.specs.declared.messages.Matched.{Matched};
ghost use Rattle.mpi_base.specs.declared.replies.Reply.{Reply};
ghost use Rattle.mpi_law.specs.declared.setting.Setting.{Setting};
ghost use Rattle.mpi_law.specs.declared.setting.TheConstants.{THREADS};
ghost use Rattle.mpi_law.specs.declared.effects.Effect.{Effect};
ghost use Rattle.mpi_law.specs.Local.Effects.{said_at_once, is_said};
ghost use Rattle.mpi_law.specs.Registry.State.{Registry, Message, Receive, registry_opening, part_of};
ghost use Rattle.mpi_law.specs.Registry.Calls.{effect_at};
ghost use Rattle.mpi_law.specs.Registry.Messages.{is_message, is_overtaken, is_preceded, is_receive, may_match, message_of, receive_of};
ghost use Rattle.mpi_law.specs.Registry.Events.{Calls};
ghost use Rattle.mpi_law.specs.Registry.Runs.{IsRegistryRun, registry_after};
ghost use Rattle.mpi_protocol.specs.Run.{entry_events, events_of, message_events};
ghost use Rattle.central_law.specs.Rest.{AtRest};
ghost use Rattle.central_law.specs.Within.{within, sent_within, posted_within, last_passes, last_if, posted_state};
ghost use Rattle.central_law.specs.After.{part_after, matched_state, picked_state, returned_state, replied_state, called_state};
ghost use Rattle.central_law.specs.Fits.{MatchFits, PickFits, BackFits, ReplyFits, CallFits, EntryFits, after_entry};
ghost use Rattle.central_law.specs.Tests.{match_test, pick_test, back_test, call_test};
ghost use Rattle.central_law.specs.Steps.{IsStepWhere};

/// The registry is at rest at the opening, after each entry that is a step, and so after each journal.
pub fn registries_rest_between_entries()
    ensures opening { (s : Setting) → AtRest s (registry_opening s) }
    ensures entry { (s : Setting) (g : Registry) (e : Entry) → AtRest s g → IsRegistryRun s g (entry_events e) → AtRest s (registry_after s g (entry_events e)) }
    ensures journal { (s : Setting) (journal : List Entry) → IsRegistryRun s (registry_opening s) (events_of journal) → AtRest s (registry_after s (registry_opening s) (events_of journal)) }
{}

/// A journal with one entry more is a registry run exactly where the journal is one and the entry is a step after it.
pub fn journals_go_entry_by_entry()
    ensures runs { (s : Setting) (g : Registry) (journal : List Entry) (e : Entry)
        → IsRegistryRun s g (events_of (journal ++ e ∷ [])) ↔ (IsRegistryRun s g (events_of journal) × IsRegistryRun s (registry_after s g (events_of journal)) (entry_events e)) }
    ensures after { (s : Setting) (g : Registry) (journal : List Entry) (e : Entry)
        → registry_after s g (events_of (journal ++ e ∷ [])) ≡ registry_after s (registry_after s g (events_of journal)) (entry_events e) }
{}

/// When an entry with another act than a call is a step: by what it has of a match, a pick, a give-back or a reply.
/// An offer and a leave always are, and change nothing.
pub fn quiet_entries_are_steps()
    ensures deliver { (s : Setting) (g : Registry) (e : Entry) (from : ℕ) → e.choice.act ≡ Deliver from
        → IsStepWhere s g e (MatchFits g e.choice.rank e.matched) (matched_state g e.choice.rank e.matched) }
    ensures offer { (s : Setting) (g : Registry) (e : Entry) (key : Key) → e.choice.act ≡ Offer key → IsStepWhere s g e (Unit {0}) g }
    ensures settle { (s : Setting) (g : Registry) (e : Entry) (key : Key) → e.choice.act ≡ Settle key
        → IsStepWhere s g e (PickFits s g e.choice.rank key e.said) (picked_state g e.choice.rank key e.said) }
    ensures leave { (s : Setting) (g : Registry) (e : Entry) (c : ℕ) → e.choice.act ≡ Leave c → IsStepWhere s g e (Unit {0}) g }
    ensures back { (s : Setting) (g : Registry) (e : Entry) (c : ℕ) → e.choice.act ≡ Back c
        → IsStepWhere s g e (BackFits g e.choice.rank c e.dropped) (returned_state g e.choice.rank c e.dropped) }
    ensures answer { (s : Setting) (g : Registry) (e : Entry) (t : ℕ) → e.choice.act ≡ Answer t
        → IsStepWhere s g e (ReplyFits g e.choice.rank t e.reply) (replied_state g e.choice.rank t e.reply) }
{}

/// What is sent or posted within a call is what its operation does, where the reply is the one that comes at once.
pub fn calls_send_and_post_what_they_do()
    ensures { (s : Setting) (g : Registry) (r t : ℕ) (op : Op) → message_events r t op (said_at_once (effect_at s g r op)) ≡ within r t (effect_at s g r op) }
{}

/// When an entry with a call is a step of a registry at rest, and what it leaves.
pub fn calls_are_steps()
    ensures { (s : Setting) (g : Registry) (e : Entry) (t : ℕ) (op : Op) → AtRest s g → e.choice.act ≡ Call t op
        → IsStepWhere s g e (CallFits s g e.choice.rank t op e.matched e.reply) (called_state g e.choice.rank t (effect_at s g e.choice.rank op) e.matched) }
{}

/// The rank of a call has the part that the call leaves, and all other ranks have theirs as before.
pub fn calls_change_one_rank()
    ensures rank { (s : Setting) (g : Registry) (r t : ℕ) (e : Effect ℕ) (matched : Option Matched) → AtRest s g → r < s.ranks → part_of (called_state g r t e matched) r ≡ part_after g r t e }
    ensures others { (g : Registry) (r t q : ℕ) (e : Effect ℕ) (matched : Option Matched) → q ≢ r → part_of (called_state g r t e matched) q ≡ part_of g q }
{}

/// A match within a call sees the same receives and messages, and may be made alike, in the registry that the call's
/// events have led to and in the one before the call with the call's message or its receive.
pub fn matches_see_what_is_posted()
    ensures receives { (s : Setting) (g : Registry) (r t : ℕ) (op : Op) → AtRest s g → r < s.ranks → t < THREADS → (q number : ℕ)
        → receive_of (registry_after s g (Calls r t op (is_said (effect_at s g r op)) ∷ within r t (effect_at s g r op))) q number ≡ receive_of (posted_state g r (effect_at s g r op)) q number }
    ensures messages { (s : Setting) (g : Registry) (r t : ℕ) (op : Op) → AtRest s g → r < s.ranks → t < THREADS → (q number : ℕ)
        → message_of (registry_after s g (Calls r t op (is_said (effect_at s g r op)) ∷ within r t (effect_at s g r op))) q number ≡ message_of (posted_state g r (effect_at s g r op)) q number }
    ensures matches { (s : Setting) (g : Registry) (r t : ℕ) (op : Op) → AtRest s g → r < s.ranks → t < THREADS → (x : Receive) (m : Message)
        → may_match (registry_after s g (Calls r t op (is_said (effect_at s g r op)) ∷ within r t (effect_at s g r op))) x m ≡ may_match (posted_state g r (effect_at s g r op)) x m }
{}

/// What a match within a call finds and sees, told by the registry before the call and by the one message or the one
/// receive that the call brings.
pub fn posted_states_have_one_more()
    ensures receives { (g : Registry) (r : ℕ) (e : Effect ℕ) (q number : ℕ) → receive_of (posted_state g r e) q number ≡ option_or (receive_of g q number) (last_if (is_receive q number) (posted_within g r e)) }
    ensures messages { (g : Registry) (r : ℕ) (e : Effect ℕ) (from number : ℕ) → message_of (posted_state g r e) from number ≡ option_or (message_of g from number) (last_if (is_message from number) (sent_within g r e)) }
    ensures matches { (g : Registry) (r : ℕ) (e : Effect ℕ) (x : Receive) (m : Message)
        → may_match (posted_state g r e) x m ≡ (may_match g x m && (not (last_passes (is_overtaken g x m) (sent_within g r e)) && not (last_passes (is_preceded g x m) (posted_within g r e)))) }
{}

/// The parts of what an entry needs hold exactly where their tests do; a call needs the right reply besides.
pub fn parts_are_tested()
    ensures matched { (s : Setting) (g : Registry) (r : ℕ) (matched : Option Matched) → MatchFits g r matched ↔ (match_test g r matched ≡ true) }
    ensures pick { (s : Setting) (g : Registry) (r : ℕ) (key : Key) (said : Option Said) → AtRest s g → PickFits s g r key said ↔ (pick_test s g r key said ≡ true) }
    ensures back { (s : Setting) (g : Registry) (r c : ℕ) (dropped : Option ℕ) → AtRest s g → BackFits g r c dropped ↔ (back_test g r c dropped ≡ true) }
    ensures call { (s : Setting) (g : Registry) (r t : ℕ) (op : Op) (matched : Option Matched) (said : Option Reply)
        → CallFits s g r t op matched said ↔ ((call_test s g r t op matched ≡ true) × (said ≡ said_at_once (effect_at s g r op))) }
{}

/// When any entry is a step of a registry at rest, and what it leaves.
pub fn entries_are_steps()
    ensures { (s : Setting) (g : Registry) (e : Entry) → AtRest s g → IsStepWhere s g e (EntryFits s g e) (after_entry s g e) }
{}
