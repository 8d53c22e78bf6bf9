//! The agreement by which the members of a creation take a context: the part of one rank, its moves,
//! the packets between ranks, and what holds of every run. Each fact is a function without a body.
//! What holds of the exchange of shares before a split stands in `share_law`.
#![tactic(auto)]

ghost use Rattle.std.specs.Prelude.{ℕ, List};
ghost use Rattle.agree_law.specs.Part.{Agree};
ghost use Rattle.agree_law.specs.World.{Event, run, opening};
ghost use Rattle.agree_law.specs.Facts.{AllHaveCalled, DownsFit, ExhaustedIsTaken, GatheredCarryMasks, MasksStay, NoGiveBackWhileOwned, NoOwnerBeforeALesserKey, NoSecondOwner, OffersAreByTheRule, OneToken, OpensFit, OwnersHaveOffered, PicksAreContexts, PicksAreFree, RetriesAreCaused, RetriesHaveZero, UpsAndDownsAreTaken, UpsCarryMasks, UpsFit};

mod rows;

pub use rows::{CreationRow, Outcome, RoundRow, ShareRow, Stage, Verdict};

/// While a key owns a rank's mask, no offer of the rank may own it.
pub fn no_second_owner()
    ensures { (a : Agree) → NoSecondOwner a }
{}

/// While a lesser key waits at a rank, an offer of the rank may not own its mask.
pub fn no_owner_before_a_lesser_key()
    ensures { (a : Agree) → NoOwnerBeforeALesserKey a }
{}

/// An offer owns the mask exactly where it may, and then its key is the owner; else the owner stays.
pub fn offers_are_by_the_rule()
    ensures { (r top : ℕ) (a : Agree) → OffersAreByTheRule r top a }
{}

/// While a key owns a rank's mask, no context may be given back there.
pub fn no_give_back_while_owned()
    ensures { (top : ℕ) (a : Agree) → NoGiveBackWhileOwned top a }
{}

/// The owner of a rank's mask is open there, its last offer there owned, and no verdict on it is taken.
pub fn owners_have_offered()
    ensures { (ranks top : ℕ) (events : List Event) → OwnersHaveOffered (run top events (opening ranks top)) }
{}

/// A mask with an owner changes only by a verdict on that owner.
pub fn masks_stay()
    ensures { (ranks top : ℕ) (events : List Event) → MasksStay top (run top events (opening ranks top)) }
{}

/// Each place above 0 of a key's tree has just one token: its `Up` is not sent, in flight or gathered, or its `Down` is in flight.
pub fn one_token()
    ensures { (ranks top : ℕ) (events : List Event) → OneToken (run top events (opening ranks top)) }
{}

/// Each `Up` and `Down` that comes is taken.
pub fn tree_packets_are_taken()
    ensures { (ranks top : ℕ) (events : List Event) → UpsAndDownsAreTaken (run top events (opening ranks top)) }
{}

/// A creation that is open at a rank is of distinct ranks and has the rank as a member; it is sharing exactly where it is an exchange of shares.
pub fn opens_fit()
    ensures { (ranks top : ℕ) (events : List Event) → OpensFit (run top events (opening ranks top)) }
{}

/// Once the first member is in round 1 or later, each member has called, and none is decided.
pub fn all_have_called()
    ensures { (ranks top : ℕ) (events : List Event) → AllHaveCalled (run top events (opening ranks top)) }
{}

/// An `Up` after round 0 that says own carries the and of the masks of the sender's subtree as they stand, each owned by the key.
pub fn ups_carry_masks()
    ensures { (ranks top : ℕ) (events : List Event) → UpsCarryMasks top (run top events (opening ranks top)) }
{}

/// What is gathered from a child after round 0 and says own carries the and of the masks of the child's subtree.
pub fn gathered_carry_masks()
    ensures { (ranks top : ℕ) (events : List Event) → GatheredCarryMasks top (run top events (opening ranks top)) }
{}

/// A context that is picked is free in each member's mask, which the key owns.
pub fn picks_are_free()
    ensures { (ranks top : ℕ) (events : List Event) → PicksAreFree top (run top events (opening ranks top)) }
{}

/// A context that is picked is from 1 to the greatest.
pub fn picks_are_contexts()
    ensures { (ranks top : ℕ) (events : List Event) → PicksAreContexts top (run top events (opening ranks top)) }
{}

/// Where exhausted is said, each context is taken at some member, whose mask the key owns.
pub fn exhausted_is_taken()
    ensures { (ranks top : ℕ) (events : List Event) → ExhaustedIsTaken top (run top events (opening ranks top)) }
{}

/// Where retry is said, some member's offer of the round does not own.
pub fn retries_have_zero()
    ensures { (ranks top : ℕ) (events : List Event) → RetriesHaveZero top (run top events (opening ranks top)) }
{}

/// Where retry is said, some member made an offer that does not own since the key's last settle: another key owned its mask, or a lesser key waited there.
pub fn retries_are_caused()
    ensures { (ranks top : ℕ) (events : List Event) → RetriesAreCaused ranks top events }
{}

/// Each `Up` is between a place and its parent, and of the round of the gather that it goes to.
pub fn ups_fit()
    ensures { (ranks top : ℕ) (events : List Event) → UpsFit (run top events (opening ranks top)) }
{}

/// Each `Down` is between a parent and its place, of the place's round, and of the last verdict that the parent took.
pub fn downs_fit()
    ensures { (ranks top : ℕ) (events : List Event) → DownsFit (run top events (opening ranks top)) }
{}
