//! The exchange of shares before a split, in every run of the agreement: each member tells the first member
//! its share, and the first tells all members all shares. Each fact is a function without a body.
#![tactic(auto)]

ghost use Rattle.std.specs.Prelude.{ℕ, List};
ghost use Rattle.agree_law.specs.World.{Event, run, opening};
ghost use Rattle.share_law.specs.Facts.{ArriversAreTaken, GatheredSharesAreOwn, OneShare, SettledSharesAreTold, SharesAreOwn, SharesAreWhole};

/// Each packet of the agreement that comes is taken: offers, verdicts and shares.
pub fn arrivers_are_taken()
    ensures { (ranks top : ℕ) (events : List Event) → ArriversAreTaken (run top events (opening ranks top)) }
{}

/// Each member of an exchange has just one token: it is not sharing, its share is in flight or gathered, or all members' shares are in flight to it.
pub fn one_share()
    ensures { (ranks top : ℕ) (events : List Event) → OneShare (run top events (opening ranks top)) }
{}

/// All members' shares that come to a member have one item for each, and at its place its own.
pub fn shares_are_whole()
    ensures { (ranks top : ℕ) (events : List Event) → SharesAreWhole (run top events (opening ranks top)) }
{}

/// Where the first member may settle, it has one share for each member, which is the share that the member has told and waits with.
pub fn settled_shares_are_told()
    ensures { (ranks top : ℕ) (events : List Event) → SettledSharesAreTold (run top events (opening ranks top)) }
{}

/// Each share in flight goes to the first member, and is its sender's own.
pub fn shares_are_own()
    ensures { (ranks top : ℕ) (events : List Event) → SharesAreOwn (run top events (opening ranks top)) }
{}

/// Each share that the first member has gathered is its member's own.
pub fn gathered_shares_are_own()
    ensures { (ranks top : ℕ) (events : List Event) → GatheredSharesAreOwn (run top events (opening ranks top)) }
{}
