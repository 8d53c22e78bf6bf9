//! One creation, with those that have called it, what was picked for it, and who has been answered.
ghost use Rattle.std.specs.Prelude.{◌≡◌, ◌∷◌, ◌==◌, ◌&&◌, [], not, find, map, unwrap_or, option_map, OnErr, OnOk, IfOk};
ghost use Rattle.std.specs.List.{list_all, list_any};
ghost use Rattle.std.specs.Option.{option_copied};
ghost use Rattle.mpi_base.specs.MemberLists.{has_rank};
ghost use Rattle.mpi_law.specs.Closed.{is_served, is_picked_or_short};
ghost use Rattle.mpi_law.specs.Registry.Creations.{all_called, caller_of, class_by, class_of, has_called, is_joinable, is_picked, is_uncoloured, outcome_for, share_of, with_answer, with_caller, with_pick};
ghost use Rattle.central_creations.specs.Found.{newly_counted};
ghost use Rattle.central_creations.specs.Outcomes.{outcome_seen};

use crate::callers::Caller;
use crate::names::CreationName;
use crate::picks::{Outcome, Pick};
use mpi_base::{Members, OutOfMemory, Shared1};
use std::alloc::Global;
use std::marker::Model;

/// A creation: its name, those that call it in order, who has called it, what was picked, and the ranks
/// that have been answered.
#[derive(Drop)]
pub(crate) struct CreationRow {
    pub(crate) name: CreationName,
    pub(crate) group: Members,
    callers: Vec<Caller>,
    picks: Vec<Pick>,
    answered: Vec<u16>,
}

impl Model for CreationRow {
    ghost use Rattle.mpi_law.specs.Registry.State.{Creation};

    ghost Value = { Creation };

    ghost view = { λ c. record { name = c.name; group = c.group; callers = c.callers.items; picks = c.picks.items; answered = c.answered.items } };
}

impl CreationRow {
    /// A creation that one rank has called.
    pub(crate) fn opened(
        alloc: Global,
        name: CreationName,
        group: Members,
        caller: Caller,
    ) -> Result<CreationRow, OutOfMemory>
        ensures { IfOk result (λ c. c ≡ record { name = name; group = group; callers = caller ∷ []; picks = []; answered = [] }) }
    {
        let mut callers = Vec::new(alloc);
        callers.push(caller)?;
        Ok(CreationRow {
            name,
            group,
            callers,
            picks: Vec::new(alloc),
            answered: Vec::new(alloc),
        })
    }

    /// The first call of a rank.
    pub(crate) fn caller(&self, rank: u16) -> Option<&Caller>
        ensures { option_copied result ≡ find (λ k. k.rank == rank) self.now.callers }
    {
        self.callers.iter().find(|caller| caller.rank == rank)
    }

    /// Whether a rank has called it.
    pub(crate) fn has_called(&self, rank: u16) -> bool
        ensures { result ≡ has_called self.now rank }
    {
        self.callers.iter().any(|caller| caller.rank == rank)
    }

    /// Whether all that call it have called.
    pub(crate) fn all_called(&self) -> bool
        ensures { result ≡ all_called self.now }
    {
        for place in 0..self.group.len() {
            if let Some(member) = self.group.get(place) {
                if !self.has_called(member) {
                    return false;
                }
            }
        }
        true
    }

    /// The session with which a rank has called; 0 where it has not.
    pub(crate) fn session_of(&self, rank: u16) -> u64
        ensures { result ≡ (caller_of self.now.callers rank).session }
    {
        match self.caller(rank) {
            Some(caller) => caller.session,
            None => 0,
        }
    }

    /// The share with which a rank has called; one with no colour where it has none.
    pub(crate) fn share_of(&self, rank: u16) -> Shared1
        ensures { result ≡ share_of self.now rank }
    {
        match self.caller(rank) {
            Some(caller) => caller.share.unwrap_or(Shared1::default()),
            None => Shared1::default(),
        }
    }

    /// Whether a rank has called a split with an undefined colour.
    pub(crate) fn is_uncoloured(&self, rank: u16) -> bool
        ensures { result ≡ is_uncoloured self.now rank }
    {
        self.name.is_split() && self.share_of(rank).colour.is_none()
    }

    /// What was picked for a rank.
    pub(crate) fn outcome_for(&self, rank: u16) -> Option<Outcome>
        ensures { option_map outcome_seen result ≡ outcome_for self.now rank }
    {
        let pick = self.picks.iter().find(|pick| pick.is_for(rank))?;
        Some(pick.outcome)
    }

    /// Whether a member has its outcome, or is to get none.
    fn is_served(&self, rank: u16) -> bool
        ensures { result ≡ is_served self.now rank }
    {
        self.outcome_for(rank).is_some() || self.is_uncoloured(rank)
    }

    /// Whether each member is served, or some member has not called it.
    pub(crate) fn is_picked_or_short(&self) -> bool
        ensures { result ≡ is_picked_or_short self.now }
    {
        !self.all_called() || self.all_served()
    }

    /// Whether each member is served.
    fn all_served(&self) -> bool
        ensures { result ≡ list_all (is_served self.now) self.now.group }
    {
        for place in 0..self.group.len() {
            if let Some(member) = self.group.get(place) {
                if !self.is_served(member) {
                    return false;
                }
            }
        }
        true
    }

    /// Whether it has its outcome, or is a split that all have called.
    pub(crate) fn is_picked(&self) -> bool
        ensures { result ≡ is_picked self.now }
    {
        if self.name.is_split() {
            self.all_called()
        } else {
            !self.picks.is_empty()
        }
    }

    /// Whether a call with this name joins it.
    pub(crate) fn is_joinable(&self, name: &CreationName) -> bool
        ensures { result ≡ is_joinable name.now self.now }
    {
        self.name.is_same(name) && !self.is_picked()
    }

    /// The communicator on which a call of a rank would count here; None where the rank has called it, or
    /// where it is no dup and no split.
    pub(crate) fn newly_counted(&self, rank: u16) -> Option<u16>
        ensures { result ≡ newly_counted self.now rank }
    {
        if self.has_called(rank) {
            return None;
        }
        self.name.counted_parent()
    }

    /// One caller more.
    pub(crate) fn call(&mut self, caller: Caller) -> Result<(), OutOfMemory>
        ensures ok { OnOk result (self.new ≡ with_caller self.old caller) }
        ensures err { OnErr result (self.new ≡ self.old) }
    {
        self.callers.push(caller)?;
        Ok(())
    }

    /// One pick more.
    pub(crate) fn pick(&mut self, members: Members, outcome: Outcome) -> Result<(), OutOfMemory>
        ensures ok { OnOk result (self.new ≡ with_pick self.old (record { members = members; outcome = outcome_seen outcome })) }
        ensures err { OnErr result (self.new ≡ self.old) }
    {
        self.picks.push(Pick { members, outcome })?;
        Ok(())
    }

    /// A rank is answered.
    pub(crate) fn answer(&mut self, rank: u16) -> Result<(), OutOfMemory>
        ensures ok { OnOk result (self.new ≡ with_answer self.old rank) }
        ensures err { OnErr result (self.new ≡ self.old) }
    {
        self.answered.push(rank)?;
        Ok(())
    }

    /// The members of the communicator that a rank gets.
    pub(crate) fn class_of(&self, rank: u16) -> Members
        ensures { result ≡ class_of self.now rank }
    {
        if !self.name.is_split() {
            return self.group.copy();
        }
        match self.share_of(rank).colour {
            Some(colour) => self.class(colour),
            None => Members::none(),
        }
    }
}
