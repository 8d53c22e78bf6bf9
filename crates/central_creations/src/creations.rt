//! The creations of the registry.
ghost use Rattle.std.specs.Prelude.{◌≡◌, ◌<◌, ◌==◌, ◌∷◌, ◌++◌, [], filter, find, get_or, length, map, option_map, set, IfOk, OnErr, OnOk};
ghost use Rattle.std.specs.List.{list_all};
ghost use Rattle.std.specs.Option.{option_copied};
ghost use Rattle.mpi_law.specs.Closed.{is_picked_or_short};
ghost use Rattle.mpi_law.specs.Registry.State.{blank_creation};
ghost use Rattle.mpi_law.specs.Registry.Creations.{all_called, called_on, caller_of, class_of, is_joinable, is_pickable, is_uncoloured, is_under, join as joined, name_of as name_so, outcome_for, place_where, same_name, with_answer, with_caller, with_pick};
ghost use Rattle.central_creations.specs.Outcomes.{outcome_seen};
ghost use Rattle.central_creations.specs.Waiting.{is_waiting};

use crate::callers::Caller;
use crate::names::CreationName;
use crate::picks::Outcome;
use crate::rows::CreationRow;
use crate::{calls, splits};
use central_comms::Pairs;
use mpi_base::{Members, OutOfMemory};
use mpi_law::Origin;
use std::alloc::Global;
use std::marker::Model;

/// The creations of the registry, each named by its place, from 0, in the order in which they were first
/// called (MPI 4.0, 7.4.2). No creation is ever taken out. A call looks for the creation that it joins
/// among those alone that are not picked yet; how many calls a rank has made on a communicator is counted
/// call by call; and where the first split of each name is, is kept.
#[derive(Drop)]
pub struct Creations {
    alloc: Global,
    rows: Vec<CreationRow>,
    waiting: Vec<usize>,
    calls: Pairs,
    splits: Pairs,
}

impl Model for Creations {
    ghost use Rattle.std.specs.Prelude.{List};
    ghost use Rattle.mpi_law.specs.Registry.State.{Creation};

    ghost Value = { List Creation };

    ghost use Rattle.central_creations.specs.Found.{AreFound};

    ghost view = { λ s. s.rows.items };

    ghost invariant = { λ s. AreFound s.waiting.items s.calls s.splits s.rows.items };
}

/// Whether the creation at a place is not picked yet; so it is where there is no creation.
fn is_waiting_at(rows: &[CreationRow], place: usize) -> bool
    ensures { result ≡ is_waiting (get_or rows.now place blank_creation) }
{
    match rows.get(place) {
        Some(row) => !row.is_picked(),
        None => true,
    }
}

/// Leaves only the places of creations that are not picked yet.
fn let_go(rows: &[CreationRow], waiting: &mut Vec<usize>)
    ensures { waiting.new.items ≡ filter (λ p. is_waiting (get_or rows.now p blank_creation)) waiting.old.items }
{
    waiting.retain(|place| is_waiting_at(rows, *place));
}

impl Creations {
    /// No creation.
    pub fn none(alloc: Global) -> Creations
        ensures { result ≡ [] }
    {
        Creations {
            alloc,
            rows: Vec::new(alloc),
            waiting: Vec::new(alloc),
            calls: Pairs::none(alloc),
            splits: Pairs::none(alloc),
        }
    }

    /// How many creations there are.
    pub fn len(&self) -> usize
        ensures { result ≡ length self.now }
    {
        self.rows.len()
    }

    /// How many calls of dup and split on a communicator a rank has made.
    fn called_on(&self, parent: u16, rank: u16) -> u64
        ensures { result ≡ called_on self.now parent rank }
    {
        calls::count(&self.calls, parent, rank) as u64
    }

    /// The name of a creation that a rank calls now.
    pub fn name_of(&self, rank: u16, origin: &Origin<u16>) -> CreationName
        ensures { result ≡ name_so self.now rank origin.now }
    {
        match origin {
            Origin::Grouped { group, tag } => {
                CreationName::group_and_tag(group.copy(), tag.copy())
            }
            Origin::Duplicated { comm } => {
                CreationName::nth_dup(*comm, self.called_on(*comm, rank))
            }
            Origin::Divided { comm, .. } => {
                CreationName::nth_split(*comm, self.called_on(*comm, rank))
            }
            Origin::GroupedOn { comm, tag, group } => {
                CreationName::group_on(*comm, u64::from(*tag), group.copy())
            }
        }
    }

    /// Whether a call with this name joins the creation at a place.
    fn is_joinable_at(&self, place: usize, name: &CreationName) -> bool
        ensures { result ≡ is_joinable name.now (get_or self.now place blank_creation) }
    {
        match self.rows.get(place) {
            Some(row) => row.is_joinable(name),
            None => name.is_blank(),
        }
    }

    /// The place of the creation that a call with this name joins; the length where there is none.
    pub fn place_joinable(&self, name: &CreationName) -> usize
        ensures { result ≡ place_where (is_joinable name.now) self.now }
    {
        self.waiting
            .iter()
            .copied()
            .find(|place| self.is_joinable_at(*place, name))
            .unwrap_or(self.rows.len())
    }

    /// The place of the creation that a pick with this name is for; the length where there is none.
    pub fn place_pickable(&self, name: &CreationName) -> usize
        ensures { result ≡ place_where (is_pickable name.now) self.now }
    {
        if !name.is_split() {
            return self.place_joinable(name);
        }
        splits::first(&self.splits, name).unwrap_or(self.rows.len())
    }

    /// A call joins the creation of its name that is not picked yet, or opens a new one, at the end, that
    /// the group is to call. After an Err nothing has changed.
    pub fn join(
        &mut self,
        name: CreationName,
        group: Members,
        caller: Caller,
    ) -> Result<(), OutOfMemory>
        ensures ok { OnOk result (self.new ≡ joined self.old name group caller) }
        ensures err { OnErr result (self.new ≡ self.old) }
    {
        let place = self.place_joinable(&name);
        if place < self.rows.len() {
            self.call(place, caller)
        } else {
            self.open(name, group, caller)
        }
    }

    /// One caller more of the creation at a place. After an Err nothing has changed.
    fn call(&mut self, place: usize, caller: Caller) -> Result<(), OutOfMemory>
        requires { place < length self.old }
        ensures ok { OnOk result (self.new ≡ set self.old place (with_caller (get_or self.old place blank_creation) caller)) }
        ensures err { OnErr result (self.new ≡ self.old) }
    {
        let rank = caller.rank;
        let parent = self.rows[place].newly_counted(rank);
        let next = calls::next(&mut self.calls, parent, rank)?;
        self.rows[place].call(caller)?;
        calls::raise(&mut self.calls, parent, rank, next);
        let_go(&self.rows, &mut self.waiting);
        Ok(())
    }

    /// A creation that one rank has called, at the end. After an Err nothing has changed.
    fn open(
        &mut self,
        name: CreationName,
        group: Members,
        caller: Caller,
    ) -> Result<(), OutOfMemory>
        ensures ok { OnOk result (self.new ≡ self.old ++ record { name = name; group = group; callers = caller ∷ []; picks = []; answered = [] } ∷ []) }
        ensures err { OnErr result (self.new ≡ self.old) }
    {
        self.rows.reserve(1)?;
        self.waiting.reserve(1)?;
        let rank = caller.rank;
        let parent = name.counted_parent();
        let row = CreationRow::opened(self.alloc, name, group, caller)?;
        let next = calls::next(&mut self.calls, parent, rank)?;
        splits::enter(&mut self.splits, &row.name, self.rows.len())?;
        calls::raise(&mut self.calls, parent, rank, next);
        if !row.is_picked() {
            self.waiting.push_reserved(self.rows.len());
        }
        self.rows.push_reserved(row);
        Ok(())
    }

    /// Whether all that call the creation at a place have called; so it is where there is no creation.
    pub fn all_called(&self, place: usize) -> bool
        ensures { result ≡ all_called (get_or self.now place blank_creation) }
    {
        match self.rows.get(place) {
            Some(row) => row.all_called(),
            None => true,
        }
    }

    /// The members of the communicator that a rank gets by the creation at a place: all, and of a split
    /// those with its colour, by key (MPI 4.0, 7.4.2). None where there is no creation.
    pub fn class_of(&self, place: usize, rank: u16) -> Members
        ensures { result ≡ class_of (get_or self.now place blank_creation) rank }
    {
        match self.rows.get(place) {
            Some(row) => row.class_of(rank),
            None => Members::none(),
        }
    }

    /// What was picked for a rank by the creation at a place; None where nothing was.
    pub fn outcome_for(&self, place: usize, rank: u16) -> Option<Outcome>
        ensures { option_map outcome_seen result ≡ outcome_for (get_or self.now place blank_creation) rank }
    {
        self.rows.get(place)?.outcome_for(rank)
    }

    /// Whether a rank has called the creation at a place, a split, with an undefined colour, or has not
    /// called it.
    pub fn is_uncoloured(&self, place: usize, rank: u16) -> bool
        ensures { result ≡ is_uncoloured (get_or self.now place blank_creation) rank }
    {
        match self.rows.get(place) {
            Some(row) => row.is_uncoloured(rank),
            None => false,
        }
    }

    /// Whether the creation at a place has this name; where there is none, whether the name is that of no
    /// group and no tag.
    pub fn is_named(&self, place: usize, name: &CreationName) -> bool
        ensures { result ≡ same_name (get_or self.now place blank_creation).name name.now }
    {
        match self.rows.get(place) {
            Some(row) => row.name.is_same(name),
            None => name.is_blank(),
        }
    }

    /// Whether the creation at a place is under the communicator at a place, the parent.
    pub fn is_under(&self, place: usize, parent: usize) -> bool
        ensures { result ≡ is_under parent (get_or self.now place blank_creation).name }
    {
        match self.rows.get(place) {
            Some(row) => row.name.is_under(parent),
            None => false,
        }
    }

    /// The session with which a rank has called the creation at a place; 0 where it has not.
    fn session_of(&self, place: usize, rank: u16) -> u64
        ensures { result ≡ (caller_of (get_or self.now place blank_creation).callers rank).session }
    {
        match self.rows.get(place) {
            Some(row) => row.session_of(rank),
            None => 0,
        }
    }

    /// Whether a rank has called the creation at a place with this session; 0 is that of a rank that has
    /// not called.
    pub fn is_of_session(&self, place: usize, rank: u16, session: u64) -> bool
        ensures { result ≡ ((caller_of (get_or self.now place blank_creation).callers rank).session == session) }
    {
        self.session_of(place, rank) == session
    }

    /// The call of a rank of the creation at a place; None where there is none.
    pub fn caller(&self, place: usize, rank: u16) -> Option<&Caller>
        ensures { option_copied result ≡ find (λ k. k.rank == rank) (get_or self.now place blank_creation).callers }
    {
        self.rows.get(place)?.caller(rank)
    }

    /// The session with which each of these members has called the creation at a place, in the members'
    /// order; 0 for one that has not.
    pub fn sessions(
        &self,
        alloc: Global,
        place: usize,
        members: &Members,
    ) -> Result<Vec<u64>, OutOfMemory>
        ensures { IfOk result (λ v. v.items ≡ map (λ m. (caller_of (get_or self.now place blank_creation).callers m).session) members.now) }
    {
        let mut sessions = Vec::new(alloc);
        for index in 0..members.len() {
            if let Some(member) = members.get(index) {
                sessions.push(self.session_of(place, member))?;
            }
        }
        Ok(sessions)
    }

    /// An outcome is picked for these members by the creation at a place; nothing changes where there is
    /// none. After an Err nothing has changed.
    pub fn decide(
        &mut self,
        place: usize,
        members: Members,
        outcome: Outcome,
    ) -> Result<(), OutOfMemory>
        ensures ok { OnOk result (self.new ≡ set self.old place (with_pick (get_or self.old place blank_creation) (record { members = members; outcome = outcome_seen outcome }))) }
        ensures err { OnErr result (self.new ≡ self.old) }
    {
        if place < self.rows.len() {
            self.rows[place].pick(members, outcome)?;
            let_go(&self.rows, &mut self.waiting);
        }
        Ok(())
    }

    /// A rank is answered by the creation at a place; nothing changes where there is none. After an Err
    /// nothing has changed.
    pub fn answer(&mut self, place: usize, rank: u16) -> Result<(), OutOfMemory>
        ensures ok { OnOk result (self.new ≡ set self.old place (with_answer (get_or self.old place blank_creation) rank)) }
        ensures err { OnErr result (self.new ≡ self.old) }
    {
        if place < self.rows.len() {
            self.rows[place].answer(rank)?;
        }
        Ok(())
    }

    /// Whether of each creation each member has its outcome, or is to get none, or some member has not
    /// called it.
    pub fn all_picked_or_short(&self) -> bool
        ensures { result ≡ list_all is_picked_or_short self.now }
    {
        self.rows.iter().all(|row| row.is_picked_or_short())
    }
}
