//! The communicators of the registry.
ghost use Rattle.std.specs.Prelude.{List, ◌≡◌, ◌<◌, ◌≤◌, ◌==◌, ◌&&◌, ◌∷◌, ◌++◌, [], length, get_or, set, map, filter, All, OnErr, OnOk};
ghost use Rattle.std.specs.List.{list_all, list_any, fold};
ghost use Rattle.mpi_base.specs.MemberLists.{has_rank};
ghost use Rattle.mpi_law.specs.Registry.State.{Communicator, blank_comm, session_at};
ghost use Rattle.mpi_law.specs.Registry.Contexts.{in_use, comm_of, is_live_at};
ghost use Rattle.mpi_law.specs.Registry.Calls.{with_freed, is_kept, freed_all};
ghost use Rattle.mpi_law.specs.Registry.Events.{with_returned};
ghost use Rattle.mpi_law.specs.Registry.Replies.{is_left_of};
ghost use Rattle.central_comms.specs.Rows.{row_comm, row_room, is_held, with_freed_at};

use crate::rows::CommRow;
use mpi_base::{Members, OutOfMemory};
use std::alloc::Global;
use std::marker::Model;

/// The communicators of the registry, each named by its place, from 0, in the order in which they were
/// picked.
///
/// No communicator is ever taken out, but the last by the one that added it. Lookups by rank go through those alone that some member has not
/// freed or not given back: no other is live at a rank or kept by one.
#[derive(Drop)]
pub struct Comms {
    alloc: Global,
    rows: Vec<CommRow>,
    held: Vec<usize>,
}

impl Model for Comms {
    ghost use Rattle.std.specs.Prelude.{◌≡◌, List, map};
    ghost use Rattle.mpi_law.specs.Registry.State.{Communicator};

    ghost Value = { List Communicator };

    ghost use Rattle.central_comms.specs.Places.{places_where};
    ghost use Rattle.central_comms.specs.Rows.{row_comm, is_held};

    ghost view = { λ s. map row_comm s.rows.items };

    ghost invariant = { λ s. s.held.items ≡ places_where is_held (map row_comm s.rows.items) };
}

/// Whether there is a communicator at a place, and some member has not freed it, or not given it back.
fn is_held_at(rows: &[CommRow], place: usize) -> bool
    ensures { result ≡ is_held (get_or (map row_comm rows.now) place blank_comm) }
{
    match rows.get(place) {
        Some(row) => row.is_held(),
        None => false,
    }
}

/// Leaves only the places of communicators that some member has not freed, or not given back.
fn let_go(rows: &[CommRow], held: &mut Vec<usize>)
    ensures { held.new.items ≡ filter (λ p. is_held (get_or (map row_comm rows.now) p blank_comm)) held.old.items }
{
    held.retain(|place| is_held_at(rows, *place));
}

/// Makes room for one member more that frees the communicator, at each of these places. The
/// communicators stay, whatever it answers.
fn make_room(rows: &mut [CommRow], places: &[usize]) -> Result<(), OutOfMemory>
    requires { All (λ p. p < length rows.old) places.now }
    ensures ok { OnOk result (All (λ p. 1 ≤ get_or (map row_room rows.new) p 0) places.now) }
    ensures same { map row_comm rows.new ≡ map row_comm rows.old }
{
    for place in places {
        rows[*place].make_room()?;
    }
    Ok(())
}

/// A rank frees those communicators at these places that are of one of its sessions and that it has not
/// freed. There is room for it.
fn free_kept(rows: &mut [CommRow], places: &[usize], rank: u16, session: u64)
    requires within { All (λ p. p < length rows.old) places.now }
    requires room { All (λ p. 1 ≤ get_or (map row_room rows.old) p 0) places.now }
    ensures { map row_comm rows.new ≡ fold (with_freed_at rank session) (map row_comm rows.old) places.now }
{
    for place in places {
        rows[*place].free_if_kept(rank, session);
    }
}

impl Comms {
    /// No communicator.
    pub fn none(alloc: Global) -> Comms
        ensures { result ≡ [] }
    {
        Comms {
            alloc,
            rows: Vec::new(alloc),
            held: Vec::new(alloc),
        }
    }

    /// How many communicators there are.
    pub fn len(&self) -> usize
        ensures { result ≡ length self.now }
    {
        self.rows.len()
    }

    /// The context of a communicator.
    pub fn ctx(&self, place: usize) -> u16
        requires { place < length self.now }
        ensures { result ≡ (get_or self.now place blank_comm).ctx }
    {
        self.rows[place].ctx
    }

    /// The members of a communicator, in order.
    pub fn members(&self, place: usize) -> &Members
        requires { place < length self.now }
        ensures { result.now ≡ (get_or self.now place blank_comm).members }
    {
        &self.rows[place].members
    }

    /// The session of a member of a communicator.
    pub fn session_at(&self, place: usize, rank: u16) -> u64
        requires { place < length self.now }
        ensures { result ≡ session_at (get_or self.now place blank_comm) rank }
    {
        self.rows[place].session_at(rank)
    }

    /// Whether a context is in use at a rank: a communicator that is live there has it.
    pub fn is_in_use(&self, rank: u16, ctx: u16) -> bool
        ensures { result ≡ in_use self.now rank ctx }
    {
        self.held
            .iter()
            .any(|place| self.is_here(*place, rank, ctx))
    }

    /// The place of the communicator that a context stands for at a rank: the first with the context that
    /// is live there; None exactly where there is none.
    pub fn place_of(&self, rank: u16, ctx: u16) -> Option<usize>
        ensures { result ≡ comm_of self.now rank ctx }
    {
        self.held
            .iter()
            .copied()
            .find(|place| self.is_here(*place, rank, ctx))
    }

    /// Whether the communicator at a place has a context and is live at a rank.
    fn is_here(&self, place: usize, rank: u16, ctx: u16) -> bool
        ensures { result ≡ (((get_or self.now place blank_comm).ctx == ctx) && is_live_at (get_or self.now place blank_comm) rank) }
    {
        match self.rows.get(place) {
            Some(row) => row.ctx == ctx && row.is_live_at(rank),
            None => false,
        }
    }

    /// Whether a rank has given a communicator back.
    pub fn is_returned(&self, place: usize, rank: u16) -> bool
        requires { place < length self.now }
        ensures { result ≡ has_rank (get_or self.now place blank_comm).returned rank }
    {
        self.rows[place].is_returned(rank)
    }

    /// Whether all members of a communicator have freed it.
    pub fn all_freed(&self, place: usize) -> bool
        requires { place < length self.now }
        ensures { result ≡ list_all (has_rank (get_or self.now place blank_comm).freed) (get_or self.now place blank_comm).members }
    {
        self.rows[place].is_all_freed()
    }

    /// Whether there is a communicator of this session of a rank that the rank has not given back.
    pub fn has_left_of(&self, rank: u16, session: u64) -> bool
        ensures { result ≡ list_any (is_left_of rank session) self.now }
    {
        self.held
            .iter()
            .any(|place| self.is_left_at(*place, rank, session))
    }

    /// Whether the communicator at a place is of this session of a rank, which has not given it back.
    fn is_left_at(&self, place: usize, rank: u16, session: u64) -> bool
        ensures { result ≡ is_left_of rank session (get_or self.now place blank_comm) }
    {
        match self.rows.get(place) {
            Some(row) => row.is_left_of(rank, session),
            None => false,
        }
    }

    /// Adds a communicator at the end, with the session of each member in the members' order, which
    /// nobody has freed or given back. After an Err nothing has changed.
    pub fn add(&mut self, ctx: u16, members: Members, sessions: Vec<u64>) -> Result<(), OutOfMemory>
        ensures ok { OnOk result (self.new ≡ self.old ++ record { ctx = ctx; members = members; sessions = sessions.items; freed = []; returned = [] } ∷ []) }
        ensures err { OnErr result (self.new ≡ self.old) }
    {
        self.rows.reserve(1)?;
        self.held.reserve(1)?;
        let row = CommRow::new(self.alloc, ctx, members, sessions);
        if row.is_held() {
            self.held.push_reserved(self.rows.len());
        }
        self.rows.push_reserved(row);
        Ok(())
    }

    /// Takes the last communicator out again, if there is one.
    pub fn drop_last(&mut self)
        ensures last { (comms : List Communicator) (m : Communicator) → self.old ≡ comms ++ m ∷ [] → self.new ≡ comms }
        ensures none { self.old ≡ [] → self.new ≡ [] }
    {
        self.rows.pop();
        let_go(&self.rows, &mut self.held);
    }

    /// A rank frees a communicator, whether or not it is a member or has freed it before. After an Err
    /// nothing has changed.
    pub fn free(&mut self, place: usize, rank: u16) -> Result<(), OutOfMemory>
        requires { place < length self.old }
        ensures ok { OnOk result (self.new ≡ set self.old place (with_freed rank (get_or self.old place blank_comm))) }
        ensures err { OnErr result (self.new ≡ self.old) }
    {
        self.rows[place].free(rank)?;
        let_go(&self.rows, &mut self.held);
        Ok(())
    }

    /// A rank frees each communicator of one of its sessions that it has not freed. After an Err nothing
    /// has changed.
    pub fn free_session(&mut self, rank: u16, session: u64) -> Result<(), OutOfMemory>
        ensures ok { OnOk result (self.new ≡ freed_all self.old rank session) }
        ensures err { OnErr result (self.new ≡ self.old) }
    {
        make_room(&mut self.rows, &self.held)?;
        free_kept(&mut self.rows, &self.held, rank, session);
        let_go(&self.rows, &mut self.held);
        Ok(())
    }

    /// A rank gives a communicator back, whether or not it is a member or has given it back before. After
    /// an Err nothing has changed.
    pub fn give_back(&mut self, place: usize, rank: u16) -> Result<(), OutOfMemory>
        requires { place < length self.old }
        ensures ok { OnOk result (self.new ≡ set self.old place (with_returned rank (get_or self.old place blank_comm))) }
        ensures err { OnErr result (self.new ≡ self.old) }
    {
        self.rows[place].give_back(rank)?;
        let_go(&self.rows, &mut self.held);
        Ok(())
    }
}
