//! The table of communicators.
ghost use Rattle.std.specs.Prelude.{◌≡◌, ◌+◌, ◌-◌, ◌^◌, ◌<◌, ◌≤◌, ◌==◌, false, OnOk, if◌then◌else◌, All, map};
ghost use Rattle.std.specs.Option.{option_copied};
ghost use Rattle.std.specs.List.{list_all};
ghost use Rattle.comm_law.specs.declared.rows.CommStage.TheVariants.{Left};
ghost use Rattle.comm_law.specs.Comms.{no_comms, row_at, comm_at, has_serial, has_session, is_noted, add, one_call_more, with_stage, freed, freed_stage, count_call, mark_free, free_session, leave, note_marker, is_marked_by, all_marked, remove};
ghost use Rattle.comm_tab.specs.Tables.{IsOrderly};

use comm_law::{CommRow, CommStage, MarkerRow};
use mpi_base::{Members, OutOfMemory};
use std::alloc::Global;
use std::marker::Model;

/// The communicators of a rank, from the pick of their context until the rank gives it back, and the
/// markers by which members tell that they have left one. All of it is this project's own.
///
/// The rows stand in the order in which they were added, and lookups go through them: a rank has few
/// rows and markers at a time. Nothing here asks that contexts differ. A lookup gives the first row with
/// a context, and a change is one of each row with it.
#[derive(Drop)]
pub struct CommTab {
    rank: u16,
    rows: Vec<CommRow>,
    added: u64,
    markers: Vec<MarkerRow>,
}

impl Model for CommTab {
    ghost use Rattle.std.specs.Prelude.{◌-◌, min, vec_len, vec_capacity};
    ghost use Rattle.comm_tab.specs.Tables.{Table, IsOrderly};

    ghost Value = { Table };

    ghost view = { λ s. record {
      comms = record { rows = s.rows.items; added = s.added; noted = s.markers.items };
      rank = s.rank;
      spare = min (vec_capacity s.rows - vec_len s.rows) (vec_capacity s.markers - vec_len s.markers);
    } };

    ghost invariant = { λ s. IsOrderly (record { rows = s.rows.items; added = s.added; noted = s.markers.items }) };
}

/// What becomes of a communicator that is freed.
fn stage_once_freed(stage: CommStage) -> CommStage
    ensures { result ≡ freed_stage stage }
{
    match stage {
        CommStage::Live | CommStage::Freed => CommStage::Freed,
        CommStage::Left => CommStage::Left,
    }
}

/// Counts one more call on each communicator with a context.
fn count_calls(rows: &mut [CommRow], ctx: u16)
    requires { All (λ m. m.calls < 2 ^ 64 - 1) rows.old }
    ensures { rows.new ≡ map (λ m. if m.ctx == ctx then one_call_more m else m) rows.old }
{
    for row in rows {
        if row.ctx == ctx {
            row.calls += 1;
        }
    }
}

/// Frees each communicator with a context.
fn free_context(rows: &mut [CommRow], ctx: u16)
    ensures { rows.new ≡ map (λ m. if m.ctx == ctx then freed m else m) rows.old }
{
    for row in rows {
        if row.ctx == ctx {
            row.stage = stage_once_freed(row.stage);
        }
    }
}

/// Leaves each communicator with a context.
fn leave_context(rows: &mut [CommRow], ctx: u16)
    ensures { rows.new ≡ map (λ m. if m.ctx == ctx then with_stage Left m else m) rows.old }
{
    for row in rows {
        if row.ctx == ctx {
            row.stage = CommStage::Left;
        }
    }
}

/// Frees each communicator of a session.
fn free_rows(rows: &mut [CommRow], session: u64)
    ensures { rows.new ≡ map (λ m. if m.session == session then freed m else m) rows.old }
{
    for row in rows {
        if row.session == session {
            row.stage = stage_once_freed(row.stage);
        }
    }
}

impl CommTab {
    /// The table of a rank that has no communicator, and to which no marker came.
    pub fn none(alloc: Global, rank: u16) -> CommTab
        ensures comms { result.comms ≡ no_comms }
        ensures rank { result.rank ≡ rank }
    {
        CommTab {
            rank,
            rows: Vec::new(alloc),
            added: 0,
            markers: Vec::new(alloc),
        }
    }

    /// Makes room for one communicator and one marker more. All else stays, whatever it answers.
    pub fn reserve(&mut self) -> Result<(), OutOfMemory>
        ensures ok { OnOk result (1 ≤ self.new.spare) }
        ensures comms { self.new.comms ≡ self.old.comms }
        ensures rank { self.new.rank ≡ self.old.rank }
        ensures spare { self.old.spare ≤ self.new.spare }
    {
        self.rows.reserve(1)?;
        self.markers.reserve(1)?;
        Ok(())
    }

    /// Adds a communicator that is in use, whether or not another one has its context here, and gives
    /// its serial: the number of those added so far, from 1. There is room for it, and fewer than the
    /// greatest `u64` were added before.
    pub fn add(&mut self, ctx: u16, members: Members, session: u64) -> u64
        requires room { 1 ≤ self.old.spare }
        requires count { self.old.comms.added < 2 ^ 64 - 1 }
        ensures serial { result ≡ self.old.comms.added + 1 }
        ensures fresh { has_serial self.old.comms result ≡ false }
        ensures comms { self.new.comms ≡ add self.old.comms ctx members session }
        ensures rank { self.new.rank ≡ self.old.rank }
        ensures spare { self.old.spare ≤ self.new.spare + 1 }
    {
        self.added += 1;
        self.rows.push_reserved(CommRow {
            ctx,
            members,
            session,
            serial: self.added,
            calls: 0,
            stage: CommStage::Live,
        });
        self.added
    }

    /// The communicators, in the order in which they were added.
    pub fn rows(&self) -> &[CommRow]
        ensures rows { result.now ≡ self.now.comms.rows }
        ensures form { IsOrderly self.now.comms }
    {
        self.rows.as_slice()
    }

    /// The first communicator with a context; None exactly where none has it.
    pub fn find(&self, ctx: u16) -> Option<&CommRow>
        ensures { option_copied result ≡ row_at self.now.comms ctx }
    {
        self.rows.iter().find(|row| row.ctx == ctx)
    }

    /// Whether a communicator with this serial is there.
    pub fn has_serial(&self, serial: u64) -> bool
        ensures { result ≡ has_serial self.now.comms serial }
    {
        self.rows.iter().any(|row| row.serial == serial)
    }

    /// Whether a communicator of this session is there.
    pub fn has_session(&self, session: u64) -> bool
        ensures { result ≡ has_session self.now.comms session }
    {
        self.rows.iter().any(|row| row.session == session)
    }

    /// Counts one more call of dup or split on each communicator with a context, and gives how many there
    /// were before on the first of them, 0 where there is none. Each communicator had fewer than the
    /// greatest `u64`.
    pub fn count_call(&mut self, ctx: u16) -> u64
        requires count { All (λ m. m.calls < 2 ^ 64 - 1) self.old.comms.rows }
        ensures before { result ≡ (comm_at self.old.comms ctx).calls }
        ensures comms { self.new.comms ≡ count_call self.old.comms ctx }
        ensures rank { self.new.rank ≡ self.old.rank }
        ensures spare { self.new.spare ≡ self.old.spare }
    {
        let before = self.calls(ctx);
        count_calls(&mut self.rows, ctx);
        before
    }

    /// How many calls there were on the first communicator with a context, 0 where there is none.
    fn calls(&self, ctx: u16) -> u64
        ensures { result ≡ (comm_at self.now.comms ctx).calls }
    {
        match self.find(ctx) {
            Some(row) => row.calls,
            None => 0,
        }
    }

    /// Frees each communicator with a context. One that was freed or left before stays as it is, and
    /// nothing changes where none has the context.
    pub fn mark_free(&mut self, ctx: u16)
        ensures comms { self.new.comms ≡ mark_free self.old.comms ctx }
        ensures rank { self.new.rank ≡ self.old.rank }
        ensures spare { self.new.spare ≡ self.old.spare }
    {
        free_context(&mut self.rows, ctx);
    }

    /// Frees each communicator of a session, as [`CommTab::mark_free`] does.
    pub fn free_session(&mut self, session: u64)
        ensures comms { self.new.comms ≡ free_session self.old.comms session }
        ensures rank { self.new.rank ≡ self.old.rank }
        ensures spare { self.new.spare ≡ self.old.spare }
    {
        free_rows(&mut self.rows, session);
    }

    /// The rank leaves each communicator with a context, whether or not it was freed. Nothing changes
    /// where none has the context.
    pub fn leave(&mut self, ctx: u16)
        ensures comms { self.new.comms ≡ leave self.old.comms ctx }
        ensures rank { self.new.rank ≡ self.old.rank }
        ensures spare { self.new.spare ≡ self.old.spare }
    {
        leave_context(&mut self.rows, ctx);
    }

    /// Notes that a member has left the communicator with a context, which may not be known here yet.
    /// It is not noted, and there is room for it.
    pub fn marker(&mut self, ctx: u16, from: u16)
        requires new { is_noted self.old.comms ctx from ≡ false }
        requires room { 1 ≤ self.old.spare }
        ensures comms { self.new.comms ≡ note_marker self.old.comms ctx from }
        ensures rank { self.new.rank ≡ self.old.rank }
        ensures spare { self.old.spare ≤ self.new.spare + 1 }
    {
        self.markers.push_reserved(MarkerRow { ctx, from });
    }

    /// Whether the marker of a member of the communicator with a context is noted.
    pub fn is_noted(&self, ctx: u16, from: u16) -> bool
        ensures { result ≡ is_noted self.now.comms ctx from }
    {
        self.markers
            .iter()
            .any(|marker| marker.ctx == ctx && marker.from == from)
    }

    /// Whether the rank has left the first communicator with a context, and the marker of each other member
    /// is noted. False where none has the context.
    #[tactic(auto, unfolding(comm_law::specs::Comms::all_marked))]
    pub fn all_marked(&self, ctx: u16) -> bool
        ensures { result ≡ all_marked self.now.comms self.now.rank ctx }
    {
        match self.find(ctx) {
            Some(row) => {
                matches!(row.stage, CommStage::Left) && self.are_marked(row.ctx, &row.members)
            }
            None => false,
        }
    }

    /// Whether each of these ranks is the table's own, or its marker is noted.
    fn are_marked(&self, ctx: u16, members: &Members) -> bool
        ensures { result ≡ list_all (is_marked_by self.now.comms self.now.rank ctx) members.now }
    {
        for place in 0..members.len() {
            if let Some(member) = members.get(place) {
                if !self.is_marked(ctx, member) {
                    return false;
                }
            }
        }
        true
    }

    /// Whether a rank is the table's own, or its marker is noted.
    fn is_marked(&self, ctx: u16, member: u16) -> bool
        ensures { result ≡ is_marked_by self.now.comms self.now.rank ctx member }
    {
        member == self.rank || self.is_noted(ctx, member)
    }

    /// Takes out each communicator with a context and its markers, whether or not all members have left
    /// it: the caller asks [`CommTab::all_marked`] first.
    pub fn remove(&mut self, ctx: u16)
        ensures comms { self.new.comms ≡ remove self.old.comms ctx }
        ensures rank { self.new.rank ≡ self.old.rank }
        ensures spare { self.old.spare ≤ self.new.spare }
    {
        self.rows.retain(|row| row.ctx != ctx);
        self.markers.retain(|marker| marker.ctx != ctx);
    }
}
