//! The table of sessions.
ghost use Rattle.std.specs.Prelude.{◌≡◌, ◌<◌, ◌≤◌, ◌+◌, ◌-◌, ◌^◌, ◌∷◌, ◌++◌, ◌==◌, [], true, not, nat_lt, filter, position, OnOk};
ghost use Rattle.std.specs.Bool.{OnFalse, OnTrue};
ghost use Rattle.std.specs.List.{list_all, list_any};
ghost use Rattle.session_tab.specs.Ids.{same_id, has_id, AreGiven};
ghost use Rattle.session_tab.specs.Slots.{holds};

use crate::ids::SessionId;
use mpi_base::OutOfMemory;
use slab::Slab;
use std::alloc::Global;
use std::marker::Model;

/// The sessions that are live: opened and not closed yet (MPI 4.0, 11.3.1). Slots and serials are
/// this project's own.
#[derive(Drop)]
pub struct Sessions {
    serials: Slab<u64>,
    count: u64,
}

impl Model for Sessions {
    ghost use Rattle.std.specs.Prelude.{◌-◌};
    ghost use Rattle.slab.specs.Slab.{slab_len};
    ghost use Rattle.session_tab.specs.Ids.{Table};
    ghost use Rattle.session_tab.specs.Slots.{live_in, AreSlots};

    ghost Value = { Table };

    ghost view = { λ s. record {
      live = live_in s.serials.slots s.count;
      count = s.count;
      spare = s.serials.capacity - slab_len s.serials;
    } };

    ghost invariant = { λ s. AreSlots s.serials.slots s.count };
}

/// The slot that has this serial; None where no slot has it.
fn slot_of(serials: &Slab<u64>, serial: u64) -> Option<usize>
    ensures { result ≡ position (holds serial) serials.now.slots }
{
    let (slot, _) = serials.iter().find(|(_, other)| **other == serial)?;
    Some(slot)
}

impl Sessions {
    /// A table that has given no session.
    pub fn none(alloc: Global) -> Sessions
        ensures live { result.live ≡ [] }
        ensures count { result.count ≡ 0 }
    {
        Sessions {
            serials: Slab::new(alloc),
            count: 0,
        }
    }

    /// Makes room for one session more. All else stays, whatever it answers.
    pub fn reserve(&mut self) -> Result<(), OutOfMemory>
        ensures ok { OnOk result (1 ≤ self.new.spare) }
        ensures live { self.new.live ≡ self.old.live }
        ensures count { self.new.count ≡ self.old.count }
        ensures spare { self.old.spare ≤ self.new.spare }
    {
        self.serials.reserve(1)?;
        Ok(())
    }

    /// Opens a session. There is room for it, and fewer than the greatest `u64` were given before.
    /// It takes no memory. The serial is one above the count of those given so far, so the id was
    /// never live before.
    pub fn add(&mut self) -> SessionId
        requires room { 1 ≤ self.old.spare }
        requires count { self.old.count < 2 ^ 64 - 1 }
        ensures serial { result.serial ≡ self.old.count + 1 }
        ensures fresh { list_all (λ other. nat_lt other.serial result.serial) self.old.live ≡ true }
        ensures live { self.new.live ≡ self.old.live ++ result ∷ [] }
        ensures count { self.new.count ≡ self.old.count + 1 }
        ensures spare { self.old.spare ≤ self.new.spare + 1 }
    {
        self.count += 1;
        let slot = self.serials.insert_reserved(self.count);
        SessionId {
            slot,
            serial: self.count,
        }
    }

    /// Whether a session is live.
    pub fn is_live(&self, id: SessionId) -> bool
        ensures { result ≡ has_id self.now.live id }
    {
        match self.serials.get(id.slot) {
            Some(serial) => *serial == id.serial,
            None => false,
        }
    }

    /// Closes a session, which leaves room for one more. False, with nothing changed, exactly where
    /// it is not live.
    pub fn close(&mut self, id: SessionId) -> bool
        ensures when { result ≡ has_id self.old.live id }
        ensures live { self.new.live ≡ filter (λ other. not (same_id other id)) self.old.live }
        ensures count { self.new.count ≡ self.old.count }
        ensures spare { self.old.spare ≤ self.new.spare }
        ensures room { OnTrue result (1 ≤ self.new.spare) }
        ensures refused { OnFalse result (self.new ≡ self.old) }
    {
        if !self.is_live(id) {
            return false;
        }
        self.serials.remove(id.slot);
        true
    }

    /// Closes the session with this serial, which leaves room for one more. False, with nothing
    /// changed, exactly where none is live. It looks through the slots.
    pub fn close_serial(&mut self, serial: u64) -> bool
        ensures when { result ≡ list_any (λ id. id.serial == serial) self.old.live }
        ensures live { self.new.live ≡ filter (λ id. not (id.serial == serial)) self.old.live }
        ensures count { self.new.count ≡ self.old.count }
        ensures spare { self.old.spare ≤ self.new.spare }
        ensures room { OnTrue result (1 ≤ self.new.spare) }
        ensures refused { OnFalse result (self.new ≡ self.old) }
    {
        match slot_of(&self.serials, serial) {
            Some(slot) => {
                self.serials.remove(slot);
                true
            }
            None => false,
        }
    }

    /// How many sessions were given so far, closed ones too.
    pub fn count(&self) -> u64
        ensures value { result ≡ self.now.count }
        ensures form { AreGiven self.now.live self.now.count }
    {
        self.count
    }
}
