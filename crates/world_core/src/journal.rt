//! The journal.
ghost use Rattle.std.specs.Prelude.{◌≡◌, ◌+◌, ◌-◌, ◌^◌, ◌≤◌, ◌∷◌, ◌++◌, [], length, slice_get, option_copied, OnOk};

use mpi_base::{Entry, OutOfMemory};
use std::alloc::Global;
use std::marker::Model;

/// What happened: entries in the order in which they were written.
#[derive(Drop)]
pub struct Journal {
    entries: Vec<Entry>,
}

impl Model for Journal {
    ghost use Rattle.std.specs.Prelude.{◌-◌, vec_len, vec_capacity};
    ghost use Rattle.world_core.specs.Entries.{Written};

    ghost Value = { Written };

    ghost view = { λ j. record { entries = j.entries.items; spare = vec_capacity j.entries - vec_len j.entries } };
}

impl Journal {
    /// A journal with no entry.
    pub fn none(alloc: Global) -> Journal
        ensures { result.entries ≡ [] }
    {
        Journal {
            entries: Vec::new(alloc),
        }
    }

    /// Makes room for so many entries more. The entries stay, whatever it answers.
    pub fn reserve(&mut self, more: u64) -> Result<(), OutOfMemory>
        ensures same { self.new.entries ≡ self.old.entries }
        ensures ok { OnOk result (more ≤ self.new.spare) }
        ensures count { OnOk result (length self.new.entries + more ≤ 2 ^ 64 - 1) }
    {
        self.entries.reserve(more as usize)?;
        Ok(())
    }

    /// Writes one more entry at the end. There is room for it.
    pub fn push(&mut self, entry: Entry)
        requires room { 1 ≤ self.old.spare }
        ensures entries { self.new.entries ≡ self.old.entries ++ entry ∷ [] }
        ensures spare { self.old.spare ≤ self.new.spare + 1 }
    {
        self.entries.push_reserved(entry);
    }

    /// How many entries there are.
    pub fn len(&self) -> u64
        ensures { result ≡ length self.now.entries }
    {
        self.entries.len() as u64
    }

    /// All entries, in order.
    pub fn as_slice(&self) -> &[Entry]
        ensures { result.now ≡ self.now.entries }
    {
        &self.entries
    }

    /// The entry at a place, from 0; None exactly where the place is at least the length.
    pub fn get(&self, place: u64) -> Option<&Entry>
        ensures { option_copied result ≡ slice_get self.now.entries place }
    {
        self.entries.get(place as usize)
    }
}
