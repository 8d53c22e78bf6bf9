//! How many of something each context has.
ghost use Rattle.std.specs.Prelude.{◌≡◌, ℕ, ◌<◌, ◌≤◌, ◌+◌, ◌-◌, ◌^◌, ◌==◌, if◌then◌else◌, OnOk};
ghost use Rattle.match_box.specs.Tallies.{count_in};

use indexmap::IndexMap;
use mpi_base::OutOfMemory;
use std::alloc::Global;
use std::marker::Model;

/// How many of something each context has. A context with none takes no place.
#[derive(Drop)]
pub struct Counts {
    counts: IndexMap<u16, u64>,
}

impl Model for Counts {
    ghost use Rattle.indexmap.specs.IndexMap.{spare};
    ghost use Rattle.match_box.specs.Tallies.{Tally};

    ghost Value = { Tally };

    ghost view = { λ c. record {
      counts = c.counts.entries;
      spare = spare c.counts;
    } };
}

impl Counts {
    /// No context has any.
    pub fn none(alloc: Global) -> Counts
        ensures { (c : ℕ) → count_in result.counts c ≡ 0 }
    {
        Counts {
            counts: IndexMap::new(alloc),
        }
    }

    /// Makes room for one context more. The counts stay, whatever it answers.
    pub fn reserve(&mut self) -> Result<(), OutOfMemory>
        ensures ok { OnOk result (1 ≤ self.new.spare) }
        ensures counts { self.new.counts ≡ self.old.counts }
        ensures spare { self.old.spare ≤ self.new.spare }
    {
        self.counts.reserve(1)?;
        Ok(())
    }

    /// How many a context has.
    pub fn of(&self, ctx: u16) -> u64
        ensures { result ≡ count_in self.now.counts ctx }
    {
        match self.counts.get(&ctx) {
            Some(count) => *count,
            None => 0,
        }
    }

    /// A context has one more. There is room for it.
    pub fn raise(&mut self, ctx: u16)
        requires room { 1 ≤ self.old.spare }
        requires count { count_in self.old.counts ctx < 2 ^ 64 - 1 }
        ensures each { (c : ℕ) → count_in self.new.counts c ≡ (if ctx == c then count_in self.old.counts c + 1 else count_in self.old.counts c) }
        ensures spare { self.old.spare ≤ self.new.spare + 1 }
    {
        let count = self.of(ctx) + 1;
        self.counts.insert(ctx, count).unwrap();
    }

    /// A context has one less.
    pub fn lower(&mut self, ctx: u16)
        requires { 1 ≤ count_in self.old.counts ctx }
        ensures each { (c : ℕ) → count_in self.new.counts c ≡ (if ctx == c then count_in self.old.counts c - 1 else count_in self.old.counts c) }
        ensures spare { self.old.spare ≤ self.new.spare }
    {
        let count = self.of(ctx) - 1;
        if count == 0 {
            self.counts.swap_remove(&ctx);
        } else if let Some(place) = self.counts.get_mut(&ctx) {
            *place = count;
        }
    }
}
