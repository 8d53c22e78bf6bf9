//! The queues that are not empty.
ghost use Rattle.std.specs.Prelude.{◌≡◌, ℕ, ◌<◌, ◌≤◌, ◌+◌, ◌-◌, ◌^◌, ◌==◌, if◌then◌else◌, OnOk, IsSome, None, MatchOption, option_map};
ghost use Rattle.std.specs.Map.{lookup};
ghost use Rattle.indexmap.specs.IndexMap.{spare};
ghost use Rattle.match_box.specs.declared.queue.Queue.{Queue as Named};
ghost use Rattle.match_box.specs.declared.node.Place.{Place as Spot};
ghost use Rattle.match_box.specs.Rows.{same_queue};
ghost use Rattle.match_box.specs.Tallies.{count_in};
ghost use Rattle.match_box.specs.Filing.{same_place, ends_at, queue_at, extended, ended, began, lasted, settled};

use crate::counts::Counts;
use crate::node::{Ends, Entry, Place};
use crate::queue::Queue;
use indexmap::IndexMap;
use mpi_base::OutOfMemory;
use std::alloc::Global;
use std::marker::Model;

/// Where each queue begins and ends, and which queues each context has. An empty queue takes no
/// place.
#[derive(Drop)]
pub struct Index {
    entries: IndexMap<Queue, Entry>,
    places: IndexMap<Place, Queue>,
    sizes: Counts,
}

impl Model for Index {
    ghost use Rattle.std.specs.Prelude.{min};
    ghost use Rattle.indexmap.specs.IndexMap.{spare};
    ghost use Rattle.match_box.specs.Tallies.{count_in};
    ghost use Rattle.match_box.specs.Filing.{Filed, AreFiled, place_at, queue_at};

    ghost Value = { Filed };

    ghost view = { λ i. record {
      entries = i.entries.entries;
      places = i.places.entries;
      sizes = i.sizes.counts;
      spare = min (spare i.entries) (min (spare i.places) i.sizes.spare);
    } };

    ghost invariant = { λ i. AreFiled (place_at i.entries.entries) (queue_at i.places.entries) (count_in i.sizes.counts) };
}

/// A queue ends with the key. Without the queue nothing changes.
fn end_with(entries: &mut IndexMap<Queue, Entry>, queue: &Queue, last: usize)
    ensures each { (q : Named) → lookup (same_queue q) entries.new.entries ≡ (if same_queue queue.now q then option_map (lasted last) (lookup (same_queue q) entries.old.entries) else lookup (same_queue q) entries.old.entries) }
    ensures spare { spare entries.new ≡ spare entries.old }
{
    if let Some(entry) = entries.get_mut(queue) {
        entry.ends.last = last;
    }
}

/// A queue begins with the key. Without the queue nothing changes.
fn begin_with(entries: &mut IndexMap<Queue, Entry>, queue: &Queue, first: usize)
    ensures each { (q : Named) → lookup (same_queue q) entries.new.entries ≡ (if same_queue queue.now q then option_map (began first) (lookup (same_queue q) entries.old.entries) else lookup (same_queue q) entries.old.entries) }
    ensures spare { spare entries.new ≡ spare entries.old }
{
    if let Some(entry) = entries.get_mut(queue) {
        entry.ends.first = first;
    }
}

/// A queue is noted to be at a place. Without the queue nothing changes.
fn settle(entries: &mut IndexMap<Queue, Entry>, queue: &Queue, place: u64)
    ensures each { (q : Named) → lookup (same_queue q) entries.new.entries ≡ (if same_queue queue.now q then option_map (settled place) (lookup (same_queue q) entries.old.entries) else lookup (same_queue q) entries.old.entries) }
    ensures spare { spare entries.new ≡ spare entries.old }
{
    if let Some(entry) = entries.get_mut(queue) {
        entry.place = place;
    }
}

/// Another queue stands at a place that has one.
fn replace(places: &mut IndexMap<Place, Queue>, place: Place, queue: Queue)
    ensures each { (p : Spot) → lookup (same_place p) places.new.entries ≡ (if same_place place p then option_map (λ _. queue) (lookup (same_place p) places.old.entries) else lookup (same_place p) places.old.entries) }
    ensures spare { spare places.new ≡ spare places.old }
{
    if let Some(other) = places.get_mut(&place) {
        *other = queue;
    }
}

impl Index {
    ghost use Rattle.std.specs.Prelude.{◌≡◌, ℕ, ◌<◌, ◌≤◌, ◌+◌, ◌-◌, ◌^◌, ◌==◌, if◌then◌else◌, [], OnOk, IsSome, Some, None, MatchOption};
    ghost use Rattle.match_box.specs.declared.queue.Queue.{Queue as Named};
    ghost use Rattle.match_box.specs.Rows.{same_queue};
    ghost use Rattle.match_box.specs.Tallies.{count_in};
    ghost use Rattle.match_box.specs.Filing.{ends_at, queue_at, extended, ended, Stands};

    /// All queues are empty.
    pub fn none(alloc: Global) -> Index
        ensures ends { (q : Named) → ends_at result.entries q ≡ None }
        ensures sizes { (c : ℕ) → count_in result.sizes c ≡ 0 }
    {
        Index {
            entries: IndexMap::new(alloc),
            places: IndexMap::new(alloc),
            sizes: Counts::none(alloc),
        }
    }

    /// Makes room for one queue more. The queues stay, whatever it answers.
    pub fn reserve(&mut self) -> Result<(), OutOfMemory>
        ensures ok { OnOk result (1 ≤ self.new.spare) }
        ensures entries { self.new.entries ≡ self.old.entries }
        ensures places { self.new.places ≡ self.old.places }
        ensures sizes { self.new.sizes ≡ self.old.sizes }
        ensures spare { self.old.spare ≤ self.new.spare }
    {
        self.entries.reserve(1)?;
        self.places.reserve(1)?;
        self.sizes.reserve()
    }

    /// Where a queue begins and ends; None exactly where it is empty.
    pub fn ends(&self, queue: &Queue) -> Option<Ends>
        ensures { result ≡ ends_at self.now.entries queue.now }
    {
        match self.entries.get(queue) {
            Some(entry) => Some(entry.ends),
            None => None,
        }
    }

    /// How many queues a context has. Each stands at a place below it.
    pub fn size(&self, ctx: u16) -> u64
        ensures value { result ≡ count_in self.now.sizes ctx }
        ensures stand { (q : Named) → q.ctx ≡ ctx → IsSome (ends_at self.now.entries q) → Stands self.now.places result q }
    {
        self.sizes.of(ctx)
    }

    /// The queue of a context at a place below its size.
    pub fn at(&self, ctx: u16, place: u64) -> Option<Queue>
        ensures value { result ≡ queue_at self.now.places ctx place }
        ensures met { place < count_in self.now.sizes ctx → IsSome result }
        ensures named { (q : Named) → result ≡ Some q → (q.ctx ≡ ctx) × IsSome (ends_at self.now.entries q) }
    {
        self.places.get(&Place { ctx, place }).copied()
    }

    /// The queue that came last on a context; None exactly where it has no queue.
    pub fn last_on(&self, ctx: u16) -> Option<Queue>
        ensures none { result ≡ None → (q : Named) → q.ctx ≡ ctx → ends_at self.now.entries q ≡ None }
        ensures some { (q : Named) → result ≡ Some q → (q.ctx ≡ ctx) × IsSome (ends_at self.now.entries q) }
    {
        let size = self.size(ctx);
        if size == 0 {
            return None;
        }
        self.at(ctx, size - 1)
    }

    /// A queue ends with the key, and begins as before, or else with it. There is room for it.
    pub fn put(&mut self, queue: Queue, key: usize)
        requires room { 1 ≤ self.old.spare }
        requires count { count_in self.old.sizes queue.ctx < 2 ^ 64 - 1 }
        ensures each { (q : Named) → ends_at self.new.entries q ≡ (if same_queue queue q then extended key (ends_at self.old.entries q) else ends_at self.old.entries q) }
        ensures sizes { (c : ℕ) → count_in self.new.sizes c ≤ count_in self.old.sizes c + 1 }
        ensures spare { self.old.spare ≤ self.new.spare + 1 }
    {
        if self.ends(&queue).is_some() {
            end_with(&mut self.entries, &queue, key);
            return;
        }
        let place = self.sizes.of(queue.ctx);
        let ends = Ends {
            first: key,
            last: key,
        };
        self.entries.insert(queue, Entry { ends, place }).unwrap();
        let ctx = queue.ctx;
        self.places.insert(Place { ctx, place }, queue).unwrap();
        self.sizes.raise(ctx);
    }

    /// A queue begins with the next, and without one it goes.
    pub fn take(&mut self, queue: &Queue, next: Option<usize>)
        ensures each { (q : Named) → ends_at self.new.entries q ≡ (if same_queue queue.now q then ended next (ends_at self.old.entries q) else ends_at self.old.entries q) }
        ensures sizes { (c : ℕ) → count_in self.new.sizes c ≤ count_in self.old.sizes c }
        ensures spare { self.old.spare ≤ self.new.spare }
    {
        match next {
            Some(next) => begin_with(&mut self.entries, queue, next),
            None => self.remove(queue),
        }
    }

    // The last queue of the context comes to the place of the one that goes.
    fn remove(&mut self, queue: &Queue)
        ensures each { (q : Named) → ends_at self.new.entries q ≡ (if same_queue queue.now q then None else ends_at self.old.entries q) }
        ensures sizes { (c : ℕ) → count_in self.new.sizes c ≤ count_in self.old.sizes c }
        ensures spare { self.old.spare ≤ self.new.spare }
    {
        let ctx = queue.ctx;
        if let Some(entry) = self.entries.swap_remove(queue) {
            let last = self.sizes.of(ctx) - 1;
            let moved = self
                .places
                .swap_remove(&Place { ctx, place: last })
                .unwrap();
            let place = entry.place;
            replace(&mut self.places, Place { ctx, place }, moved);
            settle(&mut self.entries, &moved, place);
            self.sizes.lower(ctx);
        }
    }
}
