//! Queues of what waits, in the order in which it came.
ghost use Rattle.std.specs.Prelude.{◌≡◌, ℕ, ◌<◌, ◌≤◌, ◌+◌, ◌-◌, ◌^◌, ◌∷◌, ◌++◌, [], option_map, find, filter, length, not, true, false, ◌==◌, IsSome, MatchOption, OnOk};
ghost use Rattle.slab.specs.Slab.{get, slab_len};
ghost use Rattle.match_box.specs.Nodes.{led};

use crate::counts::Counts;
use crate::heads::sooner;
use crate::index::Index;
use crate::node::{Ends, Head, Node};
use crate::queue::Queue;
use mpi_base::OutOfMemory;
use slab::Slab;
use std::alloc::Global;
use std::marker::Model;

/// What waits, each in its queue. Each has a number of arrival, which rises as they come.
#[derive(Drop)]
pub struct Queues<T> {
    nodes: Slab<Node<T>>,
    index: Index,
    waiting: Counts,
    // How many have come.
    count: u64,
}

impl<T> Model for Queues<T> {
    ghost use Rattle.std.specs.Prelude.{◌-◌};
    ghost use Rattle.slab.specs.Slab.{slab_len};
    ghost use Rattle.match_box.specs.Rows.{Table, table_code};
    ghost use Rattle.match_box.specs.Nodes.{nodes_in, rows_of, room, IsIndexed};

    ghost Value = { Table T };

    ghost coded = { table_code T.code };

    ghost view = { λ q. record {
      rows = rows_of (nodes_in q.nodes.slots q.count);
      count = q.count;
      spare = room (q.nodes.capacity - slab_len q.nodes) q.index.spare q.waiting.spare;
    } };

    ghost invariant = { λ q. IsIndexed q.nodes.slots q.index.entries q.index.sizes q.waiting.counts q.count };
}

/// The last node of a queue leads to the next; without a queue nothing changes.
fn lead<T>(nodes: &mut Slab<Node<T>>, ends: Option<Ends>, next: usize)
    ensures each { (k : ℕ) → get nodes.new k ≡ option_map (led ends next k) (get nodes.old k) }
    ensures vacant { nodes.new.vacant_key ≡ nodes.old.vacant_key }
    ensures capacity { nodes.new.capacity ≡ nodes.old.capacity }
    ensures len { slab_len nodes.new ≡ slab_len nodes.old }
{
    if let Some(ends) = ends {
        if let Some(node) = nodes.get_mut(ends.last) {
            node.next = Some(next);
        }
    }
}

impl<T> Queues<T> {
    ghost use Rattle.std.specs.Prelude.{◌≡◌, ℕ, ◌<◌, ◌≤◌, ◌+◌, ◌-◌, ◌^◌, ◌∷◌, ◌++◌, [], option_map, find, length, true, false, ◌==◌, IsSome, MatchOption, OnOk};
    ghost use Rattle.match_box.specs.Rows.{row, on, off, first_of, without_first_of, spot, same_queue, takes, AllOf, IsRising, sooner_in};

    /// Nothing waits, and nothing has come.
    pub fn none(alloc: Global) -> Queues<T>
        ensures rows { result.rows ≡ [] }
        ensures count { result.count ≡ 0 }
    {
        Queues {
            nodes: Slab::new(alloc),
            index: Index::none(alloc),
            waiting: Counts::none(alloc),
            count: 0,
        }
    }

    /// Makes room for one more. What waits stays, whatever it answers.
    pub fn reserve(&mut self) -> Result<(), OutOfMemory>
        ensures ok { OnOk result (1 ≤ self.new.spare) }
        ensures rows { self.new.rows ≡ self.old.rows }
        ensures count { self.new.count ≡ self.old.count }
        ensures spare { self.old.spare ≤ self.new.spare }
    {
        self.nodes.reserve(1)?;
        self.index.reserve()?;
        self.waiting.reserve()?;
        Ok(())
    }

    /// The first of a queue; None exactly where the queue is empty.
    pub fn head(&self, queue: &Queue) -> Option<Head>
        ensures value { result ≡ spot (λ q. same_queue queue.now q) self.now.rows }
        ensures form { IsRising self.now.rows }
    {
        let ends = self.index.ends(queue)?;
        let node = &self.nodes[ends.first];
        Some(Head {
            number: node.number,
            queue: *queue,
        })
    }

    /// Puts one more at the end of its queue. There is room for it, and fewer than the greatest `u64`
    /// have come before.
    pub fn push(&mut self, queue: Queue, item: T)
        requires room { 1 ≤ self.old.spare }
        requires count { self.old.count < 2 ^ 64 - 1 }
        ensures rows { self.new.rows ≡ self.old.rows ++ row (self.old.count + 1) queue item ∷ [] }
        ensures count { self.new.count ≡ self.old.count + 1 }
        ensures spare { self.old.spare ≤ self.new.spare + 1 }
    {
        let number = self.count + 1;
        let key = self.nodes.vacant_key();
        lead(&mut self.nodes, self.index.ends(&queue), key);
        self.nodes.insert_reserved(Node {
            number,
            queue,
            item,
            next: None,
        });
        self.index.put(queue, key);
        self.waiting.raise(queue.ctx);
        self.count = number;
    }

    /// Takes out the first of a queue; None exactly where the queue is empty.
    pub fn take(&mut self, queue: &Queue) -> Option<T>
        ensures item { result ≡ option_map (λ r. r.item) (first_of queue.now self.old.rows) }
        ensures rows { self.new.rows ≡ without_first_of queue.now self.old.rows }
        ensures count { self.new.count ≡ self.old.count }
        ensures spare { self.old.spare ≤ self.new.spare }
    {
        let ends = self.index.ends(queue)?;
        let node = self.nodes.remove(ends.first);
        self.index.take(queue, node.next);
        self.waiting.lower(queue.ctx);
        Some(node.item)
    }

    /// How many wait on a context.
    pub fn waiting(&self, ctx: u16) -> u64
        ensures { result ≡ length (on ctx self.now.rows) }
    {
        self.waiting.of(ctx)
    }

    /// Some queue of a context; None exactly where nothing waits on it.
    pub fn queue_on(&self, ctx: u16) -> Option<Queue>
        ensures { MatchOption result (AllOf (λ r. (r.queue.ctx == ctx) ≡ false) self.now.rows) (λ q. ((q.ctx == ctx) ≡ true) × IsSome (first_of q self.now.rows)) }
    {
        self.index.last_on(ctx)
    }

    /// Drops what waits on a context, and gives how many. All else stays.
    pub fn drop_ctx(&mut self, ctx: u16) -> u64
    where
        T: Drop,
        ensures count { result ≡ length (on ctx self.old.rows) }
        ensures rows { self.new.rows ≡ off ctx self.old.rows }
        ensures come { self.new.count ≡ self.old.count }
        ensures spare { self.old.spare ≤ self.new.spare }
    {
        let dropped = self.waiting(ctx);
        while let Some(queue) = self.queue_on(ctx) {
            self.take(&queue);
        }
        dropped
    }

    /// The first that may take what waits in a queue; None exactly where there is none. It looks at
    /// the heads of four queues.
    pub fn earliest_for(&self, queue: &Queue) -> Option<Head>
        ensures { result ≡ spot (λ q. takes q queue.now) self.now.rows }
    {
        let any_source = Queue {
            ctx: queue.ctx,
            lane: queue.lane,
            source: None,
            tag: queue.tag,
        };
        let any_tag = Queue {
            ctx: queue.ctx,
            lane: queue.lane,
            source: queue.source,
            tag: None,
        };
        let any = Queue {
            ctx: queue.ctx,
            lane: queue.lane,
            source: None,
            tag: None,
        };
        let exact = sooner(self.head(queue), self.head(&any_source));
        sooner(exact, sooner(self.head(&any_tag), self.head(&any)))
    }

    /// The first that what waits in a queue may take; None exactly where there is none. It looks at
    /// one queue where source and tag are named, and else at those of its context.
    pub fn earliest_of(&self, wanted: &Queue) -> Option<Head>
        ensures { result ≡ spot (λ q. takes wanted.now q) self.now.rows }
    {
        if wanted.source.is_some() && wanted.tag.is_some() {
            self.head(wanted)
        } else {
            self.scan(wanted)
        }
    }

    fn scan(&self, wanted: &Queue) -> Option<Head>
        ensures { result ≡ spot (λ q. takes wanted.now q) self.now.rows }
    {
        let mut best = None;
        for place in 0..self.index.size(wanted.ctx) {
            best = self.sooner_in(wanted, best, self.index.at(wanted.ctx, place));
        }
        best
    }

    // The sooner of this one and the first of a queue, if that queue is wanted.
    fn sooner_in(&self, wanted: &Queue, best: Option<Head>, queue: Option<Queue>) -> Option<Head>
        ensures { result ≡ sooner_in wanted.now self.now.rows best queue }
    {
        match queue {
            Some(queue) if wanted.takes(&queue) => sooner(best, self.head(&queue)),
            _ => best,
        }
    }
}
