//! Queues between ranks.
ghost use Rattle.std.specs.Prelude.{◌≡◌, ◌+◌, ◌-◌, ◌*◌, ◌^◌, ◌<◌, ◌≤◌, [], map, min, replicate, slice_get, IfOk, OnOk};
ghost use Rattle.std.specs.Option.{option_copied};
ghost use Rattle.std.specs.VecDeque.{deque_items};
ghost use Rattle.link_net.specs.Net.{link, room, in_flight, pushed, popped, IsNet, HasRoom, KeepsRoom};

use mpi_base::OutOfMemory;
use std::alloc::{AllocError, Global};
use std::collections::VecDeque;
use std::marker::Model;

/// The links between the ranks of a job, one from each rank to each, itself too. What is pushed first
/// is popped first. A push takes no memory: [`Links::reserve`] makes the room for it.
#[derive(Drop)]
pub struct Links<T> {
    ranks: u16,
    queues: Vec<VecDeque<T>>,
}

impl<T> Model for Links<T> {
    ghost use Rattle.link_net.specs.Net.{Net, IsNet, net_code};
    ghost use Rattle.link_net.specs.Queues.{net_of};

    ghost Value = { Net T };

    ghost coded = { net_code T.code };

    ghost view = { λ s. net_of s.ranks s.queues.items };

    ghost invariant = { λ s. IsNet (net_of s.ranks s.queues.items) };
}

/// Where the queue of a link stands.
fn place_of(ranks: u16, from: u16, to: u16) -> usize
    requires from { from < ranks }
    requires to { to < ranks }
    ensures value { result ≡ ranks * from + to }
    ensures below { result < ranks * ranks }
{
    ranks as usize * from as usize + to as usize
}

/// As many empty queues.
fn empty_queues<T>(alloc: Global, places: usize) -> Result<Vec<VecDeque<T>>, AllocError>
    ensures { IfOk result (λ queues. map deque_items queues.items ≡ replicate places []) }
{
    let mut queues = Vec::with_capacity(alloc, places)?;
    for _place in 0..places {
        queues.push_reserved(VecDeque::new(alloc));
    }
    Ok(queues)
}

impl<T> Links<T> {
    /// The links of a job with so many ranks, with nothing on them.
    pub fn start(alloc: Global, ranks: u16) -> Result<Links<T>, OutOfMemory>
        ensures ranks { IfOk result (λ net. net.ranks ≡ ranks) }
        ensures links { IfOk result (λ net. net.links ≡ replicate (ranks * ranks) []) }
    {
        let queues = empty_queues(alloc, ranks as usize * ranks as usize)?;
        Ok(Links { ranks, queues })
    }

    /// Makes room for so many more on each link of a rank. What is on the links stays, and no link loses
    /// room, whatever it answers.
    pub fn reserve(&mut self, from: u16, more: usize) -> Result<(), OutOfMemory>
        requires from { from < self.old.ranks }
        ensures ok { OnOk result (HasRoom self.new from more) }
        ensures ranks { self.new.ranks ≡ self.old.ranks }
        ensures links { self.new.links ≡ self.old.links }
        ensures room { KeepsRoom self.old self.new }
    {
        for to in 0..self.ranks {
            self.make_room(from, to, more)?;
        }
        Ok(())
    }

    /// Makes room for so many more on one link.
    fn make_room(&mut self, from: u16, to: u16, more: usize) -> Result<(), AllocError>
        requires from { from < self.old.ranks }
        requires to { to < self.old.ranks }
        ensures ok { OnOk result (more ≤ room self.new from to) }
        ensures ranks { self.new.ranks ≡ self.old.ranks }
        ensures links { self.new.links ≡ self.old.links }
        ensures room { KeepsRoom self.old self.new }
    {
        self.queues[place_of(self.ranks, from, to)].reserve(more)
    }

    /// The first item on a link; None exactly where there is none.
    pub fn head(&self, from: u16, to: u16) -> Option<&T>
        requires from { from < self.now.ranks }
        requires to { to < self.now.ranks }
        ensures { option_copied result ≡ slice_get (link self.now from to) 0 }
    {
        self.queues[place_of(self.ranks, from, to)].front()
    }

    /// Takes the first item off a link; None, with nothing changed, exactly where there is none. It
    /// leaves room for one more on the link.
    pub fn pop(&mut self, from: u16, to: u16) -> Option<T>
        requires from { from < self.old.ranks }
        requires to { to < self.old.ranks }
        ensures value { result ≡ slice_get (link self.old from to) 0 }
        ensures after { self.new ≡ popped self.old from to }
    {
        self.queues[place_of(self.ranks, from, to)].pop_front()
    }

    /// Puts an item at the end of a link, which has room for it, and takes one of that room.
    pub fn push(&mut self, from: u16, to: u16, item: T)
        requires from { from < self.old.ranks }
        requires to { to < self.old.ranks }
        requires room { 1 ≤ room self.old from to }
        ensures after { self.new ≡ pushed self.old from to item }
    {
        self.queues[place_of(self.ranks, from, to)].push_back_reserved(item);
    }

    /// How many items there are on all links, at most the greatest `u64`.
    pub fn in_flight(&self) -> u64
        ensures value { result ≡ min (in_flight self.now) (2 ^ 64 - 1) }
        ensures form { IsNet self.now }
    {
        let mut count: u64 = 0;
        for queue in self.queues.iter() {
            count = count.saturating_add(queue.len() as u64);
        }
        count
    }
}
