//! What the queues are made of.
use crate::queue::Queue;

/// What waits in a queue.
#[derive(Drop)]
pub(crate) struct Node<T> {
    /// Its number of arrival, from 1.
    pub number: u64,
    /// Its queue.
    pub queue: Queue,
    /// The message or the receive.
    pub item: T,
    /// The slab's key of the next one in its queue.
    pub next: Option<usize>,
}

/// Where a queue begins and ends: the slab's keys of the first and the last in it.
#[derive(Clone, Copy, Drop)]
pub struct Ends {
    /// The first.
    pub first: usize,
    /// The last.
    pub last: usize,
}

/// What is noted of a queue.
#[derive(Clone, Copy, Drop)]
pub(crate) struct Entry {
    /// Where it begins and ends.
    pub ends: Ends,
    /// Its place among the queues of its context, from 0.
    pub place: u64,
}

/// A place among the queues of a context.
#[derive(Clone, Copy, Drop, PartialEq, Eq, Hash)]
pub(crate) struct Place {
    /// The context.
    pub ctx: u16,
    /// The place, from 0.
    pub place: u64,
}

/// The first of a queue: its number of arrival, and the queue.
#[derive(Clone, Copy, Drop)]
pub struct Head {
    /// The number.
    pub number: u64,
    /// The queue.
    pub queue: Queue,
}
