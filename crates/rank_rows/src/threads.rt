//! The threads of a rank.
ghost use Rattle.std.specs.Prelude.{◌≡◌, ◌<◌, ◌+◌, ◌-◌, ◌^◌, ◌==◌, ◌↔◌, ◌&&◌, length, nat_lt, get_or, set, replicate, IsSome, IfSome, IfOk};
ghost use Rattle.mpi_base.specs.Keys.{same_key};
ghost use Rattle.mpi_law.specs.declared.setting.TheConstants.{THREADS};
ghost use Rattle.mpi_protocol.specs.Rank.{idle_thread, is_idle as is_idle_so, has_open as has_open_in, session_of as session_among, with_key};

use crate::waits::{creates_key, creates_of, creates_under, go_on, is_nothing, session_in};
use mpi_base::{Key, OutOfMemory};
use mpi_law::THREADS;
use mpi_protocol::{ThreadRow, Waits};
use std::alloc::Global;
use std::marker::Model;
use std::mem;

/// The threads of a rank, [`THREADS`] of them, numbered from 0: how many operations each has called,
/// and what it waits for. All of it is this project's own.
#[derive(Drop)]
pub struct Threads {
    rows: Vec<ThreadRow>,
}

impl Model for Threads {
    ghost use Rattle.std.specs.Prelude.{◌≡◌, List, length};
    ghost use Rattle.mpi_law.specs.declared.setting.TheConstants.{THREADS};
    ghost use Rattle.mpi_protocol.specs.declared.rows.ThreadRow.{ThreadRow};

    ghost Value = { List ThreadRow };

    ghost view = { λ s. s.rows.items };

    ghost invariant = { λ s. length s.rows.items ≡ THREADS };
}

/// The creation of a key goes on in each row that waits for it.
fn rows_go_on(rows: &mut [ThreadRow], key: &Key, next: &Option<Key>)
    ensures { rows.new ≡ with_key rows.old key.now next.now }
{
    for row in rows {
        go_on(&mut row.waits, key, next);
    }
}

impl Threads {
    /// Threads that have called nothing, and wait for nothing.
    pub fn idle(alloc: Global) -> Result<Threads, OutOfMemory>
        ensures { IfOk result (λ s. s ≡ replicate THREADS idle_thread) }
    {
        let mut rows = Vec::new(alloc);
        for _ in 0..THREADS {
            rows.push(ThreadRow {
                calls: 0,
                waits: Waits::Nothing,
            })?;
        }
        Ok(Threads { rows })
    }

    /// A thread; None exactly where the number is at least [`THREADS`].
    pub fn get(&self, thread: u8) -> Option<&ThreadRow>
        ensures there { IsSome result ↔ (thread < THREADS) }
        ensures row { IfSome result (λ row. row.now ≡ get_or self.now thread idle_thread) }
        ensures form { length self.now ≡ THREADS }
    {
        self.rows.get(thread as usize)
    }

    /// How many operations a thread has called.
    pub fn calls(&self, thread: u8) -> u64
        requires { thread < THREADS }
        ensures { result ≡ (get_or self.now thread idle_thread).calls }
    {
        self.rows[thread as usize].calls
    }

    /// Whether there is a thread with this number, and it waits for nothing.
    pub fn is_idle(&self, thread: u8) -> bool
        ensures { result ≡ (nat_lt thread THREADS && is_idle_so (get_or self.now thread idle_thread).waits) }
    {
        match self.get(thread) {
            Some(row) => is_nothing(&row.waits),
            None => false,
        }
    }

    /// A thread has called one operation more, and waits for this. It has called fewer than the greatest
    /// `u64`.
    pub fn call(&mut self, thread: u8, waits: Waits)
        requires thread { thread < THREADS }
        requires count { (get_or self.old thread idle_thread).calls < 2 ^ 64 - 1 }
        ensures { self.new ≡ set self.old thread (record { calls = (get_or self.old thread idle_thread).calls + 1; waits = waits }) }
    {
        let row = &mut self.rows[thread as usize];
        row.calls += 1;
        row.waits = waits;
    }

    /// Gives what a thread waits for, and lets it wait for nothing.
    pub fn take_waits(&mut self, thread: u8) -> Waits
        requires { thread < THREADS }
        ensures waits { result ≡ (get_or self.old thread idle_thread).waits }
        ensures rows { self.new ≡ set self.old thread (record { calls = (get_or self.old thread idle_thread).calls; waits = Waits.Nothing }) }
    {
        let row = &mut self.rows[thread as usize];
        mem::replace(&mut row.waits, Waits::Nothing)
    }

    /// Whether a creation of this key is open: a thread waits for it.
    pub fn has_open(&self, key: &Key) -> bool
        ensures { result ≡ has_open_in self.now (λ k session. same_key k key.now) }
    {
        self.rows.iter().any(|row| creates_key(&row.waits, key))
    }

    /// Whether a creation is open under the communicator with this context.
    pub fn has_open_under(&self, ctx: u16) -> bool
        ensures { result ≡ has_open_in self.now (λ k session. k.parent == ctx) }
    {
        self.rows.iter().any(|row| creates_under(&row.waits, ctx))
    }

    /// Whether a creation of this session is open.
    pub fn has_open_of(&self, session: u64) -> bool
        ensures { result ≡ has_open_in self.now (λ k s. s == session) }
    {
        self.rows.iter().any(|row| creates_of(&row.waits, session))
    }

    /// The session of the open creation of this key; 0 where none is open.
    pub fn session_of(&self, key: &Key) -> u64
        ensures { result ≡ session_among self.now key.now }
    {
        match self.rows.iter().find(|row| creates_key(&row.waits, key)) {
            Some(row) => session_in(&row.waits),
            None => 0,
        }
    }

    /// The creation of a key goes on under the next key, or without a colour where there is none. All
    /// other threads stay.
    pub fn go_on(&mut self, key: &Key, next: Option<Key>)
        ensures { self.new ≡ with_key self.old key.now next }
    {
        rows_go_on(&mut self.rows, key, &next);
    }
}
