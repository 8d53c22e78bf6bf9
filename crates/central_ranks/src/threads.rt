//! The threads of a rank.
ghost use Rattle.std.specs.Prelude.{◌≡◌, ◌<◌, ◌+◌, ◌-◌, ◌^◌, ◌↔◌, get_or, set, replicate, IsSome, IfSome, IfOk};
ghost use Rattle.mpi_law.specs.declared.setting.TheConstants.{THREADS};
ghost use Rattle.mpi_law.specs.Registry.State as registry;
ghost use Rattle.mpi_law.specs.Registry.State.{idle_thread};
ghost use Rattle.central_ranks.specs.Parts.{AreThreads, threads_can_rise};
ghost use Rattle.central_ranks.specs.Waits.{wait_of};

use crate::wait::Wait;
use mpi_base::OutOfMemory;
use mpi_law::THREADS;
use std::alloc::Global;
use std::marker::Model;

/// A thread: how many operations it has called, and what it waits for.
#[derive(Drop)]
pub(crate) struct Thread {
    calls: u64,
    wait: Wait,
}

impl Model for Thread {
    ghost use Rattle.mpi_law.specs.Registry.State.{ThreadPart};
    ghost use Rattle.central_ranks.specs.Waits.{wait_of};

    ghost Value = { ThreadPart };

    ghost view = { λ s. record { calls = s.calls; wait = wait_of s.wait } };
}

impl Thread {
    /// How many operations it has called.
    pub(crate) fn calls(&self) -> u64
        ensures { result ≡ self.now.calls }
    {
        self.calls
    }

    /// What it waits for.
    pub(crate) fn wait(&self) -> &Wait
        ensures { wait_of result.now ≡ self.now.wait }
    {
        &self.wait
    }

    /// It waits for something else.
    fn set_wait(&mut self, wait: Wait)
        ensures { self.new ≡ record { calls = self.old.calls; wait = wait_of wait } }
    {
        self.wait = wait;
    }

    /// It has called one operation more, fewer than the greatest `u64` before, and waits for this.
    fn call(&mut self, wait: Wait)
        requires { self.old.calls < 2 ^ 64 - 1 }
        ensures { self.new ≡ record { calls = self.old.calls + 1; wait = wait_of wait } }
    {
        self.calls += 1;
        self.wait = wait;
    }
}

/// The threads of a rank, [`THREADS`] of them, numbered from 0.
#[derive(Drop)]
pub(crate) struct Threads {
    rows: Vec<Thread>,
}

impl Model for Threads {
    ghost use Rattle.std.specs.Prelude.{List};
    ghost use Rattle.mpi_law.specs.Registry.State.{ThreadPart};
    ghost use Rattle.central_ranks.specs.Parts.{AreThreads};

    ghost Value = { List ThreadPart };

    ghost view = { λ s. s.rows.items };

    ghost invariant = { λ s. AreThreads s.rows.items };
}

impl Threads {
    /// Threads that have called nothing, and wait for nothing.
    pub(crate) fn idle(alloc: Global) -> Result<Threads, OutOfMemory>
        ensures { IfOk result (λ s. s ≡ replicate THREADS idle_thread) }
    {
        let mut rows = Vec::new(alloc);
        for _ in 0..THREADS {
            rows.push(Thread {
                calls: 0,
                wait: Wait::Idle,
            })?;
        }
        Ok(Threads { rows })
    }

    /// A thread; None exactly where the number is at least [`THREADS`].
    pub(crate) fn get(&self, thread: u8) -> Option<&Thread>
        ensures there { IsSome result ↔ (thread < THREADS) }
        ensures row { IfSome result (λ row. row.now ≡ get_or self.now thread idle_thread) }
        ensures form { AreThreads self.now }
    {
        self.rows.get(thread as usize)
    }

    /// Whether no thread has called as many operations as the greatest `u64`.
    pub(crate) fn can_call(&self) -> bool
        ensures { result ≡ threads_can_rise self.now }
    {
        self.rows.iter().all(|row| row.calls < u64::MAX)
    }

    /// A thread has called one operation more, fewer than the greatest `u64` before, and waits for this.
    pub(crate) fn call(&mut self, thread: u8, wait: Wait)
        requires thread { thread < THREADS }
        requires count { (get_or self.old thread idle_thread).calls < 2 ^ 64 - 1 }
        ensures { self.new ≡ set self.old thread (record { calls = (get_or self.old thread idle_thread).calls + 1; wait = wait_of wait }) }
    {
        self.rows[thread as usize].call(wait);
    }

    /// A thread waits for nothing; where there is no such thread nothing changes.
    pub(crate) fn answer(&mut self, thread: u8)
        ensures { self.new ≡ set self.old thread (record { calls = (get_or self.old thread idle_thread).calls; wait = registry.Idle }) }
    {
        if thread < THREADS {
            self.rows[thread as usize].set_wait(Wait::Idle);
        }
    }
}
