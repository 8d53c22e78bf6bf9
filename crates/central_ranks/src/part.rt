//! What the registry keeps of one rank.
ghost use Rattle.std.specs.Prelude.{◌≡◌, ◌<◌, ◌≤◌, true, IfOk, OnOk};
ghost use Rattle.local_law.specs.Names.{rebind, unbind};
ghost use Rattle.local_law.specs.Objects as objects;
ghost use Rattle.mpi_law.specs.declared.setting.TheConstants.{THREADS};
ghost use Rattle.mpi_law.specs.Local.Objects.{with_names};
ghost use Rattle.mpi_law.specs.Registry.Replies.{with_local};
ghost use Rattle.mpi_law.specs.Registry.State as registry;
ghost use Rattle.mpi_law.specs.Registry.State.{blank_part, with_wait};
ghost use Rattle.central_ranks.specs.Effects.{BindsFree};
ghost use Rattle.central_ranks.specs.Parts.{AreThreads, counts_can_rise, part_called};
ghost use Rattle.central_ranks.specs.Waits.{wait_of};

use crate::effects::{carry_out, posts_after, sends_after};
use crate::threads::Threads;
use crate::wait::Wait;
use bind_tab::{Bound, Objects};
use mpi_base::{Name, OutOfMemory};
use mpi_law::Effect;
use std::alloc::Global;
use std::marker::Model;

/// One rank: its names and sessions, its threads, and how many messages it has sent and receives it has
/// posted.
#[derive(Drop)]
pub(crate) struct Part {
    objects: Objects,
    threads: Threads,
    sends: u64,
    receives: u64,
}

impl Model for Part {
    ghost use Rattle.central_ranks.specs.Parts.{PartHeld};

    ghost Value = { PartHeld };

    ghost view = { λ p. record {
      part = record { local = p.objects.local; threads = p.threads; sends = p.sends; receives = p.receives };
      spare = p.objects.spare;
    } };
}

impl Part {
    /// A rank that has called nothing.
    pub(crate) fn blank(alloc: Global) -> Result<Part, OutOfMemory>
        ensures { IfOk result (λ p. p.part ≡ blank_part) }
    {
        let threads = Threads::idle(alloc)?;
        Ok(Part {
            objects: Objects::none(alloc),
            threads,
            sends: 0,
            receives: 0,
        })
    }

    /// The names and sessions.
    pub(crate) fn objects(&self) -> &Objects
        ensures { result.now.local ≡ self.now.part.local }
    {
        &self.objects
    }

    /// The threads.
    pub(crate) fn threads(&self) -> &Threads
        ensures { result.now ≡ self.now.part.threads }
    {
        &self.threads
    }

    /// How many messages the rank has sent.
    pub(crate) fn sends(&self) -> u64
        ensures { result ≡ self.now.part.sends }
    {
        self.sends
    }

    /// How many receives the rank has posted.
    pub(crate) fn receives(&self) -> u64
        ensures { result ≡ self.now.part.receives }
    {
        self.receives
    }

    /// Whether no count is at its end.
    fn can_call(&self) -> bool
        ensures { result ≡ counts_can_rise self.now.part }
    {
        self.sends < u64::MAX
            && self.receives < u64::MAX
            && self.objects.opened() < u64::MAX
            && self.threads.can_call()
    }

    /// Makes room for one name and one session more. A count at its end is answered as want of memory.
    pub(crate) fn reserve(&mut self) -> Result<(), OutOfMemory>
        ensures same { self.new.part ≡ self.old.part }
        ensures spare { OnOk result (1 ≤ self.new.spare) }
        ensures counts { OnOk result (counts_can_rise self.new.part ≡ true) }
    {
        if !self.can_call() {
            return Err(OutOfMemory);
        }
        self.objects.reserve()
    }

    /// A thread calls what does this, and waits for that.
    pub(crate) fn call(&mut self, thread: u8, effect: Effect<u16>, wait: Wait)
        requires thread { thread < THREADS }
        requires room { 1 ≤ self.old.spare }
        requires counts { counts_can_rise self.old.part ≡ true }
        requires free { BindsFree self.old.part.local.names effect }
        ensures { self.new.part ≡ part_called self.old.part thread effect (wait_of wait) }
    {
        let receives = self.receives;
        self.sends = sends_after(self.sends, &effect);
        self.receives = posts_after(receives, &effect);
        carry_out(&mut self.objects, receives, effect);
        self.threads.call(thread, wait);
    }

    /// A thread waits for nothing; where there is no such thread nothing changes.
    pub(crate) fn answer(&mut self, thread: u8)
        ensures { self.new.part ≡ with_wait self.old.part thread registry.Idle }
    {
        self.threads.answer(thread);
    }

    /// Binds a name that is bound or reserved to a communicator; without such a name nothing changes.
    pub(crate) fn bind(&mut self, target: &Name, place: u16, session: u64)
        ensures { self.new.part ≡ with_local self.old.part (with_names self.old.part.local (rebind self.old.part.local.names target.now (objects.Comm place session))) }
    {
        self.objects.fill(target, Bound::Comm(place, session));
    }

    /// Takes a name out, if it is there.
    pub(crate) fn unbind(&mut self, target: &Name)
        ensures { self.new.part ≡ with_local self.old.part (with_names self.old.part.local (unbind self.old.part.local.names target.now)) }
    {
        self.objects.unbind(target);
    }
}
