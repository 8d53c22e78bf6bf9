//! The ranks of the registry.
ghost use Rattle.std.specs.Prelude.{◌≡◌, ◌<◌, ◌↔◌, ◌&&◌, not, true, length, nat_lt, get_or, set, replicate, IsSome, IfSome, IfNone, IfOk, OnOk, ℕ};
ghost use Rattle.std.specs.List.{list_all};
ghost use Rattle.local_law.specs.Names.{bound_of, rebind, unbind as without};
ghost use Rattle.local_law.specs.Objects as objects;
ghost use Rattle.mpi_law.specs.declared.setting.TheConstants.{THREADS};
ghost use Rattle.mpi_law.specs.Local.Objects.{with_names, is_bound as is_bound_to};
ghost use Rattle.mpi_law.specs.Registry.Replies.{with_local};
ghost use Rattle.mpi_law.specs.Registry.State as registry;
ghost use Rattle.mpi_law.specs.Registry.State.{blank_part, created_by, idle_thread, is_idle_wait, is_within_call, with_wait};
ghost use Rattle.central_ranks.specs.Effects.{BindsFree};
ghost use Rattle.central_ranks.specs.Parts.{HasRoom, part_at, part_called, thread_at};
ghost use Rattle.central_ranks.specs.Waits.{wait_of};

use crate::part::Part;
use crate::threads::Thread;
use crate::wait::Wait;
use bind_tab::{Bound, Objects};
use mpi_base::{Name, OutOfMemory};
use mpi_law::{Effect, THREADS};
use std::alloc::Global;
use std::marker::Model;

/// What the registry keeps of each rank, numbered from 0: its names and sessions, its threads, and how
/// many messages it has sent and receives it has posted. Each rank has [`THREADS`] threads, numbered from
/// 0. All of it is this project's own.
///
/// A call needs room, which [`Ranks::reserve`] makes; then it takes no memory and cannot fail.
#[derive(Drop)]
pub struct Ranks {
    parts: Vec<Part>,
}

impl Model for Ranks {
    ghost use Rattle.std.specs.Prelude.{map};
    ghost use Rattle.central_ranks.specs.Parts.{AreParts, RanksHeld};

    ghost Value = { RanksHeld };

    ghost view = { λ s. record { parts = map (λ h. h.part) s.parts.items; spares = map (λ h. h.spare) s.parts.items } };

    ghost invariant = { λ s. AreParts (map (λ h. h.part) s.parts.items) };
}

impl Ranks {
    /// Ranks that have called nothing.
    pub fn start(alloc: Global, ranks: u16) -> Result<Ranks, OutOfMemory>
        ensures { IfOk result (λ s. s.parts ≡ replicate ranks blank_part) }
    {
        let mut parts = Vec::new(alloc);
        for _ in 0..ranks {
            parts.push(Part::blank(alloc)?)?;
        }
        Ok(Ranks { parts })
    }

    /// How many ranks there are. Each has [`THREADS`] threads, none of which is within a call.
    pub fn count(&self) -> usize
        ensures count { result ≡ length self.now.parts }
        ensures threads { (r : ℕ) → length (part_at self.now r).threads ≡ THREADS }
        ensures between { list_all (λ p. list_all (λ t. not (is_within_call t.wait)) p.threads) self.now.parts ≡ true }
    {
        self.parts.len()
    }

    /// A rank's part; None exactly where there is no such rank.
    fn part(&self, rank: u16) -> Option<&Part>
        ensures there { IsSome result ↔ (rank < length self.now.parts) }
        ensures part { IfSome result (λ p. p.now.part ≡ part_at self.now rank) }
    {
        self.parts.get(rank as usize)
    }

    /// A thread of a rank; None exactly where there is no such rank or no such thread.
    fn thread(&self, rank: u16, thread: u8) -> Option<&Thread>
        ensures there { IsSome result ↔ ((rank < length self.now.parts) × (thread < THREADS)) }
        ensures thread { IfSome result (λ t. t.now ≡ thread_at self.now rank thread) }
        ensures none { IfNone result (thread_at self.now rank thread ≡ idle_thread) }
    {
        self.part(rank)?.threads().get(thread)
    }

    /// Whether there is a rank and a thread with these numbers, and the thread waits for nothing.
    pub fn is_idle(&self, rank: u16, thread: u8) -> bool
        ensures { result ≡ (nat_lt rank (length self.now.parts) && (nat_lt thread THREADS && is_idle_wait (thread_at self.now rank thread).wait)) }
    {
        match self.thread(rank, thread) {
            Some(row) => row.wait().is_idle(),
            None => false,
        }
    }

    /// What a thread waits for; None exactly where there is no such rank or no such thread.
    pub fn wait(&self, rank: u16, thread: u8) -> Option<&Wait>
        ensures there { IsSome result ↔ ((rank < length self.now.parts) × (thread < THREADS)) }
        ensures wait { IfSome result (λ w. wait_of w.now ≡ (thread_at self.now rank thread).wait) }
        ensures none { IfNone result ((thread_at self.now rank thread).wait ≡ registry.Idle) }
    {
        Some(self.thread(rank, thread)?.wait())
    }

    /// A rank's names and sessions; None exactly where there is no such rank.
    pub fn objects(&self, rank: u16) -> Option<&Objects>
        ensures there { IsSome result ↔ (rank < length self.now.parts) }
        ensures local { IfSome result (λ o. o.now.local ≡ (part_at self.now rank).local) }
    {
        Some(self.part(rank)?.objects())
    }

    /// How many operations a thread has called; 0 where there is no such rank or no such thread.
    pub fn calls(&self, rank: u16, thread: u8) -> u64
        ensures { result ≡ (thread_at self.now rank thread).calls }
    {
        match self.thread(rank, thread) {
            Some(row) => row.calls(),
            None => 0,
        }
    }

    /// How many messages a rank has sent; 0 where there is no such rank.
    pub fn sends(&self, rank: u16) -> u64
        ensures { result ≡ (part_at self.now rank).sends }
    {
        match self.part(rank) {
            Some(part) => part.sends(),
            None => 0,
        }
    }

    /// How many receives a rank has posted; 0 where there is no such rank.
    pub fn receives(&self, rank: u16) -> u64
        ensures { result ≡ (part_at self.now rank).receives }
    {
        match self.part(rank) {
            Some(part) => part.receives(),
            None => 0,
        }
    }

    /// The creation that a thread waits for, by its place; None where it waits for none, and where there is
    /// no such rank or no such thread.
    pub fn created_by(&self, rank: u16, thread: u8) -> Option<usize>
        ensures { result ≡ created_by (thread_at self.now rank thread).wait }
    {
        self.thread(rank, thread)?.wait().created()
    }

    /// Whether a name of a rank is bound, and not merely reserved; false where there is no such rank.
    pub fn is_bound(&self, rank: u16, name: &Name) -> bool
        ensures { result ≡ is_bound_to (bound_of (part_at self.now rank).local.names name.now) }
    {
        match self.objects(rank) {
            Some(objects) => is_bound_in(objects, name),
            None => false,
        }
    }

    /// Makes room for one call of a rank; where there is no such rank there is nothing to do. What the
    /// registry keeps stays, whatever it answers. A count of the rank at the greatest `u64` is answered as
    /// want of memory.
    pub fn reserve(&mut self, rank: u16) -> Result<(), OutOfMemory>
        ensures same { self.new.parts ≡ self.old.parts }
        ensures ok { OnOk result ((rank < length self.old.parts) → HasRoom self.new rank) }
    {
        if (rank as usize) < self.parts.len() {
            return self.parts[rank as usize].reserve();
        }
        Ok(())
    }

    /// A thread calls what does this, and waits for that.
    ///
    /// There are such a rank and such a thread, the rank has room for the call, and the name that the call
    /// binds is neither bound nor reserved.
    pub fn call(&mut self, rank: u16, thread: u8, effect: Effect<u16>, wait: Wait)
        requires rank { rank < length self.old.parts }
        requires thread { thread < THREADS }
        requires room { HasRoom self.old rank }
        requires free { BindsFree (part_at self.old rank).local.names effect }
        ensures { self.new.parts ≡ set self.old.parts rank (part_called (part_at self.old rank) thread effect (wait_of wait)) }
    {
        self.parts[rank as usize].call(thread, effect, wait);
    }

    /// A thread waits for nothing; where there is no such rank or no such thread nothing changes.
    pub fn answer(&mut self, rank: u16, thread: u8)
        ensures { self.new.parts ≡ set self.old.parts rank (with_wait (part_at self.old rank) thread registry.Idle) }
    {
        if (rank as usize) < self.parts.len() {
            self.parts[rank as usize].answer(thread);
        }
    }

    /// Binds a name of a rank that is bound or reserved to the communicator at a place, which is of this
    /// session of the rank, from 1 (MPI 4.0, 7.4.2); without such a rank or such a name nothing changes.
    pub fn bind(&mut self, rank: u16, target: &Name, place: u16, session: u64)
        ensures { self.new.parts ≡ set self.old.parts rank (with_local (part_at self.old rank) (with_names (part_at self.old rank).local (rebind (part_at self.old rank).local.names target.now (objects.Comm place session)))) }
    {
        if (rank as usize) < self.parts.len() {
            self.parts[rank as usize].bind(target, place, session);
        }
    }

    /// Takes a name of a rank out; without such a rank or such a name nothing changes.
    pub fn unbind(&mut self, rank: u16, target: &Name)
        ensures { self.new.parts ≡ set self.old.parts rank (with_local (part_at self.old rank) (with_names (part_at self.old rank).local (without (part_at self.old rank).local.names target.now))) }
    {
        if (rank as usize) < self.parts.len() {
            self.parts[rank as usize].unbind(target);
        }
    }
}

/// Whether a name is bound, and not merely reserved.
fn is_bound_in(objects: &Objects, name: &Name) -> bool
    ensures { result ≡ is_bound_to (bound_of objects.now.local.names name.now) }
{
    match objects.find(name) {
        Some(Bound::Reserved) | None => false,
        Some(_) => true,
    }
}
