//! A sink that keeps its bytes in memory.
ghost use Rattle.std.specs.Prelude.{◌≡◌, ◌≤◌, ◌-◌, ◌||◌, min, max, length, take, Some, is_ok, is_err, false, [], IsOk, IfOk, OnOk, OnErr};
ghost use Rattle.io_edge.specs.Counts.{Rose};
ghost use Rattle.io_edge.specs.InMemory.{next_count, names_call, lacks_room};
ghost use Rattle.io_edge.specs.Sink.{Takes, TakesFront, TakesSomething};

use crate::plan::FaultPlan;
use crate::traits::{Failed, Sink};
use mpi_base::OutOfMemory;
use std::alloc::Global;
use std::marker::Model;

/// A sink that keeps its bytes in memory, takes them in pieces, and fails at the calls that it is
/// told to and where its room is used up.
///
/// It counts its calls from 1, a write and a finish alike. The counts of calls and of faults stand at
/// the last value of a `u64`.
#[derive(Drop)]
pub struct MemorySink {
    bytes: Vec<u8>,
    room: usize,
    piece: usize,
    plan: FaultPlan,
    finished: bool,
}

impl Model for MemorySink {
    ghost use Rattle.std.specs.Prelude.{◌≤◌, ◌+◌, vec_len, vec_capacity};
    ghost use Rattle.io_edge.specs.States.{MemorySinkState};

    ghost Value = { MemorySinkState };

    ghost view = { λ s. record {
      written = s.bytes.items;
      room = s.room;
      piece = s.piece;
      fails = s.plan.fails.items;
      calls = s.plan.calls;
      faults = s.plan.faults;
      finished = s.finished;
    } };

    ghost invariant = { λ s. (vec_len s.bytes + s.room ≤ vec_capacity s.bytes) × (1 ≤ s.piece) };
}

impl MemorySink {
    /// A sink without room that takes at most `piece` bytes a write, and fails at the calls whose
    /// numbers stand in `fails`.
    pub fn new(alloc: Global, piece: usize, fails: Vec<u64>) -> MemorySink
        requires { 1 ≤ piece }
        ensures { result ≡ record { written = []; room = 0; piece = piece; fails = fails.items; calls = 0; faults = 0; finished = false } }
    {
        MemorySink {
            bytes: Vec::new(alloc),
            room: 0,
            piece,
            plan: FaultPlan::new(fails),
            finished: false,
        }
    }

    /// Makes room for at least so many bytes. It changes nothing where memory is out, which cannot be
    /// where the room is already there.
    pub fn reserve(&mut self, bytes: usize) -> Result<(), OutOfMemory>
        ensures made { OnOk result (self.new ≡ record self.old { room = max self.old.room bytes }) }
        ensures unchanged { OnErr result (self.new ≡ self.old) }
        ensures enough { bytes ≤ self.old.room → IsOk result }
    {
        self.bytes.reserve(bytes)?;
        self.room = self.room.max(bytes);
        Ok(())
    }

    /// What was written.
    pub fn bytes(&self) -> &[u8]
        ensures { result.now ≡ self.now.written }
    {
        self.bytes.as_slice()
    }

    /// How many faults it has counted.
    pub fn fault_count(&self) -> u64
        ensures { result ≡ self.now.faults }
    {
        self.plan.faults
    }

    /// Whether the last call was a finish that went well.
    pub fn is_finished(&self) -> bool
        ensures { result ≡ self.now.finished }
    {
        self.finished
    }
}

impl Sink for MemorySink {
    ghost written = { λ s. Some s.written };

    ghost faults = { λ s. s.faults };

    ghost finished = { λ s. s.finished };

    fn write(&mut self, piece: &[u8]) -> Result<usize, Failed>
        ensures bound { IfOk result (λ n. n ≤ length piece.now) }
        ensures bytes { IfOk result (λ n. Takes (Some self.old.written) (take n piece.now) (Some self.new.written)) }
        ensures something { IfOk result (TakesSomething piece.now) }
        ensures same_count { OnOk result (self.new.faults ≡ self.old.faults) }
        ensures failed { OnErr result (Rose self.old.faults self.new.faults) }
        ensures front { OnErr result (TakesFront (Some self.old.written) piece.now (Some self.new.written)) }
        ensures unfinished { self.new.finished ≡ false }
        ensures never_falls { self.old.faults ≤ self.new.faults }
        ensures failing { is_err result ≡ (names_call self.old.fails self.new.calls || lacks_room self.old.room piece.now) }
        ensures calls { self.new.calls ≡ next_count self.old.calls }
        ensures count { IfOk result (λ n. n ≡ min self.old.piece (min (length piece.now) self.old.room)) }
        ensures room { IfOk result (λ n. self.new.room ≡ self.old.room - n) }
        ensures next_fault { OnErr result (self.new.faults ≡ next_count self.old.faults) }
        ensures nothing_written { OnErr result (self.new.written ≡ self.old.written) }
        ensures same_room { OnErr result (self.new.room ≡ self.old.room) }
        ensures same_piece { self.new.piece ≡ self.old.piece }
        ensures same_fails { self.new.fails ≡ self.old.fails }
    {
        self.finished = false;
        self.plan.begin()?;
        let count = self.piece.min(piece.len().min(self.room));
        if count == 0 && !piece.is_empty() {
            return Err(self.plan.fail());
        }
        self.bytes.extend_from_slice(&piece[..count]).unwrap();
        self.room -= count;
        Ok(count)
    }

    fn finish(&mut self) -> Result<(), Failed>
        ensures bytes { self.new.written ≡ self.old.written }
        ensures finished { self.new.finished ≡ is_ok result }
        ensures same_count { OnOk result (self.new.faults ≡ self.old.faults) }
        ensures failed { OnErr result (Rose self.old.faults self.new.faults) }
        ensures never_falls { self.old.faults ≤ self.new.faults }
        ensures failing { is_err result ≡ names_call self.old.fails self.new.calls }
        ensures calls { self.new.calls ≡ next_count self.old.calls }
        ensures next_fault { OnErr result (self.new.faults ≡ next_count self.old.faults) }
        ensures same_room { self.new.room ≡ self.old.room }
        ensures same_piece { self.new.piece ≡ self.old.piece }
        ensures same_fails { self.new.fails ≡ self.old.fails }
    {
        self.finished = false;
        self.plan.begin()?;
        self.finished = true;
        Ok(())
    }
}
