//! A source over bytes in memory.
ghost use Rattle.std.specs.Prelude.{◌≡◌, ◌≤◌, min, length, take, drop, Some, is_err, IfOk, OnOk, OnErr};
ghost use Rattle.io_edge.specs.Counts.{Rose};
ghost use Rattle.io_edge.specs.InMemory.{next_count, names_call};
ghost use Rattle.io_edge.specs.Source.{Gives, EndsAtNothing};

use crate::filling::fill;
use crate::plan::FaultPlan;
use crate::traits::{Failed, Source};
use std::marker::Model;

/// A source over bytes in memory, which gives them in pieces and fails at the calls that it is told to.
///
/// It counts its calls from 1. The counts of calls and of faults stand at the last value of a `u64`.
#[derive(Drop)]
pub struct MemorySource {
    bytes: Vec<u8>,
    given: usize,
    piece: usize,
    plan: FaultPlan,
}

impl Model for MemorySource {
    ghost use Rattle.std.specs.Prelude.{◌≤◌, length, drop};
    ghost use Rattle.io_edge.specs.States.{MemorySourceState};

    ghost Value = { MemorySourceState };

    ghost view = { λ s. record {
      left = drop s.given s.bytes.items;
      piece = s.piece;
      fails = s.plan.fails.items;
      calls = s.plan.calls;
      faults = s.plan.faults;
    } };

    ghost invariant = { λ s. (s.given ≤ length s.bytes.items) × (1 ≤ s.piece) };
}

impl MemorySource {
    /// A source of these bytes that gives at most `piece` bytes a read, and fails at the calls whose
    /// numbers stand in `fails`.
    pub fn new(bytes: Vec<u8>, piece: usize, fails: Vec<u64>) -> MemorySource
        requires { 1 ≤ piece }
        ensures { result ≡ record { left = bytes.items; piece = piece; fails = fails.items; calls = 0; faults = 0 } }
    {
        MemorySource {
            bytes,
            given: 0,
            piece,
            plan: FaultPlan::new(fails),
        }
    }

    /// How many faults it has counted.
    pub fn fault_count(&self) -> u64
        ensures { result ≡ self.now.faults }
    {
        self.plan.faults
    }
}

impl Source for MemorySource {
    ghost left = { λ s. Some s.left };

    ghost faults = { λ s. s.faults };

    fn read(&mut self, buf: &mut [u8]) -> Result<usize, Failed>
        ensures bound { IfOk result (λ n. n ≤ length buf.old) }
        ensures bytes { IfOk result (λ n. Gives (Some self.old.left) (take n buf.new) (Some self.new.left)) }
        ensures end { IfOk result (EndsAtNothing buf.old (Some self.old.left)) }
        ensures same_count { OnOk result (self.new.faults ≡ self.old.faults) }
        ensures failed { OnErr result (Rose self.old.faults self.new.faults) }
        ensures never_falls { self.old.faults ≤ self.new.faults }
        ensures failing { is_err result ≡ names_call self.old.fails self.new.calls }
        ensures calls { self.new.calls ≡ next_count self.old.calls }
        ensures count { IfOk result (λ n. n ≡ min self.old.piece (min (length buf.old) (length self.old.left))) }
        ensures beyond { IfOk result (λ n. drop n buf.new ≡ drop n buf.old) }
        ensures next_fault { OnErr result (self.new.faults ≡ next_count self.old.faults) }
        ensures nothing_lost { OnErr result (self.new.left ≡ self.old.left) }
        ensures nothing_given { OnErr result (buf.new ≡ buf.old) }
        ensures same_piece { self.new.piece ≡ self.old.piece }
        ensures same_fails { self.new.fails ≡ self.old.fails }
    {
        self.plan.begin()?;
        let count = fill(&self.bytes[self.given..], self.piece, buf);
        self.given += count;
        Ok(count)
    }
}
