//! A source and a sink that never fail.
ghost use Rattle.std.specs.Prelude.{◌≡◌, ◌≤◌, min, length, take, drop, true, false, Some, None, IsOk, IfOk};
ghost use Rattle.io_edge.specs.Source.{Gives, EndsAtNothing};

use crate::filling::fill;
use crate::traits::{Failed, Sink, Source};
use std::marker::Model;

/// A source over bytes in memory that gives them in pieces and never fails.
#[derive(Drop)]
pub struct SureSource {
    bytes: Vec<u8>,
    given: usize,
    piece: usize,
}

impl Model for SureSource {
    ghost use Rattle.std.specs.Prelude.{◌≤◌, length, drop};
    ghost use Rattle.io_edge.specs.States.{SureSourceState};

    ghost Value = { SureSourceState };

    ghost view = { λ s. record { left = drop s.given s.bytes.items; piece = s.piece } };

    ghost invariant = { λ s. (s.given ≤ length s.bytes.items) × (1 ≤ s.piece) };
}

impl SureSource {
    /// A source of these bytes that gives at most `piece` bytes a read.
    pub fn new(bytes: Vec<u8>, piece: usize) -> SureSource
        requires { 1 ≤ piece }
        ensures { result ≡ record { left = bytes.items; piece = piece } }
    {
        SureSource {
            bytes,
            given: 0,
            piece,
        }
    }
}

impl Source for SureSource {
    ghost left = { λ s. Some s.left };

    ghost faults = { λ _. 0 };

    fn read(&mut self, buf: &mut [u8]) -> Result<usize, Failed>
        ensures bound { IfOk result (λ n. n ≤ length buf.old) }
        ensures bytes { IfOk result (λ n. Gives (Some self.old.left) (take n buf.new) (Some self.new.left)) }
        ensures end { IfOk result (EndsAtNothing buf.old (Some self.old.left)) }
        ensures count { result ≡ Ok (min self.old.piece (min (length buf.old) (length self.old.left))) }
        ensures beyond { IfOk result (λ n. drop n buf.new ≡ drop n buf.old) }
        ensures same_piece { self.new.piece ≡ self.old.piece }
    {
        let count = fill(&self.bytes[self.given..], self.piece, buf);
        self.given += count;
        Ok(count)
    }
}

/// A sink that takes every piece whole, keeps nothing of it and never fails.
#[derive(Drop)]
pub struct SureSink {
    finished: bool,
}

impl Model for SureSink {
    ghost use Rattle.io_edge.specs.States.{SureSinkState};

    ghost Value = { SureSinkState };

    ghost view = { λ s. record { finished = s.finished } };
}

impl SureSink {
    /// A sink to which nothing was written.
    pub fn new() -> SureSink
        ensures { result.finished ≡ false }
    {
        SureSink { finished: false }
    }

    /// Whether the last call was a finish.
    pub fn is_finished(&self) -> bool
        ensures { result ≡ self.now.finished }
    {
        self.finished
    }
}

impl Sink for SureSink {
    ghost written = { λ _. None };

    ghost faults = { λ _. 0 };

    ghost finished = { λ s. s.finished };

    fn write(&mut self, piece: &[u8]) -> Result<usize, Failed>
        ensures whole { result ≡ Ok (length piece.now) }
        ensures unfinished { self.new.finished ≡ false }
    {
        self.finished = false;
        Ok(piece.len())
    }

    fn finish(&mut self) -> Result<(), Failed>
        ensures ok { IsOk result }
        ensures finished { self.new.finished ≡ true }
    {
        self.finished = true;
        Ok(())
    }
}
