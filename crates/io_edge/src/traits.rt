//! What a source and a sink are.
ghost use Rattle.std.specs.Prelude.{◌≡◌, ◌≤◌, ℕ, Bool, false, List, length, take, Option, is_some, is_ok, IfOk, OnOk, OnErr};
ghost use Rattle.io_edge.specs.Counts.{Rose};
ghost use Rattle.io_edge.specs.Source.{Gives, EndsAtNothing};
ghost use Rattle.io_edge.specs.Sink.{Takes, TakesFront, TakesSomething};

use std::error::Error;
use std::fmt;

/// A call to the outside failed. The source or the sink has counted the fault.
#[derive(Clone, Copy, Debug, PartialEq, Eq, Drop)]
pub struct Failed;

impl fmt::Display for Failed {
    /// Writes that a read or a write failed.
    fn fmt<W: fmt::Write>(&self, f: &mut fmt::Formatter<W>) -> fmt::Result {
        f.write_str("a read or a write failed")
    }
}

impl Error for Failed {}

/// Where bytes come from.
///
/// A source that is a value of the program tells which bytes are left. One outside the program, as
/// standard input, does not.
pub trait Source {
    // The bytes left, where the source tells them.
    ghost left: { Self → Option (List ℕ) };

    // How many faults it has counted. The count stands at the last value of a `u64`.
    ghost faults: { Self → ℕ };

    /// Reads some bytes into the front of the buffer, and says how many.
    ///
    /// No byte into a buffer with room is the end of the input. A read that fails takes no byte.
    fn read(&mut self, buf: &mut [u8]) -> Result<usize, Failed>
        ensures bound { IfOk result (λ n. n ≤ length buf.old) }
        ensures bytes { IfOk result (λ n. Gives (left self.old) (take n buf.new) (left self.new)) }
        ensures end { IfOk result (EndsAtNothing buf.old (left self.old)) }
        ensures nothing_lost { OnErr result (left self.new ≡ left self.old) }
        ensures same_count { OnOk result (faults self.new ≡ faults self.old) }
        ensures failed { OnErr result (Rose (faults self.old) (faults self.new)) }
        ensures never_falls { faults self.old ≤ faults self.new }
        ensures tells { is_some (left self.new) ≡ is_some (left self.old) };
}

/// Where bytes go.
///
/// A sink that keeps its bytes tells which were written. One outside the program, as standard
/// output, does not.
pub trait Sink {
    // The bytes written, where the sink tells them.
    ghost written: { Self → Option (List ℕ) };

    // How many faults it has counted. The count stands at the last value of a `u64`.
    ghost faults: { Self → ℕ };

    // Whether the last call was a finish that went well.
    ghost finished: { Self → Bool };

    /// Writes a front of the piece, and says how many bytes that is.
    ///
    /// To take nothing of a piece that is not empty is a fault. After a fault a front of the piece,
    /// perhaps the empty one, has been written.
    fn write(&mut self, piece: &[u8]) -> Result<usize, Failed>
        ensures bound { IfOk result (λ n. n ≤ length piece.now) }
        ensures bytes { IfOk result (λ n. Takes (written self.old) (take n piece.now) (written self.new)) }
        ensures something { IfOk result (TakesSomething piece.now) }
        ensures same_count { OnOk result (faults self.new ≡ faults self.old) }
        ensures failed { OnErr result (Rose (faults self.old) (faults self.new)) }
        ensures front { OnErr result (TakesFront (written self.old) piece.now (written self.new)) }
        ensures unfinished { finished self.new ≡ false }
        ensures never_falls { faults self.old ≤ faults self.new }
        ensures tells { is_some (written self.new) ≡ is_some (written self.old) };

    /// Passes on what was written, and ends the output.
    fn finish(&mut self) -> Result<(), Failed>
        ensures bytes { written self.new ≡ written self.old }
        ensures finished { finished self.new ≡ is_ok result }
        ensures same_count { OnOk result (faults self.new ≡ faults self.old) }
        ensures failed { OnErr result (Rose (faults self.old) (faults self.new)) }
        ensures never_falls { faults self.old ≤ faults self.new };
}
