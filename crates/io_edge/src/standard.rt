//! Standard input and output.
ghost use Rattle.std.specs.Prelude.{◌≡◌, None, false};

use crate::traits::{Failed, Sink, Source};
use std::io::{Printer, Read, Write, writer};
use std::marker::Model;

/// Standard input. It does not tell its bytes, and each error of the system is a fault.
#[derive(Drop)]
pub struct StdSource<R> {
    reader: R,
    faults: u64,
}

impl<R> Model for StdSource<R> {
    ghost use Rattle.io_edge.specs.States.{StdSourceState};

    ghost Value = { StdSourceState };

    ghost view = { λ s. record { faults = s.faults } };
}

impl<R: Read> StdSource<R> {
    /// The input of the runtime, with no fault so far.
    pub fn new<I: Input<Reader = R>>(rt: &I) -> StdSource<R>
        ensures { result.faults ≡ 0 }
    {
        StdSource {
            reader: rt.reader(),
            faults: 0,
        }
    }
}

impl<R> StdSource<R> {
    /// How many faults it has counted.
    pub fn fault_count(&self) -> u64
        ensures { result ≡ self.now.faults }
    {
        self.faults
    }
}

impl<R: Read> Source for StdSource<R> {
    ghost left = { λ _. None };

    ghost faults = { λ s. s.faults };

    fn read(&mut self, buf: &mut [u8]) -> Result<usize, Failed> {
        match self.reader.read(buf) {
            Ok(count) => Ok(count),
            Err(_) => {
                self.faults = self.faults.saturating_add(1);
                Err(Failed)
            }
        }
    }
}

/// Standard output. It does not tell its bytes. Each error of the system is a fault, and so is a
/// write that takes nothing of a piece that is not empty.
#[derive(Drop)]
pub struct StdSink<W> {
    writer: W,
    faults: u64,
    finished: bool,
}

impl<W> Model for StdSink<W> {
    ghost use Rattle.io_edge.specs.States.{StdSinkState};

    ghost Value = { StdSinkState };

    ghost view = { λ s. record { faults = s.faults; finished = s.finished } };
}

impl<'a, P: Print> StdSink<Printer<'a, P>> {
    /// The output of the runtime, with no fault so far.
    pub fn new(rt: &'a P) -> StdSink<Printer<'a, P>>
        ensures { result ≡ record { faults = 0; finished = false } }
    {
        StdSink {
            writer: writer(rt),
            faults: 0,
            finished: false,
        }
    }
}

impl<W> StdSink<W> {
    /// How many faults it has counted.
    pub fn fault_count(&self) -> u64
        ensures { result ≡ self.now.faults }
    {
        self.faults
    }

    /// Whether the last call was a finish that went well.
    pub fn is_finished(&self) -> bool
        ensures { result ≡ self.now.finished }
    {
        self.finished
    }
}

impl<W: Write> Sink for StdSink<W> {
    ghost written = { λ _. None };

    ghost faults = { λ s. s.faults };

    ghost finished = { λ s. s.finished };

    fn write(&mut self, piece: &[u8]) -> Result<usize, Failed> {
        self.finished = false;
        match self.writer.write(piece) {
            Ok(count) if 0 < count || piece.is_empty() => Ok(count),
            _ => {
                self.faults = self.faults.saturating_add(1);
                Err(Failed)
            }
        }
    }

    fn finish(&mut self) -> Result<(), Failed> {
        self.finished = self.writer.flush().is_ok();
        if self.finished {
            return Ok(());
        }
        self.faults = self.faults.saturating_add(1);
        Err(Failed)
    }
}

#[cfg(test)]
mod tests {
    use super::*;
    use std::io;
    use std::test::Fail;

    #[derive(Drop)]
    struct Broken;

    impl Read for Broken {
        fn read(&mut self, _buf: &mut [u8]) -> io::Result<usize> {
            Err(io::Error::from(io::ErrorKind::Other))
        }
    }

    // A writer that takes nothing.
    #[derive(Drop)]
    struct Idle;

    impl Write for Idle {
        fn write(&mut self, _buf: &[u8]) -> io::Result<usize> {
            Ok(0)
        }

        fn flush(&mut self) -> io::Result<()> {
            Err(io::Error::from(io::ErrorKind::Other))
        }
    }

    #[test]
    fn the_runtime_is_read_and_written(rt: HostRuntime) -> Result<(), Fail> {
        let mut source = StdSource::new(&rt);
        assert_eq!(rt; source.read(&mut []), Ok(0));
        assert_eq!(rt; source.fault_count(), 0);
        let mut sink = StdSink::new(&rt);
        assert_eq!(rt; sink.write(b""), Ok(0));
        assert_eq!(rt; sink.finish(), Ok(()));
        assert!(rt; sink.is_finished());
        assert_eq!(rt; sink.fault_count(), 0);
        Ok(())
    }

    #[test]
    fn bytes_pass_through(rt: HostRuntime) {
        let mut source = StdSource {
            reader: b"abc".as_slice(),
            faults: 0,
        };
        let mut buf = [0; 4];
        assert_eq!(rt; source.read(&mut buf), Ok(3));
        assert_eq!(rt; &buf[..3], b"abc".as_slice());
        assert_eq!(rt; source.read(&mut buf), Ok(0));
        let mut sink = StdSink {
            writer: Vec::new(rt.alloc()),
            faults: 0,
            finished: false,
        };
        assert_eq!(rt; sink.write(b"abc"), Ok(3));
        assert_eq!(rt; sink.writer.as_slice(), b"abc".as_slice());
    }

    #[test]
    fn errors_are_counted(rt: HostRuntime) {
        let mut source = StdSource {
            reader: Broken,
            faults: u64::MAX - 1,
        };
        for _ in 0..2 {
            assert_eq!(rt; source.read(&mut [0; 4]), Err(Failed));
            assert_eq!(rt; source.fault_count(), u64::MAX);
        }
        let mut sink = StdSink {
            writer: Idle,
            faults: 0,
            finished: false,
        };
        assert_eq!(rt; sink.write(b"abc"), Err(Failed));
        assert_eq!(rt; sink.fault_count(), 1);
        assert_eq!(rt; sink.finish(), Err(Failed));
        assert!(rt; !sink.is_finished());
        assert_eq!(rt; sink.fault_count(), 2);
    }
}
