ghost use Rattle.std.specs.Prelude.{◌≡◌};

use crate::faults::{ReadFault, WriteFault};
use crate::sink::Sink;
use crate::source::Source;
use std::io::{Read, Write};

/// A source over a reader of std, such as standard input: the trusted edge of reading. It tells what
/// the reader tells, which is nothing for standard input.
#[derive(Drop)]
pub struct StdSource<R: Read + Drop> {
    inner: R,
    faults: u64,
}

impl<R: Read + Drop> StdSource<R> {
    /// The source over this reader, before its first fault.
    pub fn new(inner: R) -> StdSource<R>
        ensures { ⟦<StdSource<R> as Source>⟧.told result ≡ record { left = R.remaining inner; faults = 0 } }
    {
        StdSource { inner, faults: 0 }
    }
}

impl<R: Read + Drop> Source for StdSource<R> {
    ghost told = { λ s. record { left = R.remaining s.inner; faults = s.faults } };

    fn read(&mut self, buf: &mut [u8]) -> Result<usize, ReadFault> {
        match self.inner.read(buf) {
            Ok(n) => Ok(n),
            Err(_) => {
                self.faults = self.faults.saturating_add(1);
                Err(ReadFault)
            }
        }
    }
}

/// A sink over a writer of std, such as standard output: the trusted edge of writing. It tells what
/// the writer tells, which is nothing for standard output.
#[derive(Drop)]
pub struct StdSink<W: Write + Drop> {
    inner: W,
    faults: u64,
}

impl<W: Write + Drop> StdSink<W> {
    /// The sink over this writer, before its first fault.
    pub fn new(inner: W) -> StdSink<W>
        ensures { ⟦<StdSink<W> as Sink>⟧.told result ≡ record { written = W.contents inner; faults = 0 } }
    {
        StdSink { inner, faults: 0 }
    }
}

impl<W: Write + Drop> Sink for StdSink<W> {
    ghost told = { λ s. record { written = W.contents s.inner; faults = s.faults } };

    fn write(&mut self, piece: &[u8]) -> Result<usize, WriteFault> {
        match self.inner.write(piece) {
            Ok(n) if n > 0 => Ok(n),
            _ => {
                self.faults = self.faults.saturating_add(1);
                Err(WriteFault)
            }
        }
    }

    fn flush(&mut self) -> Result<(), WriteFault> {
        match self.inner.flush() {
            Ok(()) => Ok(()),
            Err(_) => {
                self.faults = self.faults.saturating_add(1);
                Err(WriteFault)
            }
        }
    }
}
