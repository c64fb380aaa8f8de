ghost use Rattle.std.specs.Prelude.{◌<◌, length};
ghost use Rattle.icet_model.specs.Streams.{SinkView, Writes, Flushes};

use crate::faults::WriteFault;

/// Where bytes go.
pub trait Sink {
    /// What the sink tells: the bytes written so far, or nothing of them, and how often a write or a
    /// flush has failed, a count that stands still at the greatest value of its type.
    ghost told: { Self → SinkView };

    /// Appends the first bytes of `piece` to what was written and answers how many, at least one. A
    /// failed write appends none, and raises the count of faults.
    fn write(&mut self, piece: &[u8]) -> Result<usize, WriteFault>
        requires { 0 < length piece.now }
        ensures { Writes (told self.old) (told self.new) result piece.now };

    /// Hands on what may still wait below; what counts as written stays.
    fn flush(&mut self) -> Result<(), WriteFault>
        ensures { Flushes (told self.old) (told self.new) result };
}
