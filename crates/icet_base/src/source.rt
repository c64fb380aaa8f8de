ghost use Rattle.std.specs.Prelude.{◌<◌, length};
ghost use Rattle.icet_model.specs.Streams.{SourceView, Reads};

use crate::faults::ReadFault;

/// Where bytes come from.
pub trait Source {
    /// What the source tells: the bytes not yet read, or nothing of them, and how often a read has
    /// failed, a count that stands still at the greatest value of its type.
    ghost told: { Self → SourceView };

    /// Moves the first bytes of what is left to the front of `buf` and answers how many: none only
    /// where nothing was left. A failed read moves none, and raises the count of faults.
    fn read(&mut self, buf: &mut [u8]) -> Result<usize, ReadFault>
        requires { 0 < length buf.old }
        ensures { Reads (told self.old) (told self.new) result buf.new };
}
