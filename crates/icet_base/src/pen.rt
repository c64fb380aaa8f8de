ghost use Rattle.std.specs.Prelude.{◌≡◌, ◌++◌, [], false, is_err, decimal};
ghost use Rattle.icet_model.specs.Streams.{WritesAll};
ghost use Rattle.icet_base.specs.PenText.{Puts};

use crate::faults::WriteFault;
use crate::sink::Sink;
use arrayvec::ArrayVec;
use itoa::Buffer;

/// How many bytes a pen gathers before it writes them.
const GATHERED: usize = 4_096;

/// Gathers bytes for a sink and writes them in large pieces. Its text is what the sink has written,
/// followed by the bytes that wait.
#[derive(Drop)]
pub struct Pen<'a, K: Sink> {
    pub sink: &'a mut K,
    pub waiting: ArrayVec<u8, GATHERED>,
    /// A write has failed; nothing may be put any more.
    pub failed: bool,
}

impl<'a, K: Sink> Pen<'a, K> {
    /// A pen whose text is what the sink has written.
    pub fn new(sink: &'a mut K) -> Pen<'a, K>
        ensures same_reference { result.sink.ghost_name ≡ sink.entry.ghost_name }
        ensures sink { result.sink.now ≡ sink.old }
        ensures waiting { result.waiting.items ≡ [] }
        ensures failed { result.failed ≡ false }
    {
        Pen {
            sink,
            waiting: ArrayVec::new(),
            failed: false,
        }
    }

    /// Puts the bytes behind the text.
    pub fn put(&mut self, bytes: &[u8]) -> Result<(), WriteFault>
        requires { self.old.failed ≡ false }
        ensures { Puts K.told self.old self.new result bytes.now }
    {
        match self.waiting.try_extend_from_slice(bytes) {
            Ok(()) => Ok(()),
            Err(_) => {
                self.write_waiting()?;
                self.gather(bytes)
            }
        }
    }

    /// Puts the decimal text of the number behind the text.
    pub fn number(&mut self, n: u64) -> Result<(), WriteFault>
        requires { self.old.failed ≡ false }
        ensures { Puts K.told self.old self.new result (decimal n) }
    {
        let mut buffer = Buffer::new();
        self.put(buffer.format(n).as_bytes())
    }

    /// Puts these bytes and then the decimal text of the number behind the text.
    #[tactic(auto, using(crate::proofs::GrowingBytes::puts_then, crate::proofs::GrowingBytes::puts_failed))]
    pub fn put_number(&mut self, before: &[u8], n: u64) -> Result<(), WriteFault>
        requires { self.old.failed ≡ false }
        ensures { Puts K.told self.old self.new result (before.now ++ decimal n) }
    {
        self.put(before)?;
        self.number(n)
    }

    /// Puts the decimal text of the number between these bytes behind the text.
    #[tactic(auto, using(crate::proofs::GrowingBytes::puts_then, crate::proofs::GrowingBytes::puts_failed))]
    pub fn put_number_between(
        &mut self,
        before: &[u8],
        n: u64,
        behind: &[u8],
    ) -> Result<(), WriteFault>
        requires { self.old.failed ≡ false }
        ensures { Puts K.told self.old self.new result ((before.now ++ decimal n) ++ behind.now) }
    {
        self.put_number(before, n)?;
        self.put(behind)
    }

    /// Writes what waits.
    fn write_waiting(&mut self) -> Result<(), WriteFault>
        requires { self.old.failed ≡ false }
        ensures writes { WritesAll (K.told self.old.sink.now) (K.told self.new.sink.now) result self.old.waiting.items }
        ensures empty { self.new.waiting.items ≡ [] }
        ensures failed { self.new.failed ≡ is_err result }
        ensures same_reference { self.new.sink.ghost_name ≡ self.old.sink.ghost_name }
    {
        let written = write_all(self.sink, self.waiting.as_slice());
        self.waiting.clear();
        self.failed = written.is_err();
        written
    }

    /// Lets the bytes wait in an empty pen, or writes them at once where they are too many.
    fn gather(&mut self, bytes: &[u8]) -> Result<(), WriteFault>
        requires ready { self.old.failed ≡ false }
        requires empty { self.old.waiting.items ≡ [] }
        ensures { Puts K.told self.old self.new result bytes.now }
    {
        if self.waiting.try_extend_from_slice(bytes).is_ok() {
            return Ok(());
        }
        let written = write_all(self.sink, bytes);
        self.failed = written.is_err();
        written
    }

    /// Writes what waits and flushes the sink once.
    pub fn finish(self) -> Result<(), WriteFault>
        requires { self.failed ≡ false }
        ensures { WritesAll (K.told self.entry.sink.now) (K.told self.exit.0.now) result self.entry.waiting.items }
    {
        let Pen {
            sink,
            waiting,
            failed: _,
        } = self;
        write_and_flush(sink, waiting.as_slice())
    }
}

/// Writes the piece and flushes once.
fn write_and_flush<K: Sink>(sink: &mut K, piece: &[u8]) -> Result<(), WriteFault>
    ensures { WritesAll (K.told sink.old) (K.told sink.new) result piece.now }
{
    write_all(sink, piece)?;
    sink.flush()
}

/// Writes all of the piece.
fn write_all<K: Sink>(sink: &mut K, piece: &[u8]) -> Result<(), WriteFault>
    ensures { WritesAll (K.told sink.old) (K.told sink.new) result piece.now }
{
    let mut at = 0;
    while at < piece.len() {
        at += sink.write(&piece[at..])?;
    }
    Ok(())
}
