ghost use Rattle.std.specs.Prelude.{◌≡◌, ◌<◌, ◌+◌, ◌-◌, ◌^◌, min, [], Ok, OnErr, IfOk, IsOk, is_err, length};
ghost use Rattle.icet_model.specs.Streams.{Reads, Writes, Flushes};
ghost use Rattle.icet_base.specs.Memory.{is_listed, read_answer, silent_view, sink_view, source_view, sure_source_view, write_answer};

use crate::faults::{NoMemory, ReadFault, WriteFault};
use crate::sink::Sink;
use crate::source::Source;
use std::alloc::Global;
use std::marker::Model;

/// A source in memory that gives at most so many bytes a call and fails at given calls, for tests.
/// It tells what is left.
#[derive(Drop)]
pub struct MemSource {
    bytes: Vec<u8>,
    at: usize,
    most: usize,
    fails: Vec<u64>,
    calls: u64,
    faults: u64,
}

impl Model for MemSource {
    ghost use Rattle.std.specs.Prelude.{◌<◌, ◌≤◌, length, drop};
    ghost use Rattle.icet_base.specs.Memory.{MemSourceView};

    ghost Value = { MemSourceView };

    ghost view = { λ s. record { left = drop s.at s.bytes.items; most = s.most; fails = s.fails.items; calls = s.calls; faults = s.faults } };

    ghost invariant = { λ s. (0 < s.most) × (s.at ≤ length s.bytes.items) };
}

impl MemSource {
    /// A source of these bytes. A call gives at most `most` of them; the calls whose numbers, from 0,
    /// stand in `fails` fail.
    pub fn new(bytes: Vec<u8>, most: usize, fails: Vec<u64>) -> MemSource
        requires { 0 < most }
        ensures { result ≡ record { left = bytes.items; most = most; fails = fails.items; calls = 0; faults = 0 } }
    {
        MemSource {
            bytes,
            at: 0,
            most,
            fails,
            calls: 0,
            faults: 0,
        }
    }
}

impl Source for MemSource {
    ghost told = { source_view };

    fn read(&mut self, buf: &mut [u8]) -> Result<usize, ReadFault>
        requires { 0 < length buf.old }
        ensures reads { Reads (source_view self.old) (source_view self.new) result buf.new }
        ensures answer { result ≡ read_answer self.old (length buf.old) }
        ensures calls { self.new.calls ≡ min (self.old.calls + 1) (2 ^ 64 - 1) }
        ensures same { (self.new.most ≡ self.old.most) × (self.new.fails ≡ self.old.fails) }
    {
        let call = self.calls;
        self.calls = call.saturating_add(1);
        if self.fails.contains(&call) {
            self.faults = self.faults.saturating_add(1);
            return Err(ReadFault);
        }
        let n = self.most.min(buf.len()).min(self.bytes.len() - self.at);
        buf[..n].copy_from_slice(&self.bytes[self.at..self.at + n]);
        self.at += n;
        Ok(n)
    }
}

/// A sink in memory with room for so many bytes, that takes at most so many a call and fails at given
/// calls, for tests. It tells what was written.
#[derive(Drop)]
pub struct MemSink {
    bytes: Vec<u8>,
    room: usize,
    most: usize,
    fails: Vec<u64>,
    calls: u64,
    faults: u64,
}

impl Model for MemSink {
    ghost use Rattle.std.specs.Prelude.{◌<◌, ◌≤◌, ◌+◌, vec_len, vec_capacity};
    ghost use Rattle.icet_base.specs.Memory.{MemSinkView};

    ghost Value = { MemSinkView };

    ghost view = { λ s. record { written = s.bytes.items; room = s.room; most = s.most; fails = s.fails.items; calls = s.calls; faults = s.faults } };

    ghost invariant = { λ s. (0 < s.most) × (vec_len s.bytes + s.room ≤ vec_capacity s.bytes) };
}

impl MemSink {
    /// A sink with memory for `room` bytes. A call takes at most `most` of them; the calls of `write`
    /// and `flush` whose numbers, from 0, stand in `fails` fail, and so does a `write` without room.
    pub fn new(
        alloc: Global,
        room: usize,
        most: usize,
        fails: Vec<u64>,
    ) -> Result<MemSink, NoMemory>
        requires { 0 < most }
        ensures { IfOk result (λ s. s ≡ record { written = []; room = room; most = most; fails = fails.items; calls = 0; faults = 0 }) }
    {
        let bytes = Vec::with_capacity(alloc, room)?;
        Ok(MemSink {
            bytes,
            room,
            most,
            fails,
            calls: 0,
            faults: 0,
        })
    }

    /// What was written.
    pub fn bytes(&self) -> &[u8]
        ensures { result.now ≡ self.now.written }
    {
        self.bytes.as_slice()
    }
}

impl Sink for MemSink {
    ghost told = { sink_view };

    fn write(&mut self, piece: &[u8]) -> Result<usize, WriteFault>
        requires { 0 < length piece.now }
        ensures writes { Writes (sink_view self.old) (sink_view self.new) result piece.now }
        ensures answer { result ≡ write_answer self.old (length piece.now) }
        ensures calls { self.new.calls ≡ min (self.old.calls + 1) (2 ^ 64 - 1) }
        ensures room { IfOk result (λ n. self.new.room + n ≡ self.old.room) }
        ensures kept { OnErr result (self.new.room ≡ self.old.room) }
        ensures same { (self.new.most ≡ self.old.most) × (self.new.fails ≡ self.old.fails) }
    {
        let call = self.calls;
        self.calls = call.saturating_add(1);
        if self.fails.contains(&call) || self.room == 0 {
            self.faults = self.faults.saturating_add(1);
            return Err(WriteFault);
        }
        let n = self.most.min(piece.len()).min(self.room);
        match self.bytes.extend_from_slice(&piece[..n]) {
            Ok(()) => {
                self.room -= n;
                Ok(n)
            }
            Err(_) => unreachable!(),
        }
    }

    fn flush(&mut self) -> Result<(), WriteFault>
        ensures flushes { Flushes (sink_view self.old) (sink_view self.new) result }
        ensures answer { is_err result ≡ is_listed self.old.calls self.old.fails }
        ensures calls { self.new.calls ≡ min (self.old.calls + 1) (2 ^ 64 - 1) }
        ensures others { (self.new.room ≡ self.old.room) × ((self.new.most ≡ self.old.most) × (self.new.fails ≡ self.old.fails)) }
    {
        let call = self.calls;
        self.calls = call.saturating_add(1);
        if self.fails.contains(&call) {
            self.faults = self.faults.saturating_add(1);
            return Err(WriteFault);
        }
        Ok(())
    }
}

/// A source in memory that never fails.
#[derive(Drop)]
pub struct SureSource {
    inner: MemSource,
}

impl Model for SureSource {
    ghost use Rattle.std.specs.Prelude.{◌≡◌, []};
    ghost use Rattle.icet_base.specs.Memory.{SureSourceView};

    ghost Value = { SureSourceView };

    ghost view = { λ s. record { left = s.inner.left; most = s.inner.most } };

    ghost invariant = { λ s. s.inner.fails ≡ [] };
}

impl SureSource {
    /// A source of these bytes. A call gives at most `most` of them.
    pub fn new(alloc: Global, bytes: Vec<u8>, most: usize) -> SureSource
        requires { 0 < most }
        ensures { result ≡ record { left = bytes.items; most = most } }
    {
        SureSource {
            inner: MemSource::new(bytes, most, Vec::new(alloc)),
        }
    }
}

impl Source for SureSource {
    ghost told = { sure_source_view };

    fn read(&mut self, buf: &mut [u8]) -> Result<usize, ReadFault>
        requires { 0 < length buf.old }
        ensures reads { Reads (sure_source_view self.old) (sure_source_view self.new) result buf.new }
        ensures answer { result ≡ Ok (min (min self.old.most (length buf.old)) (length self.old.left)) }
        ensures same { self.new.most ≡ self.old.most }
    {
        self.inner.read(buf)
    }
}

/// A sink that takes each piece whole and keeps nothing.
#[derive(Clone, Copy, Debug, Drop)]
pub struct SureSink;

impl SureSink {
    /// A sink that nothing was written to.
    pub fn new() -> SureSink
        ensures { result ≡ record {} }
    {
        SureSink
    }
}

impl Sink for SureSink {
    ghost told = { λ _. silent_view };

    fn write(&mut self, piece: &[u8]) -> Result<usize, WriteFault>
        requires { 0 < length piece.now }
        ensures writes { Writes silent_view silent_view result piece.now }
        ensures whole { result ≡ Ok (length piece.now) }
    {
        Ok(piece.len())
    }

    fn flush(&mut self) -> Result<(), WriteFault>
        ensures flushes { Flushes silent_view silent_view result }
        ensures done { IsOk result }
    {
        Ok(())
    }
}
