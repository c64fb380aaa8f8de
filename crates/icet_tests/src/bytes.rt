//! Sources and sinks over std, and the pen.
use icet_base::{MemSink, NoMemory, Pen, ReadFault, Sink, Source, StdSink, StdSource, WriteFault};
use std::alloc::Global;
use std::io::{Read, Write};

/// Fails at each call.
#[derive(Drop)]
struct Broken;

impl Read for Broken {
    fn read(&mut self, _buf: &mut [u8]) -> std::io::Result<usize> {
        Err(std::io::Error::from(std::io::ErrorKind::Other))
    }
}

impl Write for Broken {
    fn write(&mut self, _buf: &[u8]) -> std::io::Result<usize> {
        Ok(0)
    }

    fn flush(&mut self) -> std::io::Result<()> {
        Err(std::io::Error::from(std::io::ErrorKind::Other))
    }
}

#[test]
fn a_source_over_std_passes_bytes_and_faults_on(rt: HostRuntime) {
    let mut source = StdSource::new(b"abc".as_slice());
    let mut buf = [0u8; 2];
    let counts = [
        source.read(&mut buf),
        source.read(&mut buf),
        source.read(&mut buf),
        StdSource::new(Broken).read(&mut buf),
    ];
    assert!(rt; counts == [Ok(2), Ok(1), Ok(0), Err(ReadFault)]);
    assert!(rt; buf == *b"cb");
}

#[test]
fn a_sink_over_std_passes_bytes_and_faults_on(rt: HostRuntime) {
    let mut sink = StdSink::new(Vec::new(rt.alloc()));
    let mut broken = StdSink::new(Broken);
    let counts = [sink.write(b"abc"), broken.write(b"abc")];
    assert!(rt; counts == [Ok(3), Err(WriteFault)]);
    let flushed = [sink.flush(), broken.flush()];
    assert!(rt; flushed == [Ok(()), Err(WriteFault)]);
}

/// Puts two long pieces and a number between them.
fn put_all<K: Sink>(sink: &mut K, piece: &[u8]) -> Result<(), WriteFault> {
    let mut pen = Pen::new(sink);
    pen.put(piece)?;
    pen.number(120)?;
    pen.put(piece)?;
    pen.finish()
}

/// Whether a pen writes all that was put, in its order.
fn writes_all(alloc: Global) -> Result<bool, NoMemory> {
    let mut sink = MemSink::new(alloc, 10_000, 5_000, Vec::new(alloc))?;
    let piece = vec![in alloc; b'x'; 3_000]?;
    let put = put_all(&mut sink, piece.as_slice());
    let bytes = sink.bytes();
    Ok(put.is_ok() && bytes.len() == 6_003 && bytes[2_999..3_004].starts_with(b"x120x"))
}

#[test]
fn a_pen_writes_all_that_was_put(rt: HostRuntime) {
    assert!(rt; matches!(writes_all(rt.alloc()), Ok(true)));
}
