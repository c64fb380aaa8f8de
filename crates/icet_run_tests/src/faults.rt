//! Runs whose source or sink fails at one of its calls.
use crate::runs::{
    AROUND, Came, FOUR, NEVER, PICTURE, POINT, WORDS, Want, came_into, done, fault, source_of,
};
use icet_base::{MemSink, NoMemory};
use icet_cli::Status;
use std::alloc::Global;
use std::thread::Threads;

/// How many bytes a call of the sink takes.
const BYTES: usize = 7;

/// What comes of a run whose source and sink fail at the calls with these numbers.
fn came_of_faults<R: Threads + Sync>(
    rt: &R,
    alloc: Global,
    scene: &str,
    read_fails: u64,
    write_fails: u64,
) -> Result<Came, NoMemory> {
    let mut source = source_of(alloc, scene, read_fails)?;
    let sink = MemSink::new(alloc, 1024, BYTES, vec![in alloc; write_fails]?)?;
    came_into(rt, alloc, &WORDS, &mut source, sink)
}

/// Whether this came.
fn is_wanted(came: &Result<Came, NoMemory>, want: Want) -> bool {
    match came {
        Ok(came) => came.is(want),
        Err(_) => false,
    }
}

// A call of the source gives 10 of the 78 bytes of the scene, and the ninth gives none.
#[test]
fn a_source_fails_at_each_of_its_calls(rt: HostRuntime) {
    for call in 0..10 {
        let want = if call < 9 {
            fault(Status::ReadFault, b"", "icet: read failed\n")
        } else {
            done(PICTURE)
        };
        let came = came_of_faults(&rt, rt.alloc(), POINT, call, NEVER);
        assert!(rt; is_wanted(&came, want), "{call}");
    }
}

// Twelve calls of the sink take the 81 bytes of the picture, and the thirteenth is its flush.
#[test]
fn a_sink_fails_at_each_of_its_calls(rt: HostRuntime) {
    for call in 0..14 {
        let want = if call < 13 {
            let written = &FOUR[..FOUR.len().min(BYTES * call)];
            fault(Status::WriteFault, written, "icet: write failed\n")
        } else {
            done(FOUR)
        };
        let came = came_of_faults(&rt, rt.alloc(), AROUND, NEVER, call as u64);
        assert!(rt; is_wanted(&came, want), "{call}");
    }
}
