ghost use Rattle.std.specs.Prelude.{◌≡◌, ◌≢◌, Err, IsTrue, false};
ghost use Rattle.icet_words.specs.declared.job.Job.TheVariants.{Demo};
ghost use Rattle.icet_cli.specs.FaultNotes.{status_for, CommandEnds, Ends};
ghost use Rattle.icet_cli.specs.Outcome.{outside, texts, work, RunsTo};
ghost use Rattle.icet_cli.specs.Untouched.{LeavesNotes, LeavesOwed, LeavesSink, LeavesSource, LeavesWires};

use crate::jobs::{do_demo, do_text};
use crate::notes::note_fault;
use crate::run_fault::RunFault;
use crate::scene_bytes::read_all;
use crate::status::Status;
use icet_base::{Gate, Sink, Source};
use icet_ring::Wires;
use icet_words::{Command, Job, read_words};
use std::alloc::Global;
use std::thread::Threads;

/// Runs the command that the words name: reads the scene from the source, does the job, and writes its
/// text to the sink. The notes get the line of a fault. `words` are those behind the program's name.
/// What stands afterwards is `RunsTo` of the status; where words and scene are valid and nothing
/// failed, all goes well or memory is wanting.
pub fn run<S: Source, K: Sink, N: Sink, W: Wires, G: Gate, R: Threads + Sync>(
    rt: &R,
    alloc: Global,
    words: &[&str],
    source: &mut S,
    sink: &mut K,
    notes: &mut N,
    wires: &mut W,
    gate: &G,
) -> Status
    ensures runs { RunsTo (texts words.now)
        (outside (S.told source.old) (K.told sink.old) (N.told notes.old) (W.log wires.old))
        (outside (S.told source.new) (K.told sink.new) (N.told notes.new) (W.log wires.new)) result }
    ensures source { LeavesSource result source.old source.new }
    ensures sink { LeavesSink result sink.old sink.new }
    ensures notes { LeavesNotes result notes.old notes.new }
    ensures wires { LeavesWires result wires.old wires.new }
    ensures owed { LeavesOwed result (W.owed wires.old) (W.owed wires.new) }
{
    match run_words(rt, alloc, words, source, sink, wires, gate) {
        Ok(()) => Status::Ok,
        Err(fault) => {
            note_fault(notes, fault);
            fault.status()
        }
    }
}

/// Does what the words say, and leaves the noting of a fault to the caller.
fn run_words<S: Source, K: Sink, W: Wires, G: Gate, R: Threads + Sync>(
    rt: &R,
    alloc: Global,
    words: &[&str],
    source: &mut S,
    sink: &mut K,
    wires: &mut W,
    gate: &G,
) -> Result<(), RunFault>
    ensures ends { Ends (texts words.now) (work (S.told source.old) (K.told sink.old) (W.log wires.old))
        (work (S.told source.new) (K.told sink.new) (W.log wires.new)) result }
    ensures source { LeavesSource (status_for result) source.old source.new }
    ensures sink { LeavesSink (status_for result) sink.old sink.new }
    ensures wires { LeavesWires (status_for result) wires.old wires.new }
    ensures owed { LeavesOwed (status_for result) (W.owed wires.old) (W.owed wires.new) }
{
    match read_words(alloc, words)? {
        Some(command) => run_command(rt, alloc, &command, source, sink, wires, gate),
        None => Err(RunFault::Words),
    }
}

/// Runs a command, and leaves the noting of a fault to the caller.
fn run_command<S: Source, K: Sink, W: Wires, G: Gate, R: Threads + Sync>(
    rt: &R,
    alloc: Global,
    command: &Command,
    source: &mut S,
    sink: &mut K,
    wires: &mut W,
    gate: &G,
) -> Result<(), RunFault>
    ensures ends { CommandEnds command.now (work (S.told source.old) (K.told sink.old) (W.log wires.old))
        (work (S.told source.new) (K.told sink.new) (W.log wires.new)) result }
    ensures sink { LeavesSink (status_for result) sink.old sink.new }
    ensures wires { LeavesWires (status_for result) wires.old wires.new }
    ensures owed { LeavesOwed (status_for result) (W.owed wires.old) (W.owed wires.new) }
    ensures words_taken { result ≢ Err RunFault.Words }
{
    if makes_scene(command.job()) {
        return do_demo(rt, alloc, command, sink, wires, gate);
    }
    let bytes = read_all(alloc, source)?;
    do_text(rt, alloc, command, bytes.as_slice(), sink, wires, gate)
}

/// Whether the job makes its scene, and reads none.
fn makes_scene(job: Job) -> bool
    ensures made { IsTrue result → job ≡ Demo }
    ensures read { result ≡ false → job ≢ Demo }
{
    match job {
        Job::Demo => true,
        Job::Composite | Job::Traffic | Job::Plan | Job::Replay | Job::Summary | Job::Upgrade =>
            false,
    }
}
