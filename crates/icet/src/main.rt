//! The program `icet`: composites what parallel renderers drew apart.
#![tactic(auto)]

ghost use Rattle.std.specs.Prelude.{◌≡◌, IfNone, IfOk, codes};
ghost use Rattle.icet.specs.Arguments.{texts_of, RunsOn};
ghost use Rattle.icet_cli.specs.Notes.{HasNoted};
ghost use Rattle.icet_cli.specs.Outcome.{outside, texts};

use icet_base::{PlainGate, Sink, Source, StdSink, StdSource};
use icet_cli::{RunFault, Status, note_fault, run};
use icet_ring::Wires;
use icet_ring_wires::RingWires;
use std::alloc::{AllocError, Global};
use std::process::ExitCode;
use std::thread::Threads;
use std::{env, io};

/// The program over the real standard input, output and error; source, sinks, wires and gate are made
/// here and nowhere else.
fn main(rt: HostRuntime) -> ExitCode {
    let mut source = StdSource::new(rt.stdin());
    let mut sink = StdSink::new(rt.stdout());
    let mut notes = StdSink::new(rt.stderr());
    let mut wires = RingWires::new(rt.alloc());
    let status = match arguments(rt.alloc(), env::args(&rt)) {
        Ok(arguments) => run_on(
            &rt,
            rt.alloc(),
            arguments.as_slice(),
            &mut source,
            &mut sink,
            &mut notes,
            &mut wires,
        )
        .unwrap_or(Status::NoMemory),
        Err(refusal) => refuse(refusal, &mut notes),
    };
    ExitCode::from(status.number())
}

/// Why there are no words.
#[derive(Clone, Copy, Debug, PartialEq, Eq)]
enum Refusal {
    NotUnicode,
    NoMemory,
}

/// The arguments behind the program's name.
fn arguments(alloc: Global, args: io::Result<env::Args>) -> Result<Vec<String>, Refusal> {
    match args {
        Ok(args) => match args.skip(1).collect(alloc) {
            Ok(arguments) => Ok(arguments),
            Err(_) => Err(Refusal::NoMemory),
        },
        Err(error) => match error.kind() {
            io::ErrorKind::OutOfMemory => Err(Refusal::NoMemory),
            _ => Err(Refusal::NotUnicode),
        },
    }
}

/// Words that aren't Unicode are refused words; where they can't be held, nothing is written.
fn refuse<N: Sink>(refusal: Refusal, notes: &mut N) -> Status
    ensures refused { refusal ≡ Refusal.NotUnicode → (result ≡ Status.WordsRefused)
        × HasNoted (N.told notes.old) (N.told notes.new) (codes "icet: words refused\n") }
    ensures wanting { refusal ≡ Refusal.NoMemory → (result ≡ Status.NoMemory) × (notes.new ≡ notes.old) }
{
    match refusal {
        Refusal::NotUnicode => {
            note_fault(notes, RunFault::Words);
            Status::WordsRefused
        }
        Refusal::NoMemory => Status::NoMemory,
    }
}

/// Runs the command that these arguments are. None where they can't be held, and then nothing is done.
fn run_on<S: Source, K: Sink, N: Sink, W: Wires, R: Threads + Sync>(
    rt: &R,
    alloc: Global,
    arguments: &[String],
    source: &mut S,
    sink: &mut K,
    notes: &mut N,
    wires: &mut W,
) -> Option<Status>
    ensures runs { RunsOn arguments.now
        (outside (S.told source.old) (K.told sink.old) (N.told notes.old) (W.log wires.old))
        (outside (S.told source.new) (K.told sink.new) (N.told notes.new) (W.log wires.new)) result }
    ensures ends { IfNone result ((source.new ≡ source.old) × (sink.new ≡ sink.old) × (notes.new ≡ notes.old)) }
    ensures wires { IfNone result (wires.new ≡ wires.old) }
{
    match texts_of(alloc, arguments) {
        Ok(words) => Some(run(
            rt,
            alloc,
            words.as_slice(),
            source,
            sink,
            notes,
            wires,
            &PlainGate,
        )),
        Err(_) => None,
    }
}

/// The arguments as texts.
fn texts_of<'a>(alloc: Global, arguments: &'a [String]) -> Result<Vec<&'a str>, AllocError>
    ensures { IfOk result (λ words. texts words.items ≡ texts_of arguments.now) }
{
    let mut words = Vec::new(alloc);
    for argument in arguments {
        words.push(argument.as_str())?;
    }
    Ok(words)
}
