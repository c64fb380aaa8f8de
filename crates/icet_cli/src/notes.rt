ghost use Rattle.std.specs.Prelude.{◌≡◌, ◌++◌, codes, false};
ghost use Rattle.icet_base.specs.PenText.{Puts};
ghost use Rattle.icet_model.specs.Streams.{WritesAll};
ghost use Rattle.icet_scene_model.specs.FaultLines.{at_line, missing_line, scene_line};
ghost use Rattle.icet_cli.specs.FaultNotes.{line_of};
ghost use Rattle.icet_cli.specs.Notes.{HasNoted};

use crate::run_fault::RunFault;
use icet_base::{Pen, Sink, WriteFault};
use icet_scene::{SceneFault, Want};

/// Notes the line of a fault. A fault of the notes themselves is kept to itself.
pub fn note_fault<N: Sink>(notes: &mut N, fault: RunFault)
    ensures { HasNoted (N.told notes.old) (N.told notes.new) (line_of fault) }
{
    match fault {
        RunFault::Words => note(notes, b"icet: words refused\n"),
        RunFault::Read => note(notes, b"icet: read failed\n"),
        RunFault::Scene(fault) => note_scene(notes, fault),
        RunFault::Write => note(notes, b"icet: write failed\n"),
        RunFault::NoMemory => note(notes, b"icet: no memory\n"),
    }
}

/// Notes why the scene was refused.
fn note_scene<N: Sink>(notes: &mut N, fault: SceneFault)
    ensures { HasNoted (N.told notes.old) (N.told notes.new) (scene_line fault) }
{
    match fault {
        SceneFault::TooLong => note(notes, b"icet: scene longer than 67108864 bytes\n"),
        SceneFault::BadByte(line) => note_line(notes, line, b"byte not allowed\n"),
        SceneFault::BadLine(line) => note_line(notes, line, b"not a line of the format\n"),
        SceneFault::OutOfPlace(line) => note_line(notes, line, b"out of place\n"),
        SceneFault::OutOfRange(line) => note_line(notes, line, b"number out of range\n"),
        SceneFault::NotPremultiplied(line) => note_line(notes, line, b"colour not premultiplied\n"),
        SceneFault::RankTaken(line) => note_line(notes, line, b"display rank already taken\n"),
        SceneFault::BadOrder(line) => note_line(notes, line, b"order is not each rank once\n"),
        SceneFault::Missing(want) => note(notes, missing_line(want)),
        SceneFault::TooLarge => note(notes, b"icet: scene too large\n"),
        SceneFault::NoMemory => note(notes, b"icet: no memory\n"),
    }
}

/// The line of what is missing at the end of a scene's text.
fn missing_line(want: Want) -> &'static [u8]
    ensures { result.now ≡ missing_line want }
{
    match want {
        Want::Head => b"icet: missing head\n",
        Want::Mode => b"icet: missing mode\n",
        Want::Ranks => b"icet: missing ranks\n",
        Want::Order => b"icet: missing order\n",
        Want::Tile => b"icet: missing tile\n",
        Want::End => b"icet: missing end\n",
    }
}

/// Notes a line.
fn note<N: Sink>(notes: &mut N, line: &[u8])
    ensures { HasNoted (N.told notes.old) (N.told notes.new) line.now }
{
    let _ = write_line(notes, line);
}

/// Notes what is wrong with a line of the scene.
fn note_line<N: Sink>(notes: &mut N, number: u32, what: &[u8])
    ensures { HasNoted (N.told notes.old) (N.told notes.new) (at_line number what.now) }
{
    let _ = write_number(notes, number, what);
}

fn write_line<N: Sink>(notes: &mut N, line: &[u8]) -> Result<(), WriteFault>
    ensures { WritesAll (N.told notes.old) (N.told notes.new) result line.now }
{
    let mut pen = Pen::new(notes);
    pen.put(line)?;
    pen.finish()
}

#[tactic(auto, using(icet_base::proofs::GrowingBytes::puts_then, icet_base::proofs::GrowingBytes::puts_failed))]
fn write_number<N: Sink>(notes: &mut N, number: u32, what: &[u8]) -> Result<(), WriteFault>
    ensures { WritesAll (N.told notes.old) (N.told notes.new) result (at_line number what.now) }
{
    let mut pen = Pen::new(notes);
    put_number(&mut pen, number, what)?;
    pen.finish()
}

#[tactic(auto, using(icet_base::proofs::GrowingBytes::puts_then, icet_base::proofs::GrowingBytes::puts_failed))]
fn put_number<N: Sink>(pen: &mut Pen<'_, N>, number: u32, what: &[u8]) -> Result<(), WriteFault>
    requires { pen.old.failed ≡ false }
    ensures { Puts N.told pen.old pen.new result (at_line number what.now) }
{
    pen.put_number(b"icet: line ", u64::from(number))?;
    put_behind(pen, what)
}

#[tactic(auto, using(icet_base::proofs::GrowingBytes::puts_then, icet_base::proofs::GrowingBytes::puts_failed))]
fn put_behind<N: Sink>(pen: &mut Pen<'_, N>, what: &[u8]) -> Result<(), WriteFault>
    requires { pen.old.failed ≡ false }
    ensures { Puts N.told pen.old pen.new result (codes ": " ++ what.now) }
{
    pen.put(b": ")?;
    pen.put(what)
}
