ghost use Rattle.std.specs.Prelude.{◌≡◌, ◌≤◌, ◌++◌, false, decimal};
ghost use Rattle.icet_model.specs.Replay.{last_line, lowest_left, replay_text, try_word};
ghost use Rattle.icet_model.specs.Streams.{WritesAll};
ghost use Rattle.icet_base.specs.PenText.{Puts};
ghost use Rattle.icet_plan.specs.Keeps.{all_of};
ghost use Rattle.icet_jobs.specs.Replays.{tried, try_of_rank, replay_of};
ghost use Rattle.icet_jobs.specs.Texts.{WritesText};

use icet_base::{NoMemory, Pen, Rank, Sink, WriteFault};
use icet_plan::{Advance, Core, Plan};
use std::alloc::Global;

/// Why a replay wasn't written.
#[derive(Clone, Copy, Debug, PartialEq, Eq)]
pub enum JobFault {
    /// The sink failed.
    Write,
    /// Memory was wanted and not there.
    NoMemory,
}

impl From<WriteFault> for JobFault {
    ghost use Rattle.std.specs.Prelude.{◌≡◌};
    ghost use Rattle.icet_jobs.specs.declared.replay.JobFault.TheVariants.{Write as Failed};

    ghost from_gives = { λ _ e. e ≡ Failed };

    fn from(_fault: WriteFault) -> JobFault {
        JobFault::Write
    }
}

impl From<NoMemory> for JobFault {
    ghost use Rattle.std.specs.Prelude.{◌≡◌};
    ghost use Rattle.icet_jobs.specs.declared.replay.JobFault.TheVariants.{NoMemory as Wanting};

    ghost from_gives = { λ _ e. e ≡ Wanting };

    fn from(_error: NoMemory) -> JobFault {
        JobFault::NoMemory
    }
}

/// Writes the replay of a plan: for each number of the schedule what comes of that rank's try to make
/// its next exchange, and then whether all ranks have finished, or the lowest that hasn't. Each ring
/// holds `cap` messages. All memory is taken before the first byte.
///
/// # Errors
///
/// `NoMemory`, with nothing written; and `Write`, where the sink holds a front of the text.
pub fn write_replay<K: Sink>(
    alloc: Global,
    sink: &mut K,
    plan: &Plan,
    cap: u32,
    schedule: &[u32],
) -> Result<(), JobFault>
    requires { 1 ≤ cap }
    ensures { WritesText K.told sink.old sink.new result (replay_text plan.now cap schedule.now) }
{
    let mut core = Core::start(alloc, plan, cap)?;
    write_tries(sink, &mut core, schedule)?;
    Ok(())
}

/// Writes the tries of the schedule from where the core stands, and the last line.
fn write_tries<K: Sink>(
    sink: &mut K,
    core: &mut Core<'_>,
    schedule: &[u32],
) -> Result<(), WriteFault>
    ensures { WritesAll (K.told sink.old) (K.told sink.new) result (replay_of core.old schedule.now) }
{
    let mut pen = Pen::new(sink);
    put_tries(&mut pen, core, schedule)?;
    pen.finish()
}

/// Puts a line for each number of the schedule, and the last line.
fn put_tries<K: Sink>(
    pen: &mut Pen<'_, K>,
    core: &mut Core<'_>,
    schedule: &[u32],
) -> Result<(), WriteFault>
    requires { pen.old.failed ≡ false }
    ensures { Puts K.told pen.old pen.new result (replay_of core.old schedule.now) }
{
    for rank in schedule {
        put_try(pen, core, *rank)?;
    }
    put_last_line(pen, core)
}

/// Has the rank try to go on, and puts the line on what came of it.
fn put_try<K: Sink>(pen: &mut Pen<'_, K>, core: &mut Core<'_>, rank: u32) -> Result<(), WriteFault>
    requires { pen.old.failed ≡ false }
    ensures puts { Puts K.told pen.old pen.new result (decimal rank ++ try_word (try_of_rank core.old rank)) }
    ensures core { core.new ≡ tried core.old rank }
{
    let word = go_on(core, rank);
    pen.put_number_between(b"", u64::from(rank), word)
}

/// Has the rank try to go on, and answers the rest of the line on what came of it.
fn go_on(core: &mut Core<'_>, rank: u32) -> &'static [u8]
    ensures word { result.now ≡ try_word (try_of_rank core.old rank) }
    ensures core { core.new ≡ tried core.old rank }
{
    if rank >= core.ranks() {
        return b" absent\n";
    }
    match core.advance(Rank(rank)) {
        Advance::Moved => b" moved\n",
        Advance::Stalled => b" stalled\n",
        Advance::Done => b" done\n",
    }
}

/// Puts the line on where the ranks stand.
fn put_last_line<K: Sink>(pen: &mut Pen<'_, K>, core: &Core<'_>) -> Result<(), WriteFault>
    requires { pen.old.failed ≡ false }
    ensures { Puts K.told pen.old pen.new result (last_line (lowest_left (all_of core.now) core.now.done)) }
{
    match core.unfinished() {
        Some(rank) => pen.put_number_between(b"unfinished ", u64::from(rank.0), b"\n"),
        None => pen.put(b"finished\n"),
    }
}
