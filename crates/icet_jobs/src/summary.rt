ghost use Rattle.std.specs.Prelude.{◌≡◌};
ghost use Rattle.icet_model.specs.Streams.{WritesAll};
ghost use Rattle.icet_jobs.specs.Texts.{summary_of};

use crate::compositing::Outcome;
use icet_base::{Pen, Sink, WriteFault};
use icet_scene::scene::Scene;
use icet_summary::put_summary;

/// Writes the summary of what came of compositing a scene, and flushes the sink once.
///
/// # Errors
///
/// `WriteFault`; the sink holds a front of the text behind what was written before.
pub fn write_summary<K: Sink>(
    sink: &mut K,
    scene: &Scene,
    outcome: &Outcome,
) -> Result<(), WriteFault>
    ensures { WritesAll (K.told sink.old) (K.told sink.new) result (summary_of scene.now outcome.now.pictures outcome.now.weight) }
{
    let mut pen = Pen::new(sink);
    put_summary(
        &mut pen,
        scene.wide,
        scene.mode,
        scene.background,
        outcome.pictures.as_slice(),
        outcome.weight,
    )?;
    pen.finish()
}
