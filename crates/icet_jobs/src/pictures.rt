ghost use Rattle.std.specs.Prelude.{◌≡◌, false};
ghost use Rattle.icet_model.specs.Streams.{WritesAll};
ghost use Rattle.icet_base.specs.PenText.{Puts};
ghost use Rattle.icet_jobs.specs.Texts.{pictures_text, texts_of};

use crate::compositing::Outcome;
use icet_base::{Mode, Pen, Sink, WriteFault};
use icet_pam::write_picture;
use icet_pixel::{Dense, Fragment};
use icet_scene::scene::Scene;

/// Writes the picture texts of the tiles, in order, and flushes the sink once.
///
/// # Errors
///
/// `WriteFault`; the sink holds a front of the texts behind what was written before.
pub fn write_pictures<K: Sink>(
    sink: &mut K,
    scene: &Scene,
    outcome: &Outcome,
) -> Result<(), WriteFault>
    ensures { WritesAll (K.told sink.old) (K.told sink.new) result (texts_of scene.now outcome.now.pictures) }
{
    let mut pen = Pen::new(sink);
    put_pictures(
        &mut pen,
        scene.wide,
        scene.mode,
        outcome.pictures.as_slice(),
        scene.background,
    )?;
    pen.finish()
}

/// Puts the text of each picture.
fn put_pictures<K: Sink>(
    pen: &mut Pen<'_, K>,
    wide: bool,
    mode: Mode,
    pictures: &[Dense],
    background: Fragment,
) -> Result<(), WriteFault>
    requires { pen.old.failed ≡ false }
    ensures { Puts K.told pen.old pen.new result (pictures_text wide mode background pictures.now) }
{
    for picture in pictures {
        write_picture(pen, mode, picture, background, wide)?;
    }
    Ok(())
}
