ghost use Rattle.std.specs.Prelude.{◌≡◌, ◌++◌, ◌∷◌, [], false, map, length};
ghost use Rattle.std.specs.List.{list_any};
ghost use Rattle.icet_model.specs.Streams.{WritesAll};
ghost use Rattle.icet_base.specs.PenText.{Puts};
ghost use Rattle.icet_raster.specs.Shapes.{drawing_of};
ghost use Rattle.icet_scene.specs.Lines.{placed_of};
ghost use Rattle.icet_scene_model.specs.Lawful.{is_blending};
ghost use Rattle.icet_scene_model.specs.Scene.{Draws, EndIs, TileIs};
ghost use Rattle.icet_scene_model.specs.Printed.{background_said, body_said, head_said, is_clear, is_span, lines_text, maxval_said, needs_second_version, order_said, printed, settings_said, text_in, upgraded, version_of};

use crate::lines::{
    put_background, put_count, put_maxval, put_mode, put_order, put_shape, put_tile, put_version,
};
use icet_base::{Mode, Pen, Rank, Sink, WriteFault};
use icet_pixel::Fragment;
use icet_raster::Shape;
use icet_scene::scene::Scene;
use icet_scene_model::limits::{FIRST_VERSION_RANKS, FIRST_VERSION_TILES, WIDE_CHANNEL};
use icet_tiles::Layout;

/// Writes a scene's text: the version, the mode, the ranks, the greatest channel value where it is 65535, the
/// background where it isn't `0 0 0 0`, the order where the scene blends, the tiles, the shapes in their order,
/// and the end. The version is 2 exactly where the scene needs it. The sink is flushed once.
///
/// # Errors
///
/// `WriteFault`; the sink holds a front of the text behind what was written before.
pub fn print<K: Sink>(sink: &mut K, scene: &Scene) -> Result<(), WriteFault>
    ensures { WritesAll (K.told sink.old) (K.told sink.new) result (printed scene.now) }
{
    write_text(sink, version_of(scene), scene)
}

/// Writes the text of a scene whose shapes are ready drawn: the same lines in the same order, in version 2 whatever the
/// scene needs. The sink is flushed once.
///
/// # Errors
///
/// `WriteFault`; the sink holds a front of the text behind what was written before.
pub fn write_upgrade<K: Sink>(sink: &mut K, ready: &Scene) -> Result<(), WriteFault>
    ensures { WritesAll (K.told sink.old) (K.told sink.new) result (upgraded ready.now) }
{
    write_text(sink, 2, ready)
}

/// Writes a scene's text of a version.
fn write_text<K: Sink>(sink: &mut K, version: u32, scene: &Scene) -> Result<(), WriteFault>
    ensures { WritesAll (K.told sink.old) (K.told sink.new) result (text_in version scene.now) }
{
    let mut pen = Pen::new(sink);
    put_scene(&mut pen, version, scene)?;
    pen.finish()
}

#[tactic(auto, using(crate::proofs::LinePieces::lines_then, crate::proofs::LinePieces::lines_failed))]
fn put_scene<K: Sink>(pen: &mut Pen<'_, K>, version: u32, scene: &Scene) -> Result<(), WriteFault>
    requires { pen.old.failed ≡ false }
    ensures { Puts K.told pen.old pen.new result (text_in version scene.now) }
{
    put_head(pen, version, scene)?;
    put_settings(pen, scene)?;
    put_body(pen, scene)
}

/// The lines that every text begins with.
#[tactic(auto, using(crate::proofs::LinePieces::lines_then, crate::proofs::LinePieces::lines_failed, crate::proofs::LinePieces::one_line))]
fn put_head<K: Sink>(pen: &mut Pen<'_, K>, version: u32, scene: &Scene) -> Result<(), WriteFault>
    requires { pen.old.failed ≡ false }
    ensures { Puts K.told pen.old pen.new result (lines_text (head_said version scene.now)) }
{
    put_version(pen, version)?;
    put_mode(pen, is_blending(scene.mode))?;
    put_count(pen, scene.ranks)
}

/// The lines that stand only where the scene needs them.
#[tactic(auto, using(crate::proofs::LinePieces::lines_then, crate::proofs::LinePieces::lines_failed))]
fn put_settings<K: Sink>(pen: &mut Pen<'_, K>, scene: &Scene) -> Result<(), WriteFault>
    requires { pen.old.failed ≡ false }
    ensures { Puts K.told pen.old pen.new result (lines_text (settings_said scene.now)) }
{
    put_wide(pen, scene.wide)?;
    put_backdrop(pen, scene.background)?;
    put_front(pen, is_blending(scene.mode), scene.order.as_slice())
}

/// The greatest channel value of a wide scene.
#[tactic(auto, using(crate::proofs::LinePieces::one_line))]
fn put_wide<K: Sink>(pen: &mut Pen<'_, K>, wide: bool) -> Result<(), WriteFault>
    requires { pen.old.failed ≡ false }
    ensures { Puts K.told pen.old pen.new result (lines_text (maxval_said wide)) }
{
    if wide {
        put_maxval(pen, WIDE_CHANNEL)
    } else {
        Ok(())
    }
}

/// The background that isn't transparent black.
#[tactic(auto, using(crate::proofs::LinePieces::one_line))]
fn put_backdrop<K: Sink>(pen: &mut Pen<'_, K>, background: Fragment) -> Result<(), WriteFault>
    requires { pen.old.failed ≡ false }
    ensures { Puts K.told pen.old pen.new result (lines_text (background_said background)) }
{
    if is_clear(background) {
        Ok(())
    } else {
        put_background(pen, background)
    }
}

/// The order of a scene that blends.
#[tactic(auto, using(crate::proofs::LinePieces::one_line))]
fn put_front<K: Sink>(pen: &mut Pen<'_, K>, blends: bool, order: &[Rank]) -> Result<(), WriteFault>
    requires { pen.old.failed ≡ false }
    ensures { Puts K.told pen.old pen.new result (lines_text (order_said blends order.now)) }
{
    if blends {
        put_order(pen, order)
    } else {
        Ok(())
    }
}

/// The tiles, the shapes and the end.
#[tactic(auto, using(crate::proofs::LinePieces::lines_then, crate::proofs::LinePieces::lines_failed, crate::proofs::LinePieces::one_line))]
fn put_body<K: Sink>(pen: &mut Pen<'_, K>, scene: &Scene) -> Result<(), WriteFault>
    requires { pen.old.failed ≡ false }
    ensures { Puts K.told pen.old pen.new result (lines_text (body_said scene.now)) }
{
    put_tiles(pen, &scene.layout)?;
    put_shapes(pen, scene.shapes.as_slice())?;
    pen.put(b"end\n")
}

fn put_tiles<K: Sink>(pen: &mut Pen<'_, K>, layout: &Layout) -> Result<(), WriteFault>
    requires { pen.old.failed ≡ false }
    ensures { Puts K.told pen.old pen.new result (lines_text (map TileIs layout.now)) }
{
    for t in 0..layout.count() {
        put_tile(pen, layout.tile(t))?;
    }
    Ok(())
}

fn put_shapes<K: Sink>(pen: &mut Pen<'_, K>, shapes: &[(Rank, Shape)]) -> Result<(), WriteFault>
    requires { pen.old.failed ≡ false }
    ensures { Puts K.told pen.old pen.new result (lines_text (map Draws (map placed_of shapes.now))) }
{
    for (rank, shape) in shapes {
        put_shape(pen, *rank, shape)?;
    }
    Ok(())
}

/// The least version whose texts can say the scene.
fn version_of(scene: &Scene) -> u32
    ensures { result ≡ version_of scene.now }
{
    if needs_second_version(scene) { 2 } else { 1 }
}

/// Whether the scene has something that version 1 doesn't take.
#[tactic(auto, using(crate::proofs::LinePieces::any_placed))]
fn needs_second_version(scene: &Scene) -> bool
    ensures { result ≡ needs_second_version scene.now }
{
    has_span(scene.shapes.as_slice())
        || scene.wide
        || scene.ranks > FIRST_VERSION_RANKS
        || scene.layout.count() > FIRST_VERSION_TILES
}

fn has_span(shapes: &[(Rank, Shape)]) -> bool
    ensures { result ≡ list_any (λ shape. is_span (drawing_of shape.1)) shapes.now }
{
    shapes.iter().any(|shape| is_span(&shape.1))
}

fn is_span(shape: &Shape) -> bool
    ensures { result ≡ is_span (drawing_of shape.now) }
{
    matches!(shape, Shape::Span { .. })
}

/// Whether all four channels are 0.
fn is_clear(paint: Fragment) -> bool
    ensures { result ≡ is_clear paint }
{
    paint.r() == 0 && paint.g() == 0 && paint.b() == 0 && paint.a() == 0
}

fn is_blending(mode: Mode) -> bool
    ensures { result ≡ is_blending mode }
{
    match mode {
        Mode::Depth => false,
        Mode::Blend | Mode::WideBlend => true,
    }
}
