ghost use Rattle.std.specs.Prelude.{◌≡◌, ◌≢◌, ◌≤◌, ◌<◌, ◌+◌, ◌-◌, ◌↔◌, ◌==◌, ◌++◌, ◌∷◌, [], All, IfOk, IfErr, OnOk, IfSome, Some, None, IsSome, List, length, map, option_map, true};
ghost use Rattle.std.specs.List.{list_all, list_any};
ghost use Rattle.std.specs.Option.{option_copied};
ghost use Rattle.icet_model.specs.declared.limits.TheConstants.{MAX_PLACE, MAX_SIDE};
ghost use Rattle.icet_model.specs.Tiles.{IsTileArea};
ghost use Rattle.icet_tiles.specs.Layouts.{tile_view};
ghost use Rattle.icet_raster.specs.Shapes.{IsCorner, IsInRange, corner_of, drawing_of, triangle_of};
ghost use Rattle.icet_text.specs.Numbers.{size_at};
ghost use Rattle.icet_text.specs.Words.{words_behind};
ghost use Rattle.icet_scene_model.specs.Lawful.{IsPaint, IsPaintedCorner, IsPaintedTriangle};
ghost use Rattle.icet_scene_model.specs.Raster.{Point, Span};
ghost use Rattle.icet_scene_model.specs.Scene.{Said, TileIs, ranks_in, maxval_in, tiles_in};
ghost use Rattle.icet_scene_model.specs.SceneLines.{has_form, ranged, said_in, tile_of, paint_at, paints_in, corner_at, is_premultiplied};
ghost use Rattle.icet_scene_model.specs.declared.keyword.Keyword.TheVariants.{Tile as TileWord, Point as PointWord, Tri as TriWord, Span as SpanWord};
ghost use Rattle.icet_scene.specs.declared.draft.Draft.{Draft};
ghost use Rattle.icet_scene.specs.Drafts.{IsAddable, keyword_stands};
ghost use Rattle.icet_scene.specs.Lines.{IsLine, HasTileNumbers, HasPaintAt, HasCornerAt, IsRowFault, row_fault, triangle_at, tri_paints};

use crate::line::Line;
use crate::numbers::{
    from_to, paint, paint_fields, rank_field, stand_fields, tile_fields, tri_fields,
};
use icet_base::limits::{MAX_DEPTH, MAX_PLACE, MAX_SIDE};
use icet_base::{NoMemory, Rank, Rect};
use icet_pixel::Fragment;
use icet_raster::{Paints, Shape, Vertex};
use icet_scene_model::fault::LineFault;
use icet_text::Number;
use icet_text::numbers::{lead, numbers, signed, size};
use icet_tiles::Tile;
use std::alloc::Global;

/// A tile that a rank displays which displays no earlier one.
#[tactic(auto, using(crate::proofs::ShapeLines::tile_taken, crate::proofs::ShapeLines::tile_says, crate::proofs::ShapeLines::tile_fresh))]
pub fn tile_line(ranks: u32, tiles: &[Tile], words: Option<&[u8]>) -> Result<Line, LineFault>
    ensures line { (before : List Said) → ranks_in before ≡ ranks → tiles_in before ≡ map tile_view tiles.now → IsLine result (ranged before (said_in before TileWord (words_behind (option_copied words.entry)))) }
    ensures addable { (d : Draft) → keyword_stands d TileWord ≡ true → d.ranks ≡ ranks → d.tiles.items ≡ tiles.now → IfOk result (IsAddable d) }
{
    match numbers(&tile_fields(ranks), words) {
        None => Err(LineFault::OutOfRange),
        Some(ns) => match tile(ranks, ns.as_slice()) {
            None => Err(LineFault::OutOfRange),
            Some(tile) => {
                if is_taken(tiles, tile.display) {
                    Err(LineFault::RankTaken)
                } else {
                    Ok(Line::Tile(tile))
                }
            }
        },
    }
}

/// The tile of its five numbers; None where its right or bottom edge lies beyond the greatest display.
fn tile(ranks: u32, ns: &[Number]) -> Option<Tile>
    requires { HasTileNumbers ranks ns.now }
    ensures tile { option_map (λ tile. TileIs (tile_view tile)) result ≡ tile_of ns.now }
    ensures area { IfSome result (λ tile. IsTileArea tile.area) }
    ensures display { IfSome result (λ tile. tile.display ≤ ranks - 1) }
{
    let (x, y, w, h) = (size(ns, 0), size(ns, 1), size(ns, 2), size(ns, 3));
    if x + w > MAX_SIDE || y + h > MAX_SIDE {
        return None;
    }
    let area = Rect {
        x: x as i32,
        y: y as i32,
        w,
        h,
    };
    Some(Tile {
        area,
        display: Rank(size(ns, 4)),
    })
}

/// Whether the rank displays one of the tiles.
fn is_taken(tiles: &[Tile], rank: Rank) -> bool
    ensures { result ≡ list_any (λ tile. tile.display == rank) tiles.now }
{
    tiles.iter().any(|tile| tile.display == rank)
}

/// A point of a rank.
#[tactic(auto, using(crate::proofs::ShapeLines::point_refused, crate::proofs::ShapeLines::point_says))]
pub fn point_line(ranks: u32, most: u32, words: Option<&[u8]>) -> Result<Line, LineFault>
    requires { most ≤ 65535 }
    ensures line { (before : List Said) → ranks_in before ≡ ranks → maxval_in before ≡ most → IsLine result (ranged before (said_in before PointWord (words_behind (option_copied words.entry)))) }
    ensures addable { (d : Draft) → keyword_stands d PointWord ≡ true → d.ranks ≡ ranks → d.maxval ≡ most → IfOk result (IsAddable d) }
{
    let (place, depth, channel) = (
        from_to(0, MAX_PLACE),
        from_to(0, MAX_DEPTH),
        from_to(0, most),
    );
    let fields = [
        rank_field(ranks),
        place,
        place,
        depth,
        channel,
        channel,
        channel,
        channel,
    ];
    match numbers(&fields, words) {
        None => Err(LineFault::OutOfRange),
        Some(ns) => {
            let ns = ns.as_slice();
            match paint(most, ns, 3) {
                None => Err(LineFault::NotPremultiplied),
                Some(paint) => Ok(Line::Shape(Rank(size(ns, 0)), point(ns, paint))),
            }
        }
    }
}

/// The point of this paint whose column and row stand behind the rank.
fn point(ns: &[Number], paint: Fragment) -> Shape
    requires count { 3 ≤ length ns.now }
    requires x { size_at ns.now 1 ≤ MAX_PLACE }
    requires y { size_at ns.now 2 ≤ MAX_PLACE }
    ensures drawing { drawing_of result ≡ Point (size_at ns.now 1) (size_at ns.now 2) paint }
    ensures in_range { IsInRange result }
{
    Shape::Point {
        x: size(ns, 1) as i32,
        y: size(ns, 2) as i32,
        paint,
    }
}

/// A triangle of a rank.
#[tactic(auto, using(crate::proofs::ShapeLines::tri_refused, crate::proofs::ShapeLines::tri_says, crate::proofs::Growth::tri_stands))]
#[inline(always)]
pub fn tri_line(ranks: u32, most: u32, words: Option<&[u8]>) -> Result<Line, LineFault>
    requires { most ≤ 65535 }
    ensures line { (before : List Said) → ranks_in before ≡ ranks → maxval_in before ≡ most → IsLine result (ranged before (said_in before TriWord (words_behind (option_copied words.entry)))) }
    ensures form { OnOk result (has_form TriWord (words_behind (option_copied words.entry)) ≡ true) }
    ensures addable { (d : Draft) → keyword_stands d TriWord ≡ true → d.ranks ≡ ranks → d.maxval ≡ most → IfOk result (IsAddable d) }
{
    match numbers(&tri_fields(ranks, most), words) {
        None => Err(LineFault::OutOfRange),
        Some(ns) => {
            let ns = ns.as_slice();
            match corners(most, ns) {
                None => Err(LineFault::NotPremultiplied),
                Some(corners) => Ok(Line::Shape(Rank(size(ns, 0)), Shape::Tri { corners })),
            }
        }
    }
}

/// The three corners behind the rank; None where a paint isn't premultiplied.
#[inline(always)]
fn corners(most: u32, ns: &[Number]) -> Option<[Vertex; 3]>
    requires most { most ≤ 65535 }
    requires a { HasCornerAt most ns.now 1 }
    requires b { HasCornerAt most ns.now 8 }
    requires c { HasCornerAt most ns.now 15 }
    ensures corners { IfSome result (λ corners. triangle_of corners ≡ triangle_at ns.now) }
    ensures exact { IsSome result ↔ (list_all is_premultiplied (tri_paints ns.now) ≡ true) }
    ensures on_plane { IfSome result (λ corners. All IsCorner corners) }
    ensures painted { IfSome result (λ corners. IsPaintedTriangle most (triangle_of corners)) }
{
    let a = vertex(most, ns, 1)?;
    let b = vertex(most, ns, 8)?;
    let c = vertex(most, ns, 15)?;
    Some([a, b, c])
}

/// The corner whose numbers stand from a place on: its column and row in sixteenths of a pixel, and its paint.
#[inline(always)]
fn vertex(most: u32, ns: &[Number], i: usize) -> Option<Vertex>
    requires most { most ≤ 65535 }
    requires corner { HasCornerAt most ns.now i }
    ensures corner { IfSome result (λ v. corner_of v ≡ corner_at ns.now i) }
    ensures exact { IsSome result ↔ (is_premultiplied (paint_at ns.now (i + 2)) ≡ true) }
    ensures on_plane { IfSome result IsCorner }
    ensures painted { IfSome result (λ v. IsPaintedCorner most (corner_of v)) }
{
    let paint = paint(most, ns, i + 2)?;
    Some(Vertex {
        x: signed(ns, i),
        y: signed(ns, i + 1),
        paint,
    })
}

/// A span of a rank.
#[tactic(auto, using(crate::proofs::Growth::span_stands))]
pub fn span_line(
    alloc: Global,
    ranks: u32,
    most: u32,
    words: Option<&[u8]>,
) -> Result<Line, LineFault>
    requires most { most ≤ 65535 }
    requires some { 8 ≤ length (words_behind (option_copied words)) }
    ensures line { (before : List Said) → ranks_in before ≡ ranks → maxval_in before ≡ most → IsLine result (ranged before (said_in before SpanWord (words_behind (option_copied words.entry)))) }
    ensures addable { (d : Draft) → keyword_stands d SpanWord ≡ true → d.ranks ≡ ranks → d.maxval ≡ most → IfOk result (IsAddable d) }
{
    match lead(&stand_fields(ranks), words) {
        None => Err(LineFault::OutOfRange),
        Some((ns, rest)) => {
            let ns = ns.as_slice();
            match row(alloc, most, MAX_SIDE - size(ns, 1), rest) {
                Err(fault) => Err(fault),
                Ok(paints) => Ok(Line::Shape(Rank(size(ns, 0)), span(ns, paints))),
            }
        }
    }
}

/// The span of these paints whose column and row stand behind the rank.
fn span(ns: &[Number], paints: Vec<Fragment>) -> Shape
    requires count { 3 ≤ length ns.now }
    requires x { size_at ns.now 1 ≤ MAX_PLACE }
    requires y { size_at ns.now 2 ≤ MAX_PLACE }
    requires some { 1 ≤ length paints.items }
    requires within { size_at ns.now 1 + length paints.items ≤ MAX_SIDE }
    ensures drawing { drawing_of result ≡ Span (size_at ns.now 1) (size_at ns.now 2) paints.items }
    ensures in_range { IsInRange result }
{
    Shape::Span {
        x: size(ns, 1) as i32,
        y: size(ns, 2) as i32,
        paints: Paints::of(paints),
    }
}

/// The paints of the words, five words each, in a row with so much room.
fn row(
    alloc: Global,
    most: u32,
    room: u32,
    words: Option<&[u8]>,
) -> Result<Vec<Fragment>, LineFault>
    requires { most ≤ 65535 }
    ensures paints { IfOk result (λ paints. paints_in most (words_behind (option_copied words.entry)) ≡ Some paints.items) }
    ensures painted { IfOk result (λ paints. All (IsPaint most) paints.items) }
    ensures well { OnOk result (row_fault room (paints_in most (words_behind (option_copied words.entry))) ≡ None) }
    ensures fault { IfErr result (λ fault. IsRowFault fault room (paints_in most (words_behind (option_copied words.entry)))) }
{
    let fields = paint_fields(most);
    let mut paints = Vec::new(alloc);
    let mut left = room;
    let mut is_premultiplied = true;
    let mut rest = words;
    while let Some(line) = rest {
        match lead(&fields, Some(line)) {
            None => return Err(LineFault::OutOfRange),
            Some((ns, behind)) => {
                if left == 0 {
                    return Err(LineFault::OutOfRange);
                }
                left -= 1;
                match paint(most, ns.as_slice(), 0) {
                    None => is_premultiplied = false,
                    Some(paint) => keep(&mut paints, paint)?,
                }
                rest = behind;
            }
        }
    }
    if is_premultiplied {
        Ok(paints)
    } else {
        Err(LineFault::NotPremultiplied)
    }
}

fn keep(paints: &mut Vec<Fragment>, paint: Fragment) -> Result<(), NoMemory>
    ensures { OnOk result (paints.new.items ≡ paints.old.items ++ paint ∷ []) }
{
    paints.push(paint)?;
    Ok(())
}
