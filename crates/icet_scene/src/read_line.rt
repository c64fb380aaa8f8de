ghost use Rattle.std.specs.Prelude.{◌≡◌, List, IfOk, IfSome, Some, true};
ghost use Rattle.std.specs.Option.{option_copied};
ghost use Rattle.icet_text.specs.Words.{words_behind};
ghost use Rattle.icet_scene_model.specs.Scene.{Said};
ghost use Rattle.icet_scene_model.specs.SceneLines.{Says, has_form, keyword_reading, line_behind, ranged, said_in};
ghost use Rattle.icet_scene.specs.Drafts.{IsAddable, IsDraft, HasPlace, keyword_stands};
ghost use Rattle.icet_scene.specs.Lines.{IsLine, IsLineOrSkipped, said_of};
ghost use Rattle.icet_scene_model.specs.declared.keyword.Keyword.TheVariants.{Tri as TriWord};

use crate::draft::Draft;
use crate::form::{are_allowed, has_form, is_skipped, keyword_of, may_stand};
use crate::line::Line;
use crate::numbers::most_tiles;
use crate::opening::{background_line, head_line, maxval_line, mode_line, order_line, ranks_line};
use crate::shapes::{point_line, span_line, tile_line, tri_line};
use icet_scene_model::fault::LineFault;
use icet_scene_model::keyword::Keyword;
use icet_text::words::split_word;
use std::alloc::Global;

/// What a line says behind what was read so far; None where it is skipped.
pub fn read_line(alloc: Global, draft: &Draft, line: &[u8]) -> Result<Option<Line>, LineFault>
    requires { HasPlace draft.now.place draft.now }
    ensures line { (before : List Said) → IsDraft before draft.now → IsLineOrSkipped result (line_behind before line.now) }
    ensures addable { IfOk result (λ said. IfSome said (IsAddable draft.now)) }
{
    if !are_allowed(line) {
        return Err(LineFault::BadByte);
    }
    if is_skipped(line) {
        return Ok(None);
    }
    let (first, words) = split_word(line);
    match keyword_of(draft.version, first) {
        None => Err(LineFault::BadLine),
        Some(keyword) => match form_line(alloc, draft, keyword, words) {
            Err(fault) => Err(fault),
            Ok(line) => Ok(Some(line)),
        },
    }
}

/// What the line of a keyword says.
fn form_line(
    alloc: Global,
    draft: &Draft,
    keyword: Keyword,
    words: Option<&[u8]>,
) -> Result<Line, LineFault>
    requires { HasPlace draft.now.place draft.now }
    ensures line { (before : List Said) → IsDraft before draft.now → IsLine result (keyword_reading before (Some keyword) (words_behind (option_copied words.entry))) }
    ensures addable { IfOk result (IsAddable draft.now) }
{
    match keyword {
        Keyword::Tri => match faultless_tri(draft, words) {
            Some(line) => Ok(line),
            None => checked_line(alloc, draft, keyword, words),
        },
        _ => checked_line(alloc, draft, keyword, words),
    }
}

/// The triangle of a line without fault, whose words are read once. None says nothing of the line.
#[tactic(auto, using(crate::proofs::Growth::is_sound))]
fn faultless_tri(draft: &Draft, words: Option<&[u8]>) -> Option<Line>
    requires { HasPlace draft.now.place draft.now }
    ensures line { (before : List Said) → IsDraft before draft.now → IfSome result (λ line. keyword_reading before (Some TriWord) (words_behind (option_copied words.entry)) ≡ Says (said_of line)) }
    ensures addable { IfSome result (IsAddable draft.now) }
{
    if !stands(draft, Keyword::Tri) {
        return None;
    }
    match tri_line(draft.ranks, draft.maxval, words) {
        Err(_) => None,
        Ok(line) => Some(line),
    }
}

/// What the line of a keyword says, where its form is tested first, and then its place.
fn checked_line(
    alloc: Global,
    draft: &Draft,
    keyword: Keyword,
    words: Option<&[u8]>,
) -> Result<Line, LineFault>
    requires { HasPlace draft.now.place draft.now }
    ensures line { (before : List Said) → IsDraft before draft.now → IsLine result (keyword_reading before (Some keyword) (words_behind (option_copied words.entry))) }
    ensures addable { IfOk result (IsAddable draft.now) }
{
    if !has_form(keyword, words) {
        return Err(LineFault::BadLine);
    }
    if !stands(draft, keyword) {
        return Err(LineFault::OutOfPlace);
    }
    keyword_line(alloc, draft, keyword, words)
}

/// Whether a line of the keyword may stand behind what was read so far.
fn stands(draft: &Draft, keyword: Keyword) -> bool
    ensures { result ≡ keyword_stands draft.now keyword }
{
    let room = draft.tiles.len() < most_tiles(draft.version) as usize;
    may_stand(draft.place, draft.blends, room, keyword)
}

/// What the line of a keyword says that has its form and may stand there.
#[tactic(auto, using(crate::proofs::Growth::is_sound, crate::proofs::Growth::order_ranked, crate::proofs::SpanWords::many_words))]
fn keyword_line(
    alloc: Global,
    draft: &Draft,
    keyword: Keyword,
    words: Option<&[u8]>,
) -> Result<Line, LineFault>
    requires place { HasPlace draft.now.place draft.now }
    requires form { has_form keyword (words_behind (option_copied words)) ≡ true }
    requires stands { keyword_stands draft.now keyword ≡ true }
    ensures line { (before : List Said) → IsDraft before draft.now → IsLine result (ranged before (said_in before keyword (words_behind (option_copied words.entry)))) }
    ensures addable { IfOk result (IsAddable draft.now) }
{
    let most = draft.maxval;
    match keyword {
        Keyword::Head => head_line(words),
        Keyword::Mode => mode_line(words),
        Keyword::Ranks => ranks_line(draft.version, words),
        Keyword::Maxval => maxval_line(words),
        Keyword::Background => background_line(most, words),
        Keyword::Order => order_line(alloc, draft.ranks, words),
        Keyword::Tile => tile_line(draft.ranks, draft.tiles.as_slice(), words),
        Keyword::Point => point_line(draft.ranks, most, words),
        Keyword::Tri => tri_line(draft.ranks, most, words),
        Keyword::Span => span_line(alloc, draft.ranks, most, words),
        Keyword::End => Ok(Line::End),
    }
}
