ghost use Rattle.std.specs.Prelude.{◌≡◌, ◌≤◌, ◌<◌, ◌-◌, List, ◌↔◌, IfOk, IfSome, IsSome, true};
ghost use Rattle.std.specs.Option.{option_copied};
ghost use Rattle.icet_text.specs.Words.{words_behind, counted};
ghost use Rattle.icet_scene_model.specs.Lawful.{IsPaint};
ghost use Rattle.icet_scene_model.specs.Scene.{Said, BackgroundIs, version_in, ranks_in, maxval_in};
ghost use Rattle.icet_scene_model.specs.SceneLines.{ranged, said_in, all_differ, background_of, is_premultiplied};
ghost use Rattle.icet_scene_model.specs.declared.keyword.Keyword.TheVariants.{Head, Mode, Ranks, Maxval, Background, Order};
ghost use Rattle.icet_scene.specs.declared.draft.Draft.{Draft};
ghost use Rattle.icet_scene.specs.Drafts.{IsAddable, keyword_stands};
ghost use Rattle.icet_scene.specs.Lines.{IsLine, HasColour, colour_of, counts_to};

use crate::form::mode_in;
use crate::line::Line;
use crate::numbers::{from_to, most_ranks, rank_field};
use icet_base::{NoMemory, Rank};
use icet_pixel::Fragment;
use icet_scene_model::fault::LineFault;
use icet_scene_model::limits::{NARROW_CHANNEL, WIDE_CHANNEL};
use icet_text::Number;
use icet_text::numbers::{are_in, numbers, size, sizes};
use icet_text::words::count_numerals;
use std::alloc::Global;

/// The version of the text.
pub fn head_line(words: Option<&[u8]>) -> Result<Line, LineFault>
    ensures line { (before : List Said) → IsLine result (ranged before (said_in before Head (words_behind (option_copied words.entry)))) }
    ensures addable { (d : Draft) → keyword_stands d Head ≡ true → IfOk result (IsAddable d) }
{
    match numbers(&[from_to(1, 2)], words) {
        None => Err(LineFault::OutOfRange),
        Some(ns) => Ok(Line::Head(size(ns.as_slice(), 0))),
    }
}

/// Whether the scene blends.
pub fn mode_line(words: Option<&[u8]>) -> Result<Line, LineFault>
    ensures line { (before : List Said) → IsLine result (ranged before (said_in before Mode (words_behind (option_copied words.entry)))) }
    ensures addable { (d : Draft) → keyword_stands d Mode ≡ true → IfOk result (IsAddable d) }
{
    match mode_in(words) {
        None => Err(LineFault::OutOfRange),
        Some(blends) => Ok(Line::Mode(blends)),
    }
}

/// The number of ranks, in a text of this version.
pub fn ranks_line(version: u32, words: Option<&[u8]>) -> Result<Line, LineFault>
    ensures line { (before : List Said) → version_in before ≡ version → IsLine result (ranged before (said_in before Ranks (words_behind (option_copied words.entry)))) }
    ensures addable { (d : Draft) → keyword_stands d Ranks ≡ true → IfOk result (IsAddable d) }
{
    match numbers(&[from_to(1, most_ranks(version))], words) {
        None => Err(LineFault::OutOfRange),
        Some(ns) => Ok(Line::Ranks(size(ns.as_slice(), 0))),
    }
}

/// The greatest value of a colour channel.
pub fn maxval_line(words: Option<&[u8]>) -> Result<Line, LineFault>
    ensures line { (before : List Said) → IsLine result (ranged before (said_in before Maxval (words_behind (option_copied words.entry)))) }
    ensures addable { (d : Draft) → keyword_stands d Maxval ≡ true → IfOk result (IsAddable d) }
{
    match numbers(&[from_to(NARROW_CHANNEL, WIDE_CHANNEL)], words) {
        None => Err(LineFault::OutOfRange),
        Some(ns) => {
            let greatest = size(ns.as_slice(), 0);
            if greatest == NARROW_CHANNEL || greatest == WIDE_CHANNEL {
                Ok(Line::Maxval(greatest))
            } else {
                Err(LineFault::OutOfRange)
            }
        }
    }
}

/// The background, with channels up to the greatest.
#[tactic(auto, using(crate::proofs::Paints::background_refused))]
pub fn background_line(most: u32, words: Option<&[u8]>) -> Result<Line, LineFault>
    requires { most ≤ 65535 }
    ensures line { (before : List Said) → maxval_in before ≡ most → IsLine result (ranged before (said_in before Background (words_behind (option_copied words.entry)))) }
    ensures addable { (d : Draft) → keyword_stands d Background ≡ true → d.maxval ≡ most → IfOk result (IsAddable d) }
{
    let channel = from_to(0, most);
    match numbers(&[channel, channel, channel, channel], words) {
        None => Err(LineFault::OutOfRange),
        Some(ns) => match background(most, ns.as_slice()) {
            None => Err(LineFault::NotPremultiplied),
            Some(paint) => Ok(Line::Background(paint)),
        },
    }
}

/// The background of its four channels; None where one exceeds the alpha.
fn background(most: u32, ns: &[Number]) -> Option<Fragment>
    requires most { most ≤ 65535 }
    requires colour { HasColour most ns.now }
    ensures paint { IfSome result (λ paint. BackgroundIs paint ≡ background_of ns.now) }
    ensures exact { IsSome result ↔ (is_premultiplied (colour_of ns.now) ≡ true) }
    ensures depth { IfSome result (λ paint. paint.z ≡ 0) }
    ensures lawful { IfSome result (IsPaint most) }
{
    Fragment::new(
        size(ns, 0) as u16,
        size(ns, 1) as u16,
        size(ns, 2) as u16,
        size(ns, 3) as u16,
        0,
    )
}

/// The order of so many ranks, the first of which is the front.
#[tactic(auto, using(crate::proofs::Orders::order_miscounted, crate::proofs::Orders::order_repeats, crate::proofs::Orders::order_says, crate::proofs::Orders::order_lawful))]
pub fn order_line(alloc: Global, ranks: u32, words: Option<&[u8]>) -> Result<Line, LineFault>
    requires { 1 ≤ ranks }
    ensures line { (before : List Said) → ranks_in before ≡ ranks → IsLine result (ranged before (said_in before Order (words_behind (option_copied words.entry)))) }
    ensures addable { (d : Draft) → keyword_stands d Order ≡ true → d.ranks ≡ ranks → IfOk result (IsAddable d) }
{
    let field = rank_field(ranks);
    if !are_in(field, words) {
        return Err(LineFault::OutOfRange);
    }
    if !has_words(ranks, words) {
        return Err(LineFault::BadOrder);
    }
    match sizes(alloc, field, words)? {
        None => Err(LineFault::OutOfRange),
        Some(order) => {
            if all_differ(order.as_slice()) {
                Ok(Line::Order(ranks_of(alloc, order.as_slice())?))
            } else {
                Err(LineFault::BadOrder)
            }
        }
    }
}

/// Whether so many numerals stand there, and nothing else.
fn has_words(count: u32, words: Option<&[u8]>) -> bool
    ensures { result ≡ counts_to count (counted (words_behind (option_copied words.entry))) }
{
    match count_numerals(words) {
        None => false,
        Some(n) => n == count as usize,
    }
}

/// Whether no number stands twice. There are as many as ranks, so few.
fn all_differ(numbers: &[u32]) -> bool
    ensures { result ≡ all_differ numbers.now }
{
    for (i, number) in numbers.iter().enumerate() {
        if numbers[i + 1..].contains(number) {
            return false;
        }
    }
    true
}

/// The ranks of these numbers.
fn ranks_of(alloc: Global, numbers: &[u32]) -> Result<Vec<Rank>, NoMemory>
    ensures { IfOk result (λ ranks. ranks.items ≡ numbers.now) }
{
    let mut ranks = Vec::with_capacity(alloc, numbers.len())?;
    for number in numbers {
        ranks.push(Rank(*number))?;
    }
    Ok(ranks)
}
