ghost use Rattle.std.specs.Prelude.{◌≡◌, ◌∷◌, []};
ghost use Rattle.std.specs.Option.{option_copied};
ghost use Rattle.std.specs.List.{list_all};
ghost use Rattle.icet_text.specs.Words.{words_behind, counted};
ghost use Rattle.icet_scene_model.specs.SceneLines.{is_allowed, is_skipped, keyword_of, fits, mode_in, counts, has_form, opens, is_of_body, may_stand};
ghost use Rattle.icet_scene_model.specs.Texts.{opening, wanted};

use icet_scene_model::fault::Want;
use icet_scene_model::keyword::{Keyword, Place};
use icet_text::words::{count_numerals, split_word};

/// Whether each byte may stand in a line.
pub fn are_allowed(line: &[u8]) -> bool
    ensures { result ≡ list_all is_allowed line.now }
{
    // with no way out of the loop, many bytes are tested at once
    let mut has_other = false;
    for byte in line {
        if *byte < 32 || 126 < *byte {
            has_other = true;
        }
    }
    !has_other
}

/// Whether the line is empty, or a comment.
pub fn is_skipped(line: &[u8]) -> bool
    ensures { result ≡ is_skipped line.now }
{
    match line {
        [] => true,
        [first, ..] => *first == b'#',
    }
}

/// The keyword of a line's first word, in a text of this version.
pub fn keyword_of(version: u32, word: &[u8]) -> Option<Keyword>
    ensures { result ≡ keyword_of version word.now }
{
    if word == b"icet-scene".as_slice() {
        Some(Keyword::Head)
    } else if word == b"mode".as_slice() {
        Some(Keyword::Mode)
    } else if word == b"ranks".as_slice() {
        Some(Keyword::Ranks)
    } else if word == b"background".as_slice() {
        Some(Keyword::Background)
    } else if word == b"order".as_slice() {
        Some(Keyword::Order)
    } else if word == b"tile".as_slice() {
        Some(Keyword::Tile)
    } else if word == b"point".as_slice() {
        Some(Keyword::Point)
    } else if word == b"tri".as_slice() {
        Some(Keyword::Tri)
    } else if word == b"end".as_slice() {
        Some(Keyword::End)
    } else if version == 2 && word == b"maxval".as_slice() {
        Some(Keyword::Maxval)
    } else if version == 2 && word == b"span".as_slice() {
        Some(Keyword::Span)
    } else {
        None
    }
}

/// Whether so many numerals may stand behind the keyword.
fn fits(keyword: Keyword, count: usize) -> bool
    ensures { result ≡ fits keyword count }
{
    match keyword {
        Keyword::Head | Keyword::Ranks | Keyword::Maxval => count == 1,
        Keyword::Mode => false,
        Keyword::Background => count == 4,
        Keyword::Order => 1 <= count,
        Keyword::Tile => count == 5,
        Keyword::Point => count == 8,
        Keyword::Tri => count == 22,
        Keyword::Span => 8 <= count && (count - 3) % 5 == 0,
        Keyword::End => count == 0,
    }
}

/// Whether the mode of these words blends; None where they are no mode.
pub fn mode_in(words: Option<&[u8]>) -> Option<bool>
    ensures { result ≡ mode_in (words_behind (option_copied words.entry)) }
{
    let (word, rest) = split_word(words?);
    match rest {
        None => mode_of(word),
        Some(_) => None,
    }
}

fn mode_of(word: &[u8]) -> Option<bool>
    ensures { result ≡ mode_in (word.now ∷ []) }
{
    if word == b"depth".as_slice() {
        Some(false)
    } else if word == b"blend".as_slice() {
        Some(true)
    } else {
        None
    }
}

/// Whether the words behind a keyword are those of its form.
pub fn has_form(keyword: Keyword, words: Option<&[u8]>) -> bool
    ensures { result ≡ has_form keyword (words_behind (option_copied words.entry)) }
{
    match keyword {
        Keyword::Mode => mode_in(words).is_some(),
        _ => has_numerals(keyword, words),
    }
}

/// Whether as many numerals as the keyword wants stand behind it, and nothing else.
fn has_numerals(keyword: Keyword, words: Option<&[u8]>) -> bool
    ensures { result ≡ counts keyword (counted (words_behind (option_copied words.entry))) }
{
    match count_numerals(words) {
        None => false,
        Some(count) => fits(keyword, count),
    }
}

fn opens(blends: bool, keyword: Keyword) -> bool
    ensures { result ≡ opens blends keyword }
{
    match keyword {
        Keyword::Order => blends,
        Keyword::Tile => !blends,
        _ => false,
    }
}

fn is_of_body(keyword: Keyword) -> bool
    ensures { result ≡ is_of_body keyword }
{
    matches!(
        keyword,
        Keyword::Point | Keyword::Tri | Keyword::Span | Keyword::End
    )
}

/// Whether a line of the keyword may stand at a place, in a scene that blends or doesn't, and has room for a
/// further tile or hasn't.
pub fn may_stand(place: Place, blends: bool, room: bool, keyword: Keyword) -> bool
    ensures { result ≡ may_stand place blends room keyword }
{
    match place {
        Place::Start => matches!(keyword, Keyword::Head),
        Place::BehindHead => matches!(keyword, Keyword::Mode),
        Place::BehindMode => matches!(keyword, Keyword::Ranks),
        Place::BehindRanks => match keyword {
            Keyword::Maxval | Keyword::Background => true,
            _ => opens(blends, keyword),
        },
        Place::BehindMaxval => match keyword {
            Keyword::Background => true,
            _ => opens(blends, keyword),
        },
        Place::BehindBackground => opens(blends, keyword),
        Place::BehindOrder => matches!(keyword, Keyword::Tile),
        Place::BehindTile => match keyword {
            Keyword::Tile => room,
            _ => is_of_body(keyword),
        },
        Place::BehindShape => is_of_body(keyword),
        Place::BehindEnd => false,
    }
}

/// What has to come next at a place; nothing behind `end`.
pub fn wanted(place: Place, blends: bool) -> Option<Want>
    ensures { result ≡ wanted place blends }
{
    match place {
        Place::Start => Some(Want::Head),
        Place::BehindHead => Some(Want::Mode),
        Place::BehindMode => Some(Want::Ranks),
        Place::BehindRanks | Place::BehindMaxval | Place::BehindBackground => {
            Some(if blends { Want::Order } else { Want::Tile })
        }
        Place::BehindOrder => Some(Want::Tile),
        Place::BehindTile | Place::BehindShape => Some(Want::End),
        Place::BehindEnd => None,
    }
}
