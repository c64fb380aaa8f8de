ghost use Rattle.std.specs.Prelude.{◌≡◌, ◌<◌, ◌==◌, ◌∷◌, ℕ, [], IfOk, IfSome, length, position};
ghost use Rattle.std.specs.List.{slice_split};
ghost use Rattle.std.specs.Option.{option_copied};
ghost use Rattle.icet_words.specs.Schedules.{entries_behind, schedule_of};

use icet_base::NoMemory;
use icet_base::limits::{MAX_RANKS, MAX_SCHEDULE};
use icet_text::numeral::natural;
use std::alloc::Global;
use std::marker::Model;

/// The ranks that are told to go on, one after the other.
#[derive(Drop)]
pub struct Schedule {
    ranks: Vec<u32>,
}

impl Model for Schedule {
    ghost use Rattle.std.specs.Prelude.{ℕ, List};

    ghost Value = { List ℕ };

    ghost view = { λ s. s.ranks.items };
}

impl Schedule {
    /// No ranks.
    pub fn empty(alloc: Global) -> Schedule
        ensures { result ≡ [] }
    {
        Schedule {
            ranks: Vec::new(alloc),
        }
    }

    /// The ranks in their order.
    pub fn as_slice(&self) -> &[u32]
        ensures { result.now ≡ self.now }
    {
        self.ranks.as_slice()
    }
}

/// The ranks of a schedule, joined by commas. It is given up at the first word that is no rank and
/// where there are too many, so that it never takes more memory than a schedule may.
pub fn schedule_of(alloc: Global, text: &[u8]) -> Result<Option<Schedule>, NoMemory>
    ensures { IfOk result (λ read. read ≡ schedule_of text.now) }
{
    let mut ranks = Vec::new(alloc);
    let mut rest = Some(text);
    while let Some(entries) = rest {
        if ranks.len() == MAX_SCHEDULE {
            return Ok(None);
        }
        let (entry, behind) = split_entry(entries);
        match natural((0, MAX_RANKS - 1), entry) {
            None => return Ok(None),
            Some(rank) => ranks.push(rank)?,
        }
        rest = behind;
    }
    Ok(Some(Schedule { ranks }))
}

/// The first entry of a schedule, and what is behind the comma that ends it.
fn split_entry(entries: &[u8]) -> (&[u8], Option<&[u8]>)
    ensures { slice_split (λ byte. byte == 44) entries.now ≡ result.0.now ∷ entries_behind (option_copied result.1) }
{
    match place_of(entries, b',') {
        None => (entries, None),
        Some(at) => (&entries[..at], Some(&entries[at + 1..])),
    }
}

/// Where the byte stands first.
fn place_of(bytes: &[u8], byte: u8) -> Option<usize>
    ensures first { result ≡ position (λ b. b == byte) bytes.now }
    ensures within { IfSome result (λ at. at < length bytes.now) }
{
    bytes.iter().position(|b| *b == byte)
}
