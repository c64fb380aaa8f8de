ghost use Rattle.std.specs.Prelude.{◌≡◌, ◌+◌, ◌≤◌, ◌<◌, ◌^◌, get_or, length};
ghost use Rattle.icet_legs.specs.Task.{IsTask, IsTaskOf, StandsIn, exchange_of};
ghost use Rattle.icet_model.specs.declared.limits.TheConstants.{MAX_RANKS};

use crate::Range;
use icet_base::Rank;
use icet_plan::{Exchange, Kind};
use std::marker::Model;

/// What a strategy for one tile is asked for: the participants by position, one to 256, the number of
/// the tile and of its pixels, the position of the participant that displays it, and the first round.
#[derive(Drop)]
pub struct Task<'a> {
    participants: &'a [Rank],
    tile: u32,
    pixels: u32,
    shows: u32,
    first: u32,
}

impl<'a> Model for Task<'a> {
    ghost use Rattle.icet_legs.specs.Task.{IsTask, TaskView};

    ghost Value = { TaskView };

    ghost view = { λ t. record { participants = t.participants.now; tile = t.tile; pixels = t.pixels; shows = t.shows; first = t.first } };

    ghost invariant = { λ t. IsTask (record { participants = t.participants.now; tile = t.tile; pixels = t.pixels; shows = t.shows; first = t.first }) };
}

impl<'a> Task<'a> {
    /// The task of these participants, of whom one is the display.
    pub fn of(
        participants: &'a [Rank],
        tile: u32,
        pixels: u32,
        display: Rank,
        first: u32,
    ) -> Task<'a>
        requires low { length participants.now ≤ MAX_RANKS }
        requires display { StandsIn participants.now display }
        requires small { pixels < 2 ^ 31 }
        requires early { first < 2 ^ 31 }
        ensures { IsTaskOf participants.now tile pixels display first result }
    {
        Task {
            participants,
            tile,
            pixels,
            shows: position_of(participants, display),
            first,
        }
    }

    /// The number of participants.
    pub fn count(&self) -> u32
        ensures count { result ≡ length self.now.participants }
        ensures task { IsTask self.now }
    {
        self.participants.len() as u32
    }

    /// The number of the tile's pixels.
    pub fn pixels(&self) -> u32
        ensures { result ≡ self.now.pixels }
    {
        self.pixels
    }

    /// The position of the participant that displays the tile.
    pub fn shows(&self) -> u32
        ensures shows { result ≡ self.now.shows }
        ensures within { result < length self.now.participants }
    {
        self.shows
    }

    /// The exchange of a range with the participant at a position, so many rounds behind the first.
    pub fn exchange(&self, kind: Kind, round: u32, peer: u32, range: Range) -> Exchange
        requires round { round < 2 ^ 16 }
        requires peer { peer < length self.now.participants }
        ensures { result ≡ exchange_of self.now kind round peer range }
    {
        Exchange {
            round: self.first + round,
            kind,
            peer: self.participants[peer as usize],
            tile: self.tile,
            lo: range.lo,
            hi: range.hi,
        }
    }
}

// the position of a rank of the list
fn position_of(list: &[Rank], rank: Rank) -> u32
    requires low { length list.now ≤ MAX_RANKS }
    requires stands { StandsIn list.now rank }
    ensures within { result < length list.now }
    ensures is { get_or list.now result 0 ≡ rank }
{
    for i in 0..list.len() {
        if list[i] == rank {
            return i as u32;
        }
    }
    unreachable!()
}
