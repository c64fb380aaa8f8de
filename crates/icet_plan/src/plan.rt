ghost use Rattle.std.specs.Prelude.{◌≡◌, ℕ, ◌<◌, ◌^◌, length, List, map, slice_get, Some, IfOk};
ghost use Rattle.icet_model.specs.Exchange.{of_rank};
ghost use Rattle.icet_plan.specs.Places.{places};
ghost use Rattle.icet_model.specs.Plan.{PlanView, IsPlan, plan_exchanges, plan_view};

use crate::program::Places;
use crate::{Bracket, Exchange, Program};
use icet_base::{NoMemory, Rank};
use std::alloc::Global;
use std::marker::Model;

/// Who sends which piece to whom: each tile's number of pixels, display rank and bracket, and each
/// rank's program. Every plan is matched and sound.
#[derive(Drop)]
pub struct Plan {
    sizes: Vec<u32>,
    displays: Vec<Rank>,
    brackets: Vec<Bracket>,
    programs: Vec<Program>,
    places: Vec<Places>,
}

impl Model for Plan {
    ghost use Rattle.icet_model.specs.Plan.{PlanView};
    ghost use Rattle.icet_plan.specs.Keeps.{KeepsPlan};
    ghost use Rattle.icet_model.specs.contracts.bracket.Bracket as bracket_type;
    ghost use Rattle.std.specs.Coded.{codes};

    ghost Value = { PlanView };

    ghost coded = { Prim.hlevel (codes, bracket_type.the_row.coded) };

    ghost view = { λ p. record { tiles = record { sizes = p.sizes.items; displays = p.displays.items }; brackets = p.brackets.items; programs = p.programs.items } };

    ghost invariant = { λ p. KeepsPlan (record { tiles = record { sizes = p.sizes.items; displays = p.displays.items }; brackets = p.brackets.items; programs = p.programs.items }) p.places.items };
}

impl Plan {
    /// The plan of these tiles and programs, one program per rank; all are moved into it. The three lists of tiles are
    /// equally long, each display is a rank of the plan, and the whole is matched and sound.
    ///
    /// # Errors
    ///
    /// `NoMemory`.
    pub fn make(
        alloc: Global,
        sizes: Vec<u32>,
        displays: Vec<Rank>,
        brackets: Vec<Bracket>,
        programs: Vec<Program>,
    ) -> Result<Plan, NoMemory>
        requires tiles { length sizes.items < 2 ^ 32 }
        requires ranks { length programs.items < 2 ^ 32 }
        requires plan { IsPlan (plan_view sizes.items displays.items brackets.items programs.items) }
        ensures { IfOk result (λ p. p ≡ plan_view sizes.items displays.items brackets.items programs.items) }
    {
        let places = places_of(alloc, &programs)?;
        Ok(Plan {
            sizes,
            displays,
            brackets,
            programs,
            places,
        })
    }

    /// The number of ranks.
    pub fn ranks(&self) -> u32
        ensures ranks { result ≡ length self.now.programs }
        ensures plan { IsPlan self.now }
    {
        self.programs.len() as u32
    }

    /// The number of tiles.
    pub fn tiles(&self) -> u32
        ensures { result ≡ length self.now.tiles.sizes }
    {
        self.sizes.len() as u32
    }

    /// The number of pixels of a tile of the plan.
    pub fn size(&self, tile: u32) -> u32
        requires { tile < length self.now.tiles.sizes }
        ensures { slice_get self.now.tiles.sizes tile ≡ Some result }
    {
        self.sizes[tile as usize]
    }

    /// The rank that displays a tile of the plan.
    pub fn display(&self, tile: u32) -> Rank
        requires { tile < length self.now.tiles.sizes }
        ensures shown { slice_get self.now.tiles.displays tile ≡ Some result }
        ensures ranked { result < length self.now.programs }
    {
        self.displays[tile as usize]
    }

    /// In which order the images of a tile of the plan are joined.
    pub fn bracket(&self, tile: u32) -> &Bracket
        requires { tile < length self.now.tiles.sizes }
        ensures { slice_get self.now.brackets tile ≡ Some result.now }
    {
        &self.brackets[tile as usize]
    }

    /// The program of a rank of the plan.
    pub fn program(&self, rank: Rank) -> &Program
        requires { rank < length self.now.programs }
        ensures { slice_get self.now.programs rank ≡ Some result.now }
    {
        &self.programs[rank.0 as usize]
    }

    /// The number of exchanges of a rank of the plan.
    pub fn exchanges(&self, rank: Rank) -> u32
        requires { rank < length self.now.programs }
        ensures { result ≡ length (of_rank (plan_exchanges self.now) rank) }
    {
        self.places[rank.0 as usize].len()
    }

    /// Exchange `i` of a rank of the plan, in the order of its program, where `i` is below their number.
    pub fn exchange(&self, rank: Rank, i: u32) -> Exchange
        requires rank { rank < length self.now.programs }
        requires place { i < length (of_rank (plan_exchanges self.now) rank) }
        ensures { slice_get (of_rank (plan_exchanges self.now) rank) i ≡ Some result }
    {
        let place = self.places[rank.0 as usize].at(i);
        self.programs[rank.0 as usize].exchange_at(place)
    }
}

// the places of each rank's exchanges in its program
fn places_of(alloc: Global, programs: &Vec<Program>) -> Result<Vec<Places>, NoMemory>
    ensures { IfOk result (λ all. all.items ≡ map places programs.now.items) }
{
    let mut all = Vec::new(alloc);
    for program in programs {
        all.push(program.places(alloc)?)?;
    }
    Ok(all)
}

/// The part of a plan for one tile and one strategy: one program per participant, the bracket of
/// the tile, and how many rounds it takes.
#[derive(Drop)]
pub struct Leg {
    pub programs: Vec<Program>,
    pub bracket: Bracket,
    pub rounds: u32,
}
