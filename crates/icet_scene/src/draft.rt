ghost use Rattle.std.specs.Prelude.{◌≡◌, ◌≤◌, ◌-◌, ◌∷◌, [], List, OnOk, IfOk, length, true};
ghost use Rattle.icet_raster.specs.Shapes.{IsInRange};
ghost use Rattle.icet_scene_model.specs.Scene.{Said};
ghost use Rattle.icet_scene.specs.Lines.{said_of};
ghost use Rattle.icet_scene.specs.Drafts.{IsDraft, HasPlace, IsAddable};

use crate::line::Line;
use icet_base::{NoMemory, Rank};
use icet_pixel::Fragment;
use icet_raster::Shape;
use icet_scene_model::keyword::Place;
use icet_scene_model::limits::NARROW_CHANNEL;
use icet_tiles::Tile;
use std::alloc::Global;

/// The part of a scene that was read so far.
#[derive(Drop)]
pub struct Draft {
    pub place: Place,
    pub version: u32,
    pub blends: bool,
    pub ranks: u32,
    pub maxval: u32,
    pub background: Fragment,
    pub order: Vec<Rank>,
    pub tiles: Vec<Tile>,
    pub shapes: Vec<(Rank, Shape)>,
}

impl Draft {
    /// Nothing is read.
    pub fn new(alloc: Global) -> Draft
        ensures draft { IsDraft [] result }
        ensures place { HasPlace result.place result }
    {
        Draft {
            place: Place::Start,
            version: 1,
            blends: false,
            ranks: 0,
            maxval: NARROW_CHANNEL,
            background: Fragment::of(0, 0, 0, 0, 0),
            order: Vec::new(alloc),
            tiles: Vec::new(alloc),
            shapes: Vec::new(alloc),
        }
    }

    /// Adds what a line says that may stand at the draft's place.
    pub fn add(&mut self, line: Line) -> Result<(), NoMemory>
        requires line { IsAddable self.old line }
        requires place { HasPlace self.old.place self.old }
        ensures draft { OnOk result ((before : List Said) → IsDraft before self.old → IsDraft (said_of line ∷ before) self.new) }
        ensures place { OnOk result (HasPlace self.new.place self.new) }
    {
        match line {
            Line::Head(version) => {
                self.version = version;
                self.place = Place::BehindHead;
                Ok(())
            }
            Line::Mode(blends) => {
                self.blends = blends;
                self.place = Place::BehindMode;
                Ok(())
            }
            Line::Ranks(count) => {
                self.ranks = count;
                self.place = Place::BehindRanks;
                Ok(())
            }
            Line::Maxval(greatest) => {
                self.maxval = greatest;
                self.place = Place::BehindMaxval;
                Ok(())
            }
            Line::Background(paint) => {
                self.background = paint;
                self.place = Place::BehindBackground;
                Ok(())
            }
            Line::Order(order) => {
                self.order = order;
                self.place = Place::BehindOrder;
                Ok(())
            }
            Line::Tile(tile) => self.add_tile(tile),
            Line::Shape(rank, shape) => self.add_shape(rank, shape),
            Line::End => {
                self.place = Place::BehindEnd;
                Ok(())
            }
        }
    }

    fn add_tile(&mut self, tile: Tile) -> Result<(), NoMemory>
        requires line { IsAddable self.old (Line.Tile tile) }
        requires place { HasPlace self.old.place self.old }
        ensures draft { OnOk result ((before : List Said) → IsDraft before self.old → IsDraft (said_of (Line.Tile tile) ∷ before) self.new) }
        ensures place { OnOk result (HasPlace self.new.place self.new) }
    {
        self.tiles.push(tile)?;
        self.place = Place::BehindTile;
        Ok(())
    }

    fn add_shape(&mut self, rank: Rank, shape: Shape) -> Result<(), NoMemory>
        requires line { IsAddable self.old (Line.Shape rank shape) }
        requires place { HasPlace self.old.place self.old }
        ensures draft { OnOk result ((before : List Said) → IsDraft before self.old → IsDraft (said_of (Line.Shape rank shape) ∷ before) self.new) }
        ensures place { OnOk result (HasPlace self.new.place self.new) }
    {
        self.shapes.push((rank, shape))?;
        self.place = Place::BehindShape;
        Ok(())
    }
}
