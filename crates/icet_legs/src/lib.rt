//! Legs: what some ranks do together for one tile, from their images to the pieces that the tile's display
//! keeps, whichever strategy they follow; and legs in a row as a plan.
//!
//! A strategy's crate gives its programs and messages in closed form, by position (`specs/TileStrategy.antt`), and a
//! builder that meets the contract of a leg (`IsExchangePlan` in `specs/Leg.antt`). What strategies share stands here:
//! rounds of merges and of groups, the collection, brackets by neighbours, and their proofs. `docs/PLANS.md` explains
//! the strategies with pictures.
#![tactic(auto)]

pub mod brackets;
pub mod collect;
pub mod powers;
pub mod range;
pub mod row;
pub mod task;

pub use range::Range;
pub use row::TileLeg;
pub use task::Task;
