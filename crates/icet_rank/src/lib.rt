//! One rank as a machine: it does its program, one exchange a step.
#![tactic(auto)]

pub mod image;
pub mod machine;
mod ports;
mod sending;
mod slots;

pub use image::Image;
pub use machine::{Parts, RankMachine, Step, sync_pair};
pub use ports::{Inboxes, Outboxes};
