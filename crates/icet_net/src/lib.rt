//! A net of ranks: opened for a plan, driven to its end over wires, and closed for the pictures.
#![tactic(auto)]

pub mod closing;
mod counting;
pub mod driving;
pub mod hull;
pub mod laws;
pub mod opening;
pub mod pictures;
mod porting;
mod starting;
pub mod syncing;
pub mod turning;

pub use closing::{Unfinished, close_net};
pub use driving::drive;
pub use hull::Hull;
pub use icet_rank::{Image, RankMachine};
pub use opening::open_net;
pub use pictures::Pictures;
pub use syncing::sync_all;
pub use turning::turn;
