//! Names, limits, and the traits of the outside: where bytes come from and where they go.
#![tactic(auto)]

pub mod faults;
pub mod gate;
pub mod memory;
pub mod pen;
pub mod sink;
pub mod source;
pub mod std_io;

pub use faults::{NoMemory, ReadFault, WriteFault};
pub use gate::{Gate, PlainGate};
pub use icet_model::limits;
pub use icet_model::names::{Mode, Rank, Rect};
pub use memory::{MemSink, MemSource, SureSink, SureSource};
pub use pen::Pen;
pub use sink::Sink;
pub use source::Source;
pub use std_io::{StdSink, StdSource};
