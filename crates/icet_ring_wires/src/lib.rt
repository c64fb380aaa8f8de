//! Wires over wait-free rings: two rings of `rtrb` for each pair of ranks, one for the messages, and one back for
//! the credits of those that were taken. For tests there are wires whose ports look away at some calls.
#![tactic(auto)]

mod ports;
mod ring_wires;
mod script;
mod script_ports;
mod script_wires;
#[cfg(test)]
mod tests;

pub use ports::{RingInbox, RingOutbox};
pub use ring_wires::RingWires;
pub use script_ports::{ScriptInbox, ScriptOutbox};
pub use script_wires::ScriptWires;
