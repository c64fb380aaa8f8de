//! Messages between ranks, the ports that send and take them, and the wires between two ports.
#![tactic(auto)]

pub mod mem_ports;
pub mod mem_wires;
pub mod message;
pub mod ports;
pub mod wires;

pub use mem_ports::{MemInbox, MemOutbox};
pub use mem_wires::MemWires;
pub use message::Message;
pub use ports::{Inbox, Outbox};
pub use wires::Wires;
