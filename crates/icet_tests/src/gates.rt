//! A gate that counts.
use icet_base::{Gate, Rank};
use std::sync::atomic::{AtomicU32, Ordering};

/// Counts how often each of two ranks entered.
#[derive(Drop)]
pub struct CountingGate {
    entries: [AtomicU32; 2],
}

impl CountingGate {
    pub fn new() -> CountingGate {
        CountingGate {
            entries: [AtomicU32::new(0), AtomicU32::new(0)],
        }
    }

    pub fn entries(&self) -> [u32; 2] {
        [
            self.entries[0].load(Ordering::SeqCst),
            self.entries[1].load(Ordering::SeqCst),
        ]
    }
}

impl Gate for CountingGate {
    fn enter(&self, rank: Rank) {
        if let Some(count) = self.entries.get(rank.0 as usize) {
            count.fetch_add(1, Ordering::SeqCst);
        }
    }
}
