//! A gate where two ranks look for each other: they meet only where they are stepped at the same time.
use icet_base::{Gate, Rank};
use std::sync::atomic::{AtomicU32, Ordering};

/// How often a rank looks for the other one.
const LOOKS: u32 = 200_000_000;

/// Each of two ranks says that it entered, and looks for the other.
#[derive(Drop)]
pub struct MeetingGate {
    entered: [AtomicU32; 2],
    met: [AtomicU32; 2],
}

impl MeetingGate {
    /// A gate that nobody has entered.
    pub fn new() -> MeetingGate {
        MeetingGate {
            entered: [AtomicU32::new(0), AtomicU32::new(0)],
            met: [AtomicU32::new(0), AtomicU32::new(0)],
        }
    }

    /// Whether each has seen the other.
    pub fn have_met(&self) -> bool {
        self.met[0].load(Ordering::SeqCst) == 1 && self.met[1].load(Ordering::SeqCst) == 1
    }
}

impl Gate for MeetingGate {
    fn enter(&self, rank: Rank) {
        if rank.0 > 1 {
            return;
        }
        let own = rank.0 as usize;
        self.entered[own].store(1, Ordering::SeqCst);
        for _ in 0..LOOKS {
            if self.entered[1 - own].load(Ordering::SeqCst) == 1 {
                self.met[own].store(1, Ordering::SeqCst);
                return;
            }
        }
    }
}
