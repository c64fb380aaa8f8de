ghost use Rattle.std.specs.Prelude.{◌≡◌, IfOk};
ghost use Rattle.icet_ring_wires.specs.Script.{after_message, after_miss, is_blind, new_script};

use icet_base::NoMemory;
use std::alloc::Global;
use std::marker::Model;

/// By what a port decides whether it looks: at a call at which it knows of nothing, it doesn't where the
/// call's number is in `blind`. Such calls are numbered from 0.
#[derive(Drop)]
pub struct Script {
    blind: Vec<u64>,
    known: u32,
    calls: u64,
    misses: u64,
}

impl Model for Script {
    ghost use Rattle.icet_ring_wires.specs.Script.{ScriptView};

    ghost Value = { ScriptView };

    ghost view = { λ s. record { blind = s.blind.items; known = s.known; calls = s.calls; misses = s.misses } };
}

impl Script {
    /// The script of a new port, with a list of its own.
    pub(crate) fn new(alloc: Global, blind: &[u64], known: u32) -> Result<Script, NoMemory>
        ensures { IfOk result (λ s. s ≡ new_script blind.now known) }
    {
        Ok(Script {
            blind: Vec::from_slice(alloc, blind)?,
            known,
            calls: 0,
            misses: 0,
        })
    }

    /// Whether the port looks away in its next call.
    pub(crate) fn is_blind(&self) -> bool
        ensures { result ≡ is_blind self.now }
    {
        self.known == 0 && self.blind.contains(&self.calls)
    }

    /// A message went through the port.
    pub(crate) fn carry(&mut self)
        ensures { self.new ≡ after_message self.old }
    {
        if self.known == 0 {
            self.calls = self.calls.saturating_add(1);
        } else {
            self.known -= 1;
        }
    }

    /// No message went through the port, which knew of none.
    pub(crate) fn miss(&mut self)
        requires { self.old.known ≡ 0 }
        ensures { self.new ≡ after_miss self.old }
    {
        self.calls = self.calls.saturating_add(1);
        self.misses = self.misses.saturating_add(1);
    }

    /// The port met its other end, and knows how many messages go through.
    pub(crate) fn learn(&mut self, known: u32)
        ensures { self.new ≡ record self.old { known = known } }
    {
        self.known = known;
    }
}
