ghost use Rattle.std.specs.Prelude.{◌≡◌, ◌+◌, ◌*◌, ◌<◌, ◌^◌, ℕ, length, IfOk};
ghost use Rattle.icet_plan.specs.Pairs.{count_at, Raised};

use icet_base::{NoMemory, Rank};
use std::alloc::Global;
use std::marker::Model;

// a number for each ordered pair of ranks
#[derive(Drop)]
pub(crate) struct PairCounts {
    ranks: u32,
    counts: Vec<u32>,
}

impl Model for PairCounts {
    ghost use Rattle.std.specs.Prelude.{◌≡◌, ◌*◌, ◌<◌, ◌^◌, length};
    ghost use Rattle.icet_plan.specs.Pairs.{PairsView};

    ghost Value = { PairsView };

    ghost view = { λ p. record { ranks = p.ranks; counts = p.counts.items } };

    ghost invariant = { λ p. (p.ranks < 2 ^ 32) × (length p.counts.items ≡ p.ranks * p.ranks) };
}

impl PairCounts {
    pub(crate) fn zero(alloc: Global, ranks: u32) -> Result<PairCounts, NoMemory>
        ensures ranks { IfOk result (λ p. p.ranks ≡ ranks) }
        ensures counts { IfOk result (λ p. (q r : ℕ) → count_at p q r ≡ 0) }
    {
        let side = ranks as usize;
        Ok(PairCounts {
            ranks,
            counts: vec![in alloc; 0u32; side * side]?,
        })
    }

    pub(crate) fn get(&self, from: Rank, to: Rank) -> u32
        requires from { from < self.now.ranks }
        requires to { to < self.now.ranks }
        ensures { result ≡ count_at self.now from to }
    {
        self.counts[self.place(from, to)]
    }

    pub(crate) fn raise(&mut self, from: Rank, to: Rank)
        requires from { from < self.old.ranks }
        requires to { to < self.old.ranks }
        requires room { count_at self.old from to + 1 < 2 ^ 32 }
        ensures { Raised self.old self.new from to }
    {
        let place = self.place(from, to);
        self.counts[place] += 1;
    }

    fn place(&self, from: Rank, to: Rank) -> usize
        requires from { from < self.now.ranks }
        requires to { to < self.now.ranks }
        ensures is { result ≡ from * self.now.ranks + to }
        ensures within { result < length self.now.counts }
    {
        from.0 as usize * self.ranks as usize + to.0 as usize
    }
}
