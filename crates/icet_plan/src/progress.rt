ghost use Rattle.std.specs.Prelude.{◌≡◌, ◌≢◌, ◌+◌, ◌-◌, ◌<◌, ◌≤◌, ◌^◌, ℕ, length, map, get_or, slice_get, replicate, Some, None, IfOk, IfSome, IsTrue, ◌↔◌};
ghost use Rattle.icet_model.specs.Exchange.{of_rank};
ghost use Rattle.icet_model.specs.Plan.{plan_exchanges};
ghost use Rattle.icet_model.specs.Core.{IsLawful, AllDone, after, due, sent, start, taken};
ghost use Rattle.icet_plan.specs.Keeps.{AreWaiting, CanGo, CanMake, HasFinished, IsLowest, IsLowestLeft, all_of, core_at_start, gone};

use crate::pairs::PairCounts;
use crate::{Exchange, Kind, Plan};
use icet_base::{NoMemory, Rank};
use std::alloc::Global;
use std::marker::Model;

/// What came of a rank's try to make its next exchange.
#[derive(Clone, Copy, Debug, PartialEq, Eq)]
pub enum Advance {
    /// It made it.
    Moved,
    /// The ring has no room for the send, or no message for the take.
    Stalled,
    /// The rank has no exchange left.
    Done,
}

/// How far each rank of a plan has come, where each ring holds a bounded number of messages.
#[derive(Drop)]
pub struct Core<'a> {
    plan: &'a Plan,
    cap: u32,
    done: Vec<u32>,
    sent: PairCounts,
    taken: PairCounts,
}

impl<'a> Model for Core<'a> {
    ghost use Rattle.icet_plan.specs.Keeps.{CoreView, KeepsCore};
    ghost use Rattle.icet_model.specs.contracts.bracket.Bracket as bracket_type;
    ghost use Rattle.std.specs.Coded.{codes};

    ghost Value = { CoreView };

    ghost coded = { Prim.hlevel (codes, bracket_type.the_row.coded) };

    ghost view = { λ c. record { plan = c.plan.now; cap = c.cap; done = c.done.items } };

    ghost invariant = { λ c. KeepsCore (record { plan = c.plan.now; cap = c.cap; done = c.done.items }) c.sent c.taken };
}

impl<'a> Core<'a> {
    /// The core of a plan before the first exchange, where each ring holds `cap` messages, at least one.
    ///
    /// # Errors
    ///
    /// `NoMemory`.
    pub fn start(alloc: Global, plan: &'a Plan, cap: u32) -> Result<Core<'a>, NoMemory>
        requires { 1 ≤ cap }
        ensures { IfOk result (λ c. c ≡ core_at_start plan.now cap) }
    {
        let ranks = plan.ranks();
        Ok(Core {
            plan,
            cap,
            done: zeros(alloc, ranks)?,
            sent: PairCounts::zero(alloc, ranks)?,
            taken: PairCounts::zero(alloc, ranks)?,
        })
    }

    /// The number of ranks of the plan.
    pub fn ranks(&self) -> u32
        ensures ranks { result ≡ length self.now.plan.programs }
        ensures lawful { IsLawful (all_of self.now) self.now.cap self.now.done }
    {
        self.plan.ranks()
    }

    /// Whether a rank of the plan has an exchange left and its ring has room for the send, or a
    /// message for the take.
    pub fn enabled(&self, rank: Rank) -> bool
        requires { rank < length self.now.plan.programs }
        ensures { IsTrue result ↔ CanGo self.now rank }
    {
        match self.due(rank) {
            Some(exchange) => self.can_swap(rank, &exchange),
            None => false,
        }
    }

    /// Makes the next exchange of a rank of the plan, where it is enabled; else nothing changes.
    pub fn advance(&mut self, rank: Rank) -> Advance
        requires { rank < length self.old.plan.programs }
        ensures moved { (result ≡ Advance.Moved) ↔ CanGo self.old rank }
        ensures done { (result ≡ Advance.Done) ↔ HasFinished self.old rank }
        ensures after { result ≡ Advance.Moved → self.new ≡ gone self.old rank }
        ensures same { result ≢ Advance.Moved → self.new ≡ self.old }
    {
        match self.due(rank) {
            Some(exchange) => self.try_to_go(rank, &exchange),
            None => Advance::Done,
        }
    }

    /// The lowest enabled rank; none exactly where all ranks are finished.
    pub fn next_enabled(&self) -> Option<Rank>
        ensures lowest { IfSome result (λ r. IsLowest self.now r) }
        ensures none { (result ≡ None) ↔ AllDone (all_of self.now) self.now.done }
    {
        for rank in 0..self.plan.ranks() {
            if self.enabled(Rank(rank)) {
                return Some(Rank(rank));
            }
        }
        None
    }

    /// The lowest rank that has an exchange left; none exactly where all ranks are finished.
    pub fn unfinished(&self) -> Option<Rank>
        ensures lowest { IfSome result (λ r. IsLowestLeft self.now r) }
        ensures none { (result ≡ None) ↔ AllDone (all_of self.now) self.now.done }
        ensures lawful { IsLawful (all_of self.now) self.now.cap self.now.done }
    {
        for rank in 0..self.plan.ranks() {
            if self.due(Rank(rank)).is_some() {
                return Some(Rank(rank));
            }
        }
        None
    }

    /// Whether all ranks have made all their exchanges.
    pub fn finished(&self) -> bool
        ensures finished { IsTrue result ↔ AllDone (all_of self.now) self.now.done }
        ensures lawful { IsLawful (all_of self.now) self.now.cap self.now.done }
    {
        self.unfinished().is_none()
    }

    // makes this next exchange of a rank, if its ring allows it now
    fn try_to_go(&mut self, rank: Rank, exchange: &Exchange) -> Advance
        requires rank { rank < length self.old.plan.programs }
        requires peer { exchange.now.peer < length self.old.plan.programs }
        requires due { due (all_of self.old) self.old.done rank ≡ Some exchange.now }
        requires next { get_or self.old.done rank 0 + 1 < 2 ^ 32 }
        ensures moved { (result ≡ Advance.Moved) ↔ CanMake self.old rank exchange.now.kind exchange.now.peer }
        ensures left { result ≢ Advance.Done }
        ensures after { result ≡ Advance.Moved → self.new ≡ gone self.old rank }
        ensures same { result ≢ Advance.Moved → self.new ≡ self.old }
    {
        if !self.can_swap(rank, exchange) {
            return Advance::Stalled;
        }
        self.go(rank, exchange);
        Advance::Moved
    }

    // counts this next exchange of a rank, which its ring allows now
    fn go(&mut self, rank: Rank, exchange: &Exchange)
        requires rank { rank < length self.old.plan.programs }
        requires peer { exchange.now.peer < length self.old.plan.programs }
        requires due { due (all_of self.old) self.old.done rank ≡ Some exchange.now }
        requires next { get_or self.old.done rank 0 + 1 < 2 ^ 32 }
        requires free { CanMake self.old rank exchange.now.kind exchange.now.peer }
        ensures { self.new ≡ gone self.old rank }
    {
        match exchange.kind {
            Kind::Send => self.sent.raise(rank, exchange.peer),
            Kind::Take => self.taken.raise(exchange.peer, rank),
        }
        count(&mut self.done, rank);
    }

    // the next exchange of a rank
    fn due(&self, rank: Rank) -> Option<Exchange>
        requires { rank < length self.now.plan.programs }
        ensures due { result ≡ due (all_of self.now) self.now.done rank }
        ensures none { (result ≡ None) ↔ (get_or self.now.done rank 0 ≡ length (of_rank (all_of self.now) rank)) }
        ensures peer { IfSome result (λ e. e.peer < length self.now.plan.programs) }
        ensures next { IfSome result (λ e. get_or self.now.done rank 0 + 1 < 2 ^ 32) }
    {
        let done = self.done[rank.0 as usize];
        if done < self.plan.exchanges(rank) {
            Some(self.plan.exchange(rank, done))
        } else {
            None
        }
    }

    // whether the ring allows this exchange of a rank now
    fn can_swap(&self, rank: Rank, exchange: &Exchange) -> bool
        requires rank { rank < length self.now.plan.programs }
        requires peer { exchange.now.peer < length self.now.plan.programs }
        ensures { IsTrue result ↔ CanMake self.now rank exchange.now.kind exchange.now.peer }
    {
        match exchange.kind {
            Kind::Send => self.waiting(rank, exchange.peer) < self.cap,
            Kind::Take => self.waiting(exchange.peer, rank) > 0,
        }
    }

    // how many messages wait on a pair
    fn waiting(&self, from: Rank, to: Rank) -> u32
        requires from { from < length self.now.plan.programs }
        requires to { to < length self.now.plan.programs }
        ensures { AreWaiting self.now from to result }
    {
        self.sent.get(from, to) - self.taken.get(from, to)
    }
}

// raises the counter of a rank
fn count(done: &mut Vec<u32>, rank: Rank)
    requires rank { rank < length done.old.items }
    requires next { get_or done.old.items rank 0 + 1 < 2 ^ 32 }
    ensures { done.new.items ≡ after done.old.items rank }
{
    done[rank.0 as usize] += 1;
}

// as many zeros as ranks
fn zeros(alloc: Global, ranks: u32) -> Result<Vec<u32>, NoMemory>
    ensures { IfOk result (λ v. v.items ≡ replicate ranks 0) }
{
    Ok(vec![in alloc; 0u32; ranks as usize]?)
}
