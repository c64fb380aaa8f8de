ghost use Rattle.std.specs.Prelude.{◌≡◌, ◌<◌, ◌^◌, ◌++◌, length, slice_get, Some, is_some, true, IfOk};
ghost use Rattle.icet_plan.specs.Places.{place_of, places, swap_at};

use crate::{Exchange, Op};
use icet_base::NoMemory;
use std::alloc::Global;
use std::marker::Model;

/// What one rank does, operation by operation.
#[derive(Drop)]
pub struct Program {
    ops: Vec<Op>,
}

impl Model for Program {
    ghost use Rattle.std.specs.Prelude.{List, ◌<◌, ◌^◌, length};
    ghost use Rattle.icet_model.specs.declared.exchange.Op.{Op};

    ghost Value = { List Op };

    ghost view = { λ p. p.ops.items };

    ghost invariant = { λ p. length p.ops.items < 2 ^ 32 };
}

impl Program {
    /// The program of these operations, of which there are fewer than 2^32.
    pub fn of(ops: Vec<Op>) -> Program
        requires { length ops.items < 2 ^ 32 }
        ensures { result ≡ ops.items }
    {
        Program { ops }
    }

    /// The number of operations.
    pub fn len(&self) -> u32
        ensures { result ≡ length self.now }
    {
        self.ops.len() as u32
    }

    /// Operation `i`, where `i` is below the number of operations.
    pub fn op(&self, i: u32) -> Op
        requires { i < length self.now }
        ensures { slice_get self.now i ≡ Some result }
    {
        self.ops[i as usize]
    }

    // the places of the exchanges, in order
    pub(crate) fn places(&self, alloc: Global) -> Result<Places, NoMemory>
        ensures { IfOk result (λ all. all ≡ places self.now) }
    {
        let mut all = Vec::new(alloc);
        for place in 0..self.len() {
            push_place(&mut all, place, self.op(place))?;
        }
        Ok(Places { all })
    }

    // the exchange at a place where one stands
    pub(crate) fn exchange_at(&self, place: u32) -> Exchange
        requires { is_some (swap_at self.now place) ≡ true }
        ensures { swap_at self.now place ≡ Some result }
    {
        match self.op(place) {
            Op::Swap { exchange, .. } => exchange,
            _ => unreachable!(),
        }
    }
}

// appends the place, if the operation there is an exchange
fn push_place(all: &mut Vec<u32>, place: u32, op: Op) -> Result<(), NoMemory>
    ensures { IfOk result (λ _. all.new.items ≡ all.old.items ++ place_of place op) }
{
    if let Op::Swap { .. } = op {
        all.push(place)?;
    }
    Ok(())
}

// the places of one rank's exchanges, in the order of its program
#[derive(Drop)]
pub(crate) struct Places {
    all: Vec<u32>,
}

impl Model for Places {
    ghost use Rattle.std.specs.Prelude.{ℕ, List, ◌<◌, ◌^◌, length};

    ghost Value = { List ℕ };

    ghost view = { λ p. p.all.items };

    ghost invariant = { λ p. length p.all.items < 2 ^ 32 };
}

impl Places {
    pub(crate) fn len(&self) -> u32
        ensures { result ≡ length self.now }
    {
        self.all.len() as u32
    }

    pub(crate) fn at(&self, i: u32) -> u32
        requires { i < length self.now }
        ensures { slice_get self.now i ≡ Some result }
    {
        self.all[i as usize]
    }
}
