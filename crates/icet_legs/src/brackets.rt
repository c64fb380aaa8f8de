//! Brackets by neighbours.
ghost use Rattle.std.specs.Prelude.{◌≡◌, ◌≤◌, ◌<◌, IfOk, length};
ghost use Rattle.icet_legs.specs.Pairing.{couples, pair_up, tree};

use icet_base::NoMemory;
use icet_plan::Bracket;
use icet_plan::brackets::pair;
use std::alloc::Global;

/// A bracket equal to this one.
///
/// # Errors
///
/// `NoMemory`.
pub fn copy(alloc: Global, bracket: &Bracket) -> Result<Bracket, NoMemory>
    ensures { IfOk result (λ b. b ≡ bracket.now) }
{
    match bracket {
        Bracket::Empty => Ok(Bracket::Empty),
        Bracket::Leaf(rank) => Ok(Bracket::Leaf(*rank)),
        Bracket::Pair(front, back) => {
            let front = copy(alloc, front.get())?;
            let back = copy(alloc, back.get())?;
            pair(alloc, front, back)
        }
    }
}

/// Brackets equal to these.
///
/// # Errors
///
/// `NoMemory`.
pub fn copies(alloc: Global, brackets: &[Bracket]) -> Result<Vec<Bracket>, NoMemory>
    ensures { IfOk result (λ all. all.items ≡ brackets.now) }
{
    let mut all = Vec::new(alloc);
    for bracket in brackets {
        all.push(copy(alloc, bracket)?)?;
    }
    Ok(all)
}

/// Neighbours paired; an odd last one stays.
///
/// # Errors
///
/// `NoMemory`.
pub fn pair_up(alloc: Global, parts: Vec<Bracket>) -> Result<Vec<Bracket>, NoMemory>
    ensures { IfOk result (λ all. all.items ≡ pair_up parts.items) }
{
    let mut all = Vec::new(alloc);
    let mut waiting = None;
    for part in parts {
        waiting = match waiting {
            None => Some(part),
            Some(front) => {
                all.push(pair(alloc, front, part)?)?;
                None
            }
        };
    }
    if let Some(last) = waiting {
        all.push(last)?;
    }
    Ok(all)
}

/// The first `count` couples paired; what is behind them stays.
///
/// # Errors
///
/// `NoMemory`.
#[tactic(auto, using(crate::proofs::Pairings::couples_none, crate::proofs::Pairings::couples_one, crate::proofs::Pairings::couples_step, crate::proofs::Pairings::couples_all))]
pub fn couples(alloc: Global, count: u32, parts: Vec<Bracket>) -> Result<Vec<Bracket>, NoMemory>
    ensures { IfOk result (λ all. all.items ≡ couples count parts.items) }
{
    let mut all = Vec::new(alloc);
    let mut rest = parts.into_iter();
    for _i in 0..count {
        let Some(front) = rest.next() else {
            return Ok(all);
        };
        let Some(back) = rest.next() else {
            all.push(front)?;
            return Ok(all);
        };
        all.push(pair(alloc, front, back)?)?;
    }
    for part in rest {
        all.push(part)?;
    }
    Ok(all)
}

/// Neighbours paired until one is left; over none it is the empty bracket.
///
/// # Errors
///
/// `NoMemory`.
#[tactic(auto, using(crate::proofs::Pairings::pair_shorter, crate::proofs::Pairings::tree_step))]
pub fn tree(alloc: Global, parts: Vec<Bracket>) -> Result<Bracket, NoMemory>
    ensures { IfOk result (λ b. b ≡ tree parts.items) }
{
    let mut parts = parts;
    while parts.len() > 1 {
        parts = pair_up(alloc, parts)?;
    }
    match parts.pop() {
        Some(whole) => Ok(whole),
        None => Ok(Bracket::Empty),
    }
}
