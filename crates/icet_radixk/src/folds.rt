//! Brackets folded by factors.
ghost use Rattle.std.specs.Prelude.{◌≡◌, ◌<◌, ◌-◌, ℕ, IfOk, drop, length, take};
ghost use Rattle.std.specs.Vec.Iter.{into_iter_items};
ghost use Rattle.icet_model.specs.BracketFold.{left_from};
ghost use Rattle.icet_radixk.specs.Factors.{factor_at};
ghost use Rattle.icet_radixk.specs.Radixk.{folded, radix_bracket, radix_fold};

use icet_base::NoMemory;
use icet_plan::Bracket;
use icet_plan::brackets::pair;
use std::alloc::Global;
use std::vec::IntoIter;

// each as many neighbours as the first factor are folded from the left, then as many of the results as the
// second, and so on; the first of what is left is the bracket
#[tactic(auto, using(crate::proofs::FoldSteps::fold_more))]
pub(crate) fn fold_by_factors(
    alloc: Global,
    factors: &[u32],
    leaves: Vec<Bracket>,
) -> Result<Bracket, NoMemory>
    requires { (i : ℕ) → 0 < factor_at factors.now i }
    ensures { IfOk result (λ b. b ≡ radix_bracket (factor_at factors.now) (length factors.now) leaves.items) }
{
    let mut parts = leaves;
    for i in 0..factors.len() {
        parts = fold_neighbours(alloc, factors[i], parts)?;
    }
    match parts.into_iter().next() {
        Some(whole) => Ok(whole),
        None => Ok(Bracket::Empty),
    }
}

// each `count` neighbours folded from the left
#[tactic(auto, using(crate::proofs::FoldSteps::folded_end))]
fn fold_neighbours(alloc: Global, count: u32, parts: Vec<Bracket>) -> Result<Vec<Bracket>, NoMemory>
    requires { 0 < count }
    ensures { IfOk result (λ all. all.items ≡ folded count parts.items) }
{
    let mut all = Vec::new(alloc);
    let mut rest = parts.into_iter();
    while let Some(first) = rest.next() {
        all.push(fold_on(alloc, first, count - 1, &mut rest)?)?;
    }
    Ok(all)
}

// the first and up to `count` more, folded from the left
#[tactic(auto, using(crate::proofs::FoldSteps::left_none, crate::proofs::FoldSteps::left_zero, crate::proofs::FoldSteps::drop_zero, crate::proofs::FoldSteps::drop_empty))]
fn fold_on(
    alloc: Global,
    first: Bracket,
    count: u32,
    rest: &mut IntoIter<Bracket>,
) -> Result<Bracket, NoMemory>
    ensures whole { IfOk result (λ b. b ≡ left_from first (take count (into_iter_items rest.old))) }
    ensures rest { IfOk result (λ b. into_iter_items rest.new ≡ drop count (into_iter_items rest.old)) }
{
    let mut whole = first;
    for _i in 0..count {
        let Some(next) = rest.next() else {
            return Ok(whole);
        };
        whole = pair(alloc, whole, next)?;
    }
    Ok(whole)
}
