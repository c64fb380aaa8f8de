ghost use Rattle.std.specs.Prelude.{◌≡◌, ◌<◌, ◌≤◌, IfOk};
ghost use Rattle.icet_radixk.specs.Factors.{AreFactors, factors, largest_divisor, product};

use icet_base::NoMemory;
use std::alloc::Global;

/// The factors by which radix-k splits n participants: each is the largest divisor from 2 to `k` of
/// what the ones before leave of n, or all of the rest where it has none.
///
/// # Errors
///
/// `NoMemory`.
#[tactic(auto, using(crate::proofs::FactorLists::left_less))]
pub fn factors(alloc: Global, n: u32, k: u32) -> Result<Vec<u32>, NoMemory>
    requires some { 1 ≤ n }
    requires split { 2 ≤ k }
    ensures are { IfOk result (λ fs. AreFactors k n fs.items) }
    ensures product { IfOk result (λ fs. product fs.items ≡ n) }
    ensures factors { IfOk result (λ fs. fs.items ≡ factors k n) }
{
    let mut all = Vec::new(alloc);
    let mut rest = n;
    while rest > 1 {
        let factor = next_factor(rest, k);
        all.push(factor)?;
        rest /= factor;
    }
    Ok(all)
}

// the largest divisor of the rest from 2 to k, or all of the rest where it has none
#[tactic(auto, using(crate::proofs::FactorLists::divisor_step, crate::proofs::FactorLists::divisor_end))]
fn next_factor(rest: u32, k: u32) -> u32
    requires { 1 < rest }
    ensures divisor { result ≡ largest_divisor k rest }
    ensures some { 1 < result }
{
    let mut divisor = k;
    while divisor > 1 {
        if rest % divisor == 0 {
            return divisor;
        }
        divisor -= 1;
    }
    rest
}
