//! Plans of one tile by each strategy.
ghost use Rattle.std.specs.Prelude.{◌≡◌, ◌≤◌, ◌<◌, ◌^◌, [], ◌∷◌, IfOk, length};
ghost use Rattle.icet_tiles.specs.Contributors.{HasEachOnce};
ghost use Rattle.icet_multi.specs.Rules.{IsPlanBy, sequential_rule, strategy_of};
ghost use Rattle.icet_model.specs.declared.limits.TheConstants.{MAX_RANKS};

use icet_base::{NoMemory, Rank};
use icet_multi::sequential::sequential;
use icet_multi::{Single, TileRanks};
use icet_plan::{Kind, Plan};
use icet_radixk::factors;
use std::alloc::Global;

// the ranks below n, ascending
#[tactic(auto, using(crate::proofs::Ascending::each_once, crate::proofs::Ascending::one_more))]
fn ascending(alloc: Global, n: u32) -> Result<Vec<Rank>, NoMemory>
    ensures order { IfOk result (λ all. HasEachOnce n all.items) }
    ensures count { IfOk result (λ all. length all.items ≡ n) }
{
    let mut all = Vec::new(alloc);
    for rank in 0..n {
        all.push(Rank(rank))?;
    }
    Ok(all)
}

// the plan of one tile of this many pixels, shown by `display`
fn plan_of(
    alloc: Global,
    n: u32,
    pixels: u32,
    display: u32,
    single: Single,
    k: u32,
) -> Result<Plan, NoMemory>
    requires low { n ≤ MAX_RANKS }
    requires small { pixels < 2 ^ 31 }
    requires shown { display < n }
    requires split { 2 ≤ k }
    ensures { IfOk result (λ p. length p.programs ≡ n) }
{
    let order = ascending(alloc, n)?;
    let tile = TileRanks::of(pixels, Rank(display), Vec::new(alloc));
    let tiles = vec![in alloc; tile]?;
    sequential(alloc, &order, &tiles, single, k)
}

// how many messages a rank sends
fn sends_of(plan: &Plan, rank: Rank) -> u32
    requires { rank < length plan.now.programs }
{
    let mut count = 0u32;
    for i in 0..plan.exchanges(rank) {
        if plan.exchange(rank, i).kind == Kind::Send {
            count = count.saturating_add(1);
        }
    }
    count
}

// how many messages a plan has
fn messages(plan: &Plan) -> u32 {
    let mut count = 0u32;
    for rank in 0..plan.ranks() {
        count = count.saturating_add(sends_of(plan, Rank(rank)));
    }
    count
}

// how many messages there are with so many ranks; the last rank shows the tile
fn count_of(alloc: Global, n: u32, single: Single, k: u32) -> Result<u32, NoMemory>
    requires low { n ≤ MAX_RANKS }
    requires some { 0 < n }
    requires split { 2 ≤ k }
{
    let plan = plan_of(alloc, n, 5, n - 1, single, k)?;
    Ok(messages(&plan))
}

// The tree: each rank but the first sends once, and the first hands the whole to the display. Binary-swap
// on 2^m + e ranks: e in the folding, a round of 2^m for each of m, and all final pieces but the display's
// own. Radix-k: in a round of factor f each rank sends f - 1.
#[test]
fn as_many_messages_as_the_rules_say(rt: HostRuntime) {
    let table: [(u32, Single, u32, u32); 12] = [
        (1, Single::Tree, 8, 0),
        (2, Single::Tree, 8, 2),
        (7, Single::Tree, 8, 7),
        (256, Single::Tree, 8, 256),
        (1, Single::Bswap, 8, 0),
        (4, Single::Bswap, 8, 11),
        (5, Single::Bswap, 8, 12),
        (64, Single::Bswap, 8, 447),
        (1, Single::Radixk, 8, 0),
        (4, Single::Radixk, 4, 15),
        (12, Single::Radixk, 8, 83),
        (11, Single::Radixk, 8, 120),
    ];
    for (n, single, k, want) in table {
        let count = count_of_row(rt.alloc(), n, single, k);
        assert!(rt;
            matches!(count, Ok(c) if c == want),
            "{n} ranks by {single:?}: {count:?}"
        );
    }
}

// a row of the table, whose numbers a test can't be asked for
fn count_of_row(alloc: Global, n: u32, single: Single, k: u32) -> Result<u32, NoMemory> {
    if n == 0 || n > 256 || k < 2 {
        return Ok(u32::MAX);
    }
    count_of(alloc, n, single, k)
}

#[test]
fn factors_are_the_largest_divisors(rt: HostRuntime) {
    let all = factors(rt.alloc(), 22, 8);
    assert!(rt; matches!(&all, Ok(fs) if fs.as_slice() == [2, 11].as_slice()));
}
