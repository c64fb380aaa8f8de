//! Places: how many ranks serve each tile.
ghost use Rattle.std.specs.Prelude.{◌≡◌, ◌≤◌, ◌<◌, ◌^◌, ℕ, All, IfOk, IfSome, length, map, sum, get_or, suc, min};
ghost use Rattle.icet_groups.specs.Places.{first_places, is_fuller, next_tile, place_given, places_of, wants};
ghost use Rattle.icet_groups.specs.Scan.{AreScanned, is_ahead};
ghost use Rattle.icet_model.specs.declared.limits.TheConstants.{MAX_RANKS};

use icet_base::NoMemory;
use std::alloc::Global;

/// How many of so many ranks serve each tile, given how many contribute to it: one where some contribute, and each
/// further one, as long as there are ranks, serves a tile that has more contributors than places, and of these the one
/// with the most contributors a place; of several such tiles it is the lowest. Quotients are compared exactly.
///
/// # Errors
///
/// `NoMemory`.
pub fn places(alloc: Global, ranks: u32, counts: &[u32]) -> Result<Vec<u32>, NoMemory>
    requires few { length counts.now < 2 ^ 32 }
    requires small { All (λ c. c ≤ MAX_RANKS) counts.now }
    ensures { IfOk result (λ all. all.items ≡ places_of ranks counts.now) }
{
    let mut all = first_places(alloc, counts)?;
    let given = total(&all);
    for _i in 0..ranks.saturating_sub(given) {
        give(counts, &mut all);
    }
    Ok(all)
}

// one place for each tile to which some rank contributes
fn first_places(alloc: Global, counts: &[u32]) -> Result<Vec<u32>, NoMemory>
    ensures { IfOk result (λ all. all.items ≡ first_places counts.now) }
{
    let mut all = Vec::new(alloc);
    for count in counts {
        all.push((*count).min(1))?;
    }
    Ok(all)
}

fn total(places: &[u32]) -> u32
    requires { sum places.now < 2 ^ 32 }
    ensures { result ≡ sum places.now }
{
    let mut sum = 0;
    for place in places {
        sum += *place;
    }
    sum
}

// one place more
fn give(counts: &[u32], places: &mut Vec<u32>)
    requires each { length places.old.items ≡ length counts.now }
    requires small { All (λ c. c ≤ MAX_RANKS) counts.now }
    ensures { places.new.items ≡ place_given counts.now places.old.items }
{
    if let Some(t) = next_tile(counts, places) {
        places[t] += 1;
    }
}

// the tile that gets the next place
#[tactic(auto, using(crate::proofs::Scanning::is_next))]
fn next_tile(counts: &[u32], places: &[u32]) -> Option<usize>
    requires { length places.now ≡ length counts.now }
    ensures next { result ≡ next_tile counts.now places.now }
    ensures wants { IfSome result (λ t. (t < length counts.now) × (get_or places.now t 0 < get_or counts.now t 0)) }
{
    let mut best = None;
    for t in 0..counts.len() {
        best = better(counts, places, best, t);
    }
    best
}

// of the tiles up to t the one that gets the next place, given that of the tiles below t
#[tactic(auto, using(crate::proofs::Scanning::best_takes, crate::proofs::Scanning::best_keeps))]
fn better(counts: &[u32], places: &[u32], best: Option<usize>, t: usize) -> Option<usize>
    requires each { length places.now ≡ length counts.now }
    requires tile { t < length counts.now }
    requires below { AreScanned counts.now places.now t best }
    ensures { AreScanned counts.now places.now (suc t) result }
{
    if wants(counts, places, t) && is_ahead(counts, places, best, t) {
        Some(t)
    } else {
        best
    }
}

// whether tile t has more contributors than places
fn wants(counts: &[u32], places: &[u32], t: usize) -> bool
    requires each { length places.now ≡ length counts.now }
    requires tile { t < length counts.now }
    ensures { result ≡ wants counts.now places.now t }
{
    places[t] < counts[t]
}

// whether there is no best tile yet, or tile t has more contributors a place
fn is_ahead(counts: &[u32], places: &[u32], best: Option<usize>, t: usize) -> bool
    requires each { length places.now ≡ length counts.now }
    requires tile { t < length counts.now }
    requires below { AreScanned counts.now places.now t best }
    ensures { result ≡ is_ahead counts.now places.now best t }
{
    match best {
        None => true,
        Some(best) => is_fuller(counts, places, t, best),
    }
}

// whether tile u has more contributors a place than tile t
fn is_fuller(counts: &[u32], places: &[u32], u: usize, t: usize) -> bool
    requires each { length places.now ≡ length counts.now }
    requires tile { t < length counts.now }
    requires other { u < length counts.now }
    ensures { result ≡ is_fuller counts.now places.now u t }
{
    u64::from(counts[t]) * u64::from(places[u]) < u64::from(counts[u]) * u64::from(places[t])
}
