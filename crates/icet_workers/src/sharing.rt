ghost use Rattle.std.specs.Prelude.{◌≡◌, ◌≤◌, length, IsOk};
ghost use Rattle.std.specs.Thread.{IsSync};
ghost use denote.Param.Send.{IsSend};
ghost use Rattle.icet_workers.specs.Shares.{share_start, Does, EachDoes};

use icet_base::NoMemory;
use std::thread::{Threads, join_mut};

/// The first place of a worker's share, where `count` places are shared out to `workers`.
fn share_from(count: usize, worker: u32, workers: u32) -> usize
    requires worker { worker ≤ workers }
    requires workers { 1 ≤ workers }
    ensures { result ≡ share_start count worker workers }
{
    (count as u128 * u128::from(worker) / u128::from(workers)) as usize
}

/// Calls `f` once at each item. The items are shared out in `workers` shares: share `j` has the places from
/// `count * j / workers` up to `count * (j + 1) / workers`. The first share is the caller's own, and each of
/// the others has a thread of its own; where none can be made, the caller does its work too. All items have
/// had their call when it returns.
///
/// # Errors
///
/// `NoMemory`, where a call answered it.
pub fn for_each_share<T: Send, F: Fn(&mut T) -> Result<(), NoMemory> + Sync, R: Threads + Sync>(
    rt: &R,
    f: &F,
    workers: u32,
    items: &mut [T],
) -> Result<(), NoMemory>
    requires workers { 1 ≤ workers }
    requires callable { F.IsAlwaysCallable f.now }
    ensures { EachDoes (Does F.Fn f.now (IsOk result)) items.old items.new }
{
    first_shares(rt, f, items.len(), workers, workers, items)
}

/// The same for the shares of the first `left` of `workers` workers, where all have `count` items.
#[cycle(shares)]
fn first_shares<T: Send, F: Fn(&mut T) -> Result<(), NoMemory> + Sync, R: Threads + Sync>(
    rt: &R,
    f: &F,
    count: usize,
    workers: u32,
    left: u32,
    items: &mut [T],
) -> Result<(), NoMemory>
    requires some { 1 ≤ left }
    requires left { left ≤ workers }
    requires items { length items.old ≡ share_start count left workers }
    requires callable { F.IsAlwaysCallable f.now }
    ensures { EachDoes (Does F.Fn f.now (IsOk result)) items.old items.new }
{
    if left == 1 {
        return in_turn(f, items);
    }
    let at = share_from(count, left - 1, workers);
    let (front, back) = items.split_at_mut(at);
    both(rt, f, count, workers, left - 1, front, back)
}

/// The shares in front, and the last worker's own behind them.
#[cycle(shares)]
fn both<T: Send, F: Fn(&mut T) -> Result<(), NoMemory> + Sync, R: Threads + Sync>(
    rt: &R,
    f: &F,
    count: usize,
    workers: u32,
    left: u32,
    front: &mut [T],
    back: &mut [T],
) -> Result<(), NoMemory>
    requires some { 1 ≤ left }
    requires left { left ≤ workers }
    requires front { length front.old ≡ share_start count left workers }
    requires callable { F.IsAlwaysCallable f.now }
    ensures front { EachDoes (Does F.Fn f.now (IsOk result)) front.old front.new }
    ensures back { EachDoes (Does F.Fn f.now (IsOk result)) back.old back.new }
{
    let mut own = || -> Result<(), NoMemory>
        requires { IsSync F.row × IsSend T.row × F.IsAlwaysCallable f.now }
        ensures { EachDoes (Does F.Fn f.entry.now (IsOk result)) back.entry.now back.exit.now }
    { in_turn(f, back) };
    let mut others = || -> Result<(), NoMemory>
        requires { IsSync R.row × IsSync F.row × IsSend T.row × (1 ≤ left) × (left ≤ workers) × (length front.now ≡ share_start count left workers) × F.IsAlwaysCallable f.now }
        ensures { EachDoes (Does F.Fn f.entry.now (IsOk result)) front.entry.now front.exit.now }
    { first_shares(rt, f, count, workers, left, front) };
    let (one, two) = join_mut(rt, &mut own, &mut others);
    both_fine(one, two)
}

/// Calls `f` once at each item, one after the other, on this thread.
fn in_turn<T, F: Fn(&mut T) -> Result<(), NoMemory>>(f: &F, items: &mut [T]) -> Result<(), NoMemory>
    requires callable { F.IsAlwaysCallable f.now }
    ensures { EachDoes (Does F.Fn f.now (IsOk result)) items.old items.new }
{
    let mut so_far = Ok(());
    for at in 0..items.len() {
        let answer = at_one(f, &mut items[at]);
        so_far = both_fine(so_far, answer);
    }
    so_far
}

fn at_one<T, F: Fn(&mut T) -> Result<(), NoMemory>>(f: &F, item: &mut T) -> Result<(), NoMemory>
    requires callable { F.IsAlwaysCallable f.now }
    ensures { Does F.Fn f.now (IsOk result) item.old item.new }
{
    f(item)
}

/// Ok where both are.
fn both_fine(one: Result<(), NoMemory>, two: Result<(), NoMemory>) -> Result<(), NoMemory>
    ensures one { IsOk result → IsOk one }
    ensures two { IsOk result → IsOk two }
{
    match one {
        Ok(()) => two,
        Err(fault) => Err(fault),
    }
}
