ghost use Rattle.std.specs.Prelude.{◌≡◌, ◌<◌, ◌≤◌, ◌+◌, ℕ, List, IfOk, length, get_or, [], Some, slice_get, ◌∷◌};
ghost use Rattle.std.specs.Vec.Iter.{into_iter_items, into_iter_len};
ghost use Rattle.icet_model.specs.Plan.{IsPlan};
ghost use Rattle.icet_net.specs.Net.{messages_on};
ghost use Rattle.icet_net.specs.Ranks.{AreWholeImages};
ghost use Rattle.icet_net.specs.Opening.{AreNewPorts, HaveImages, HaveInboxes, HaveOutboxes, IsStarted, AreStarted};

use icet_base::{Mode, NoMemory, Rank};
use icet_plan::{Plan, Program};
use icet_rank::{Image, Inboxes, Outboxes, RankMachine};
use icet_ring::{Inbox, Outbox};
use std::alloc::Global;
use std::vec::IntoIter;

/// The machines of all ranks at the start of their programs, from each rank's images and ports.
pub(crate) fn machines_of<I: Inbox, O: Outbox>(
    alloc: Global,
    plan: &Plan,
    mode: Mode,
    images: Vec<Image>,
    inboxes: Vec<Inboxes<I>>,
    outboxes: Vec<Outboxes<O>>,
) -> Result<Vec<RankMachine<I, O>>, NoMemory>
    requires count { length images.items ≡ length plan.now.programs }
    requires in_count { length inboxes.items ≡ length plan.now.programs }
    requires out_count { length outboxes.items ≡ length plan.now.programs }
    requires whole { HaveImages plan.now images.items }
    requires inboxes { HaveInboxes plan.now (length plan.now.programs) inboxes.items }
    requires outboxes { HaveOutboxes plan.now outboxes.items }
    ensures count { IfOk result (λ machines. length machines.items ≡ length plan.now.programs) }
    ensures all { IfOk result (λ m. AreStarted plan.now mode images.items inboxes.items outboxes.items m.items) }
{
    let mut machines = Vec::new(alloc);
    let mut images = images.into_iter();
    let mut inboxes = inboxes.into_iter();
    let mut outboxes = outboxes.into_iter();
    'starting: for rank in 0..plan.ranks() {
        let machine = start(
            alloc,
            plan,
            Rank(rank),
            mode,
            next_of(&mut images),
            next_of(&mut inboxes),
            next_of(&mut outboxes),
        )?;
        machines.push(machine)?;
    }
    Ok(machines)
}

/// The next item. Condition: there is one.
fn next_of<T: Drop>(items: &mut IntoIter<T, Global>) -> T
    requires { 0 < into_iter_len items.old }
    ensures items { into_iter_items items.old ≡ result ∷ into_iter_items items.new }
    ensures len { into_iter_len items.new + 1 ≡ into_iter_len items.old }
{
    match items.next() {
        Some(item) => item,
        None => unreachable!(),
    }
}

/// The machine of one rank.
fn start<I: Inbox, O: Outbox>(
    alloc: Global,
    plan: &Plan,
    rank: Rank,
    mode: Mode,
    images: Image,
    ins: Inboxes<I>,
    outs: Outboxes<O>,
) -> Result<RankMachine<I, O>, NoMemory>
    requires rank { rank < length plan.now.programs }
    requires whole { AreWholeImages plan.now.tiles.sizes images }
    requires ins { AreNewPorts (λ q. messages_on plan.now q rank) (length plan.now.programs) ins }
    requires outs { AreNewPorts (λ r. messages_on plan.now rank r) (length plan.now.programs) outs }
    ensures { IfOk result (λ m. IsStarted plan.now mode images ins outs rank m) }
{
    let _ranks = plan.ranks();
    let program = copy_of(alloc, plan.program(rank))?;
    RankMachine::new(
        alloc,
        rank,
        mode,
        program,
        images,
        ins.into_ports(),
        outs.into_ports(),
    )
}

/// An equal program.
fn copy_of(alloc: Global, program: &Program) -> Result<Program, NoMemory>
    ensures { IfOk result (λ p. p ≡ program.now) }
{
    let mut ops = Vec::new(alloc);
    'copying: for i in 0..program.len() {
        ops.push(program.op(i))?;
    }
    Ok(Program::of(ops))
}
