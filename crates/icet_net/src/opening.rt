ghost use Rattle.std.specs.Prelude.{◌≡◌, ◌<◌, ◌≤◌, ◌+◌, ℕ, IfOk, OnOk, OnErr, map, length, ◌*◌, ◌^◌};
ghost use Rattle.std.specs.List.{AllByRecursion};
ghost use Rattle.icet_net.specs.Net.{pairs_of, blank_canvases};
ghost use Rattle.icet_net.specs.Opening.{CanOpen, sides_of, hull_for};
ghost use Rattle.icet_net.specs.Ranks.{AreHulls, AreOpenedWith};
ghost use Rattle.icet_model.specs.declared.limits.TheConstants.{MAX_RANK_PIXELS};

use crate::hull::Hull;
use crate::porting::open_ports;
use crate::starting::machines_of;
use icet_base::{Mode, NoMemory};
use icet_collect::Canvas;
use icet_plan::Plan;
use icet_rank::{Image, RankMachine};
use icet_ring::Wires;
use icet_tiles::Layout;
use std::alloc::Global;

/// Opens a net for a plan: a pair of ports for each ordered pair of ranks that the plan uses, with the
/// plan's number of messages on it, and a machine for each rank, at the start of its program.
/// Conditions: the plan's tiles have the layout's number, sizes and display ranks and at most
/// 67,108,864 pixels each; there is one image per rank, of whole tiles, with the pixels dealt out to the
/// strands; `cap` and `strands` are at least 1.
///
/// # Errors
///
/// `NoMemory`.
pub fn open_net<W: Wires>(
    alloc: Global,
    plan: Plan,
    mode: Mode,
    layout: &Layout,
    images: Vec<Image>,
    strands: u32,
    wires: &mut W,
    cap: u32,
) -> Result<(Hull<W>, Vec<RankMachine<W::In, W::Out>>), NoMemory>
    requires fits { CanOpen plan layout.now images.items }
    requires cap { 1 ≤ cap }
    requires strands { 1 ≤ strands }
    ensures hull { IfOk result (λ net. net.0 ≡ hull_for plan cap strands layout.now) }
    ensures hulls { IfOk result (λ net. AreHulls net.0 net.1.items) }
    ensures opened { IfOk result (λ net. AreOpenedWith mode images.items net.1.items) }
    ensures log { W.log wires.new ≡ W.log wires.old }
    ensures owed { OnOk result (W.owed wires.new ≡ W.owed wires.old + length (pairs_of plan)) }
    ensures owed_kept { OnErr result (W.owed wires.old ≤ W.owed wires.new) }
{
    let ranks = plan.ranks();
    let sides = sides_in(alloc, layout)?;
    let canvases = canvases_of(alloc, sides.as_slice(), strands)?;
    let parts = Vec::with_capacity(alloc, ranks as usize)?;
    let pictures = Vec::with_capacity(alloc, sides.len())?;
    let ports = open_ports(alloc, &plan, wires, cap)?;
    let machines = machines_of(alloc, &plan, mode, images, ports.inboxes, ports.outboxes)?;
    let hull = Hull {
        plan,
        cap,
        strands,
        sides,
        pairs: ports.pairs,
        canvases,
        parts,
        pictures,
    };
    Ok((hull, machines))
}

/// Each tile's width and height.
fn sides_in(alloc: Global, layout: &Layout) -> Result<Vec<(u32, u32)>, NoMemory>
    ensures { IfOk result (λ sides. sides.items ≡ map sides_of layout.now) }
{
    let mut sides = Vec::new(alloc);
    'sizing: for t in 0..layout.count() {
        let area = layout.tile(t).area;
        sides.push((area.w, area.h))?;
    }
    Ok(sides)
}

/// A blank canvas for each tile of these sides.
fn canvases_of(alloc: Global, sides: &[(u32, u32)], strands: u32) -> Result<Vec<Canvas>, NoMemory>
    requires few { length sides.now < 2 ^ 32 }
    requires small { AllByRecursion (λ s. s.0 * s.1 ≤ MAX_RANK_PIXELS) sides.now }
    requires strands { 1 ≤ strands }
    ensures { IfOk result (λ canvases. canvases.items ≡ blank_canvases sides.now strands) }
{
    let mut canvases = Vec::new(alloc);
    'making: for t in 0..sides.len() {
        let (w, h) = sides[t];
        canvases.push(Canvas::blank(alloc, t as u32, w, h, strands)?)?;
    }
    Ok(canvases)
}
