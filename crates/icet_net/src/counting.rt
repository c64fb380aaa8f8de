ghost use Rattle.std.specs.Prelude.{◌≡◌, ◌<◌, ◌≤◌, ◌+◌, ◌^◌, ℕ, IfOk, length, get_or, []};
ghost use Rattle.icet_model.specs.Exchange.{sends_to};
ghost use Rattle.icet_net.specs.Net.{messages_on};
ghost use Rattle.icet_net.specs.Counting.{sent_in, AreCounts, Counts};

use icet_base::{NoMemory, Rank};
use icet_plan::{Exchange, Kind, Plan};
use std::alloc::Global;

/// How many messages a rank sends to each rank of the plan.
pub(crate) fn counts_from(alloc: Global, plan: &Plan, from: Rank) -> Result<Vec<u32>, NoMemory>
    requires { from < length plan.now.programs }
    ensures count { IfOk result (λ counts. length counts.items ≡ length plan.now.programs) }
    ensures counts { IfOk result (λ counts. AreCounts plan.now from counts.items) }
{
    let ranks = plan.ranks();
    let mut counts = vec![in alloc; 0u32; ranks as usize]?;
    'counting: for i in 0..plan.exchanges(from) {
        count(&mut counts, plan.exchange(from, i));
    }
    Ok(counts)
}

/// Counts an exchange for its peer, if it is a send.
fn count(counts: &mut Vec<u32>, exchange: Exchange)
    requires peer { exchange.peer < length counts.old.items }
    requires room { get_or counts.old.items exchange.peer 0 + 1 < 2 ^ 32 }
    ensures { Counts exchange counts.old.items counts.new.items }
{
    if exchange.kind == Kind::Send {
        counts[exchange.peer.0 as usize] += 1;
    }
}
