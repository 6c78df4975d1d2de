// A block file read and its network judged: the refusals 1 to 9, which every call has in common.
#![tactic(auto)]

pub mod block;
pub mod numbers;

ghost use Rattle.std.specs.Prelude.{◌≤◌, length};
ghost use Rattle.model.specs.Limits.{max_gates};
ghost use Rattle.blockfile.specs.Held.{gate_arrays, wire_arrays, GateRoom, WireRoom};
ghost use Rattle.loading.specs.Loads.{Loads};

use blockfile::read::{BlockHead, read_block};
use model::Refusal;
use model::limits::GATES_SQUARED;
use network::judge_network;
use ordering::wires::Wires;

// Reads the file into the arrays and judges its network; the first elements of `order`, as many as there are gates, are then an order of the gates along the wires, its others as before.
// What the other arrays hold beyond the block's gates, steps and wires is free, and after a refusal what any array holds. `HeldBlock::load` lends it the arrays of a held block.
// Nine slices, for the reason that stands beside `read_block`.
pub fn load(
    file: &[u8],
    delays: &mut [u32],
    activities: &mut [u32],
    counts: &mut [u32],
    step_widths: &mut [u32],
    drops: &mut [u32],
    sources: &mut [u32],
    targets: &mut [u32],
    wire_delays: &mut [u32],
    order: &mut [u32],
) -> Result<BlockHead, Refusal>
    requires gate_room { GateRoom (gate_arrays delays.old activities.old counts.old step_widths.old drops.old) }
    requires wire_room { WireRoom (wire_arrays sources.old targets.old wire_delays.old) }
    requires order_room { max_gates ≤ length order.old }
    ensures { Loads file.now result (gate_arrays delays.new activities.new counts.new step_widths.new drops.new) (wire_arrays sources.new targets.new wire_delays.new) order.old order.new }
{
    let mut seen = [0u8; GATES_SQUARED];
    let head = read_block(
        file,
        delays,
        activities,
        counts,
        step_widths,
        drops,
        sources,
        targets,
        wire_delays,
        &mut seen,
    )?;
    let wires = Wires {
        count: head.wires,
        sources,
        targets,
        delays: wire_delays,
    };
    judge_network(head.gates, wires, order)?;
    Ok(head)
}
