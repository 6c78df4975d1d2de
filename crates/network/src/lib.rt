// The judgement of a network: refusal 8 (a gate reaches itself), refusal 9 (a gate is at fault with its wires), or an order of its gates.
// Every function here is public only for the crates above. Wire delays play no part.
#![tactic(auto)]

mod ends;

ghost use Rattle.std.specs.Prelude.{◌≤◌, length};
ghost use Rattle.model.specs.Block.{Block};
ghost use Rattle.ordering.specs.Wires.{Lent, InArrays};
ghost use Rattle.ordering.specs.Order.{SameBeyond};
ghost use Rattle.network.specs.Judged.{Judged};

use ends::lowest_at_fault;
use loops::lowest_on_loop;
use model::Refusal;
use ordering::order_gates;
use ordering::wires::Wires;

// Which of the refusals 8 and 9 fits the network first, with its gate; or that none does, and then the first n elements of `order` are an order of its gates.
pub fn judge_network(n: usize, wires: Wires, order: &mut [u32]) -> Result<(), Refusal>
    requires lent { Lent n wires.count wires.sources.now wires.targets.now }
    requires n_in_bounds { n ≤ length order.old }
    ensures judged { (B : Block) → InArrays B n wires.entry.count wires.entry.sources.now wires.entry.targets.now → Judged B order.new result }
    ensures same_beyond { SameBeyond n order.old order.new }
{
    if !order_gates(n, wires, order) {
        let gate = lowest_on_loop(n, wires).unwrap();
        return Err(Refusal::Loop { gate });
    }
    match lowest_at_fault(n, wires) {
        Some(gate) => Err(Refusal::Ends { gate }),
        None => Ok(()),
    }
}
