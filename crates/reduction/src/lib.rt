// The reduction of a block to its tree of parts, or the verdict that it is not series-parallel. Why the verdict is exact stands in `parts`.
#![tactic(auto)]

mod begin;
mod take;
mod tree;
mod turns;

ghost use Rattle.std.specs.Prelude.{◌≡◌, ◌≢◌, ◌+◌, ◌≤◌, length};
ghost use Rattle.model.specs.Limits.{max_gates, max_wires};
ghost use Rattle.model.specs.Block.{Block};
ghost use Rattle.parts.specs.Network.{Network};
ghost use Rattle.reduction.specs.Wired.{Wired, Given};
ghost use Rattle.reduction.specs.Answered.{Answered};

use ordering::wires::Wires;
use slots::nodes::TreeNodes;
use slots::wires::ChainedWires;
use slots::{NotSeriesParallel, Slots};
use tallies::queue::Queue;
use tallies::tally::Tallies;
pub use tree::{Root, reduce_network};

// The state of a reduction: the slots, the nodes of the tree, the tallies of the gates and the queue in which gates wait for their turn.
// Filled where it stands and never moved: copies of its arrays would add to the stack of the calls for C.
#[derive(Drop)]
pub struct Reduction {
    slots: Slots,
    pub nodes: TreeNodes,
    tallies: Tallies,
    queue: Queue,
}

impl Reduction {
    pub const EMPTY: Reduction = Reduction {
        slots: Slots::EMPTY,
        nodes: TreeNodes::EMPTY,
        tallies: Tallies::EMPTY,
        queue: Queue::EMPTY,
    };

    // Reduces a network of n gates to its tree: answers the root among the nodes. One gate without a wire has none.
    // Public for the crates above only: they have shown that the wires are those of a network.
    pub fn reduce_network(
        &mut self,
        n: usize,
        wires: Wires,
    ) -> Result<Option<usize>, NotSeriesParallel>
        requires given { Given n wires.count wires.sources.now wires.targets.now wires.delays.now }
        requires wires_long { (wires.count ≤ length wires.sources.now) × (wires.count ≤ length wires.targets.now) × (wires.count ≤ length wires.delays.now) }
        requires few { (n ≤ max_gates) × (wires.count ≤ max_wires) }
        ensures answered { (N : Block) → Network N → Wired N n wires.entry.count wires.entry.sources.now wires.entry.targets.now wires.entry.delays.now → Answered N self.new.nodes result }
        ensures nodes_long { n ≢ 1 → length self.new.nodes.kind ≡ max_wires + (max_gates + max_gates) }
        ensures nodes_few { n ≢ 1 → self.new.nodes.count ≤ wires.entry.count + (n + n) }
    {
        if n == 1 {
            return Ok(None);
        }
        let chained = ChainedWires::new(n, wires.count, wires.sources);
        self.begin(&chained, wires.targets, wires.delays);
        self.reduce(&chained);
        self.slots.pick(wires.count, n - 1).map(Some)
    }
}
