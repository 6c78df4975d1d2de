// The beginning: a live slot with a leaf for each wire, its tallies, and every gate in the queue.
ghost use Rattle.std.specs.Prelude.{◌≡◌, ◌+◌, ◌≤◌, length};
ghost use Rattle.model.specs.Limits.{max_gates, max_wires};
ghost use Rattle.model.specs.Block.{Block};
ghost use Rattle.reduction.specs.Wired.{Given, Laid};
ghost use Rattle.reduction.specs.State.{Moment};

use crate::Reduction;
use slots::wires::ChainedWires;

impl Reduction {
    // The wires lead to `targets`, with their delays.
    pub(crate) fn begin(&mut self, wires: &ChainedWires, targets: &[u32], delays: &[u32])
        requires given { Given wires.now.gates wires.now.count wires.now.sources.now targets.now delays.now }
        requires wires_long { (wires.now.count ≤ length targets.now) × (wires.now.count ≤ length delays.now) }
        ensures laid { Laid wires.now.count targets.now delays.now self.new.slots.live self.new.slots.to self.new.slots.top self.new.nodes.kind self.new.nodes.gate }
        ensures leaves { self.new.nodes.count ≡ wires.now.count }
        ensures room { length self.new.nodes.kind ≡ max_wires + (max_gates + max_gates) }
        ensures moment { Moment wires.now self.new }
    {
        self.slots.lay(wires.count, targets);
        self.nodes.lay(wires.count, delays);
        self.tallies
            .tally(wires.sources, &self.slots.to, wires.count);
        self.queue.line_up(wires.gates);
    }
}
