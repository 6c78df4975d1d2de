// Gates go, in the order of a queue, until none can.
ghost use Rattle.std.specs.Prelude.{◌≡◌, ◌+◌, ◌-◌, ◌<◌, get_or, set};
ghost use Rattle.tallies.specs.Queue.{tail_after};
ghost use Rattle.reduction.specs.Arrays.{Chosen};
ghost use Rattle.reduction.specs.Going.{Removed, Visited, Ended};
ghost use Rattle.reduction.specs.State.{state, Moment};

use crate::Reduction;
use model::limits::MAX_WIRES;
use slots::wires::ChainedWires;
use tallies::tally::{kept_share, only_slot, settle};

impl Reduction {
    // Gate m goes, with its slots i and j; the tallies follow, and its neighbours join the queue.
    fn remove(&mut self, wires: &ChainedWires, m: usize, i: usize, j: usize)
        requires moment { Moment wires.now self.old }
        requires chosen { Chosen wires.now.count (state wires.now self.old) m i j }
        ensures removed { Removed wires.now.count self.old.nodes.count m i j (get_or wires.now.sources.now i 0) (get_or self.old.slots.to j 0) (state wires.now self.old) (state wires.now self.new) self.old.tallies.ins self.old.tallies.outs self.new.tallies.ins self.new.tallies.outs self.new.nodes.count }
        ensures gates_after { self.new.queue.gates ≡ set (set self.old.queue.gates self.old.queue.tail (get_or wires.now.sources.now i 0)) (self.old.queue.tail + 1) (get_or self.old.slots.to j 0) }
        ensures places_after { self.new.queue.places ≡ set (set self.old.queue.places (get_or wires.now.sources.now i 0) self.old.queue.tail) (get_or self.old.slots.to j 0) (self.old.queue.tail + 1) }
        ensures ends_after { (self.new.queue.head ≡ self.old.queue.head) × (self.new.queue.tail ≡ self.old.queue.tail + 2) }
    {
        let u = wires.sources[i] as usize;
        let v = self.slots.to[j] as usize;
        let nodes = self.nodes.count;
        self.queue.put_both(u, v);
        self.take(wires, m, i, j);
        let kept = kept_share(nodes, self.nodes.count, i);
        settle(&mut self.tallies.ins, m, v, (MAX_WIRES + j) as u32, kept);
        settle(&mut self.tallies.outs, m, u, (MAX_WIRES + i) as u32, kept);
    }

    // The gate at the queue's head goes, if it can from its place; its neighbours join the queue at the tail, to have their turn after the others.
    fn visit(&mut self, wires: &ChainedWires)
        requires moment { Moment wires.now self.old }
        requires waiting { self.old.queue.head < self.old.queue.tail }
        ensures visited { Visited wires.now.gates wires.now.count 0 (wires.now.gates - 1) self.old.nodes.count self.old.queue.head self.old.queue.tail (state wires.now self.old) (state wires.now self.new) self.new.tallies.ins self.new.tallies.outs self.new.queue.gates self.new.queue.places self.new.nodes.count }
        ensures ends_after { (self.new.queue.head ≡ self.old.queue.head) × (self.new.queue.tail ≡ tail_after self.old.nodes.count self.new.nodes.count self.old.queue.tail) }
    {
        let m = usize::from(self.queue.gates[self.queue.head]);
        if self.queue.waits(&self.tallies, m, 0, wires.gates - 1) {
            let i = only_slot(&self.tallies.ins, m);
            let j = only_slot(&self.tallies.outs, m);
            self.remove(wires, m, i, j);
        }
    }

    // Gates go until none but the first and the last can.
    pub(crate) fn reduce(&mut self, wires: &ChainedWires)
        requires moment { Moment wires.now self.old }
        requires leaves { self.old.nodes.count ≡ wires.now.count }
        ensures { Ended wires.now.gates wires.now.count 0 (wires.now.gates - 1) (state wires.now self.old) (state wires.now self.new) self.new.nodes.count }
    {
        // A `while`, not a `for`: the queue grows on the way.
        while self.queue.head < self.queue.tail {
            self.visit(wires);
            self.queue.head += 1;
        }
    }
}
