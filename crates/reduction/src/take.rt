// Taking a gate away: its two slots become one.
ghost use Rattle.std.specs.Prelude.{◌≡◌, ◌+◌, ◌≤◌, ◌<◌};
ghost use Rattle.model.specs.Limits.{max_gates, max_wires};
ghost use Rattle.reduction.specs.Arrays.{Chosen, Went};
ghost use Rattle.reduction.specs.State.{state};

use crate::Reduction;
use slots::wires::ChainedWires;

// The kinds of nodes that are added.
const SERIES: u32 = 1;

const PARALLEL: u32 = 2;

impl Reduction {
    // Gate m goes, with its one slot in, i, and its one slot out, j.
    pub(crate) fn take(&mut self, wires: &ChainedWires, m: usize, i: usize, j: usize)
        requires room { self.old.nodes.count + 2 ≤ max_wires + (max_gates + max_gates) }
        requires m_below { m < max_gates }
        requires chosen { Chosen wires.now.count (state wires.now self.old) m i j }
        ensures went { Went wires.now.count self.old.nodes.count m i j (state wires.now self.old) (state wires.now self.new) self.new.nodes.count }
        ensures same { (self.new.tallies ≡ self.old.tallies) × (self.new.queue ≡ self.old.queue) }
    {
        let a = wires.sources[i];
        let b = self.slots.to[j];
        let c = self.nodes.count as u32;
        let between = self.slots.between(wires, a, b);
        self.nodes
            .push(SERIES, self.slots.top[i], m as u32, self.slots.top[j]);
        match between {
            None => self.slots.join(i, j, a, c),
            Some(l) => {
                self.nodes.push(PARALLEL, self.slots.top[l], 0, c);
                self.slots.take_up(i, j, l, a, c + 1);
            }
        }
    }
}
