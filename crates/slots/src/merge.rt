// The slots at the start, the slot from one gate to another, and slots that become one.
ghost use Rattle.std.specs.Prelude.{◌≡◌, ℕ, ◌^◌, ◌≤◌, ◌<◌, length, get_or, set};
ghost use Rattle.model.specs.Limits.{max_gates, max_wires};
ghost use Rattle.slots.specs.Sought.{Found, Leads};

use crate::Slots;
use crate::chain::{ChainedSlots, remember, slot_between};
use crate::wires::ChainedWires;
use model::limits::{MAX_GATES, MAX_WIRES};

impl Slots {
    pub const EMPTY: Slots = Slots {
        live: [0; MAX_WIRES],
        to: [0; MAX_WIRES],
        top: [0; MAX_WIRES],
        recent: [0; MAX_GATES],
    };

    // A live slot for each of k wires, whose node is the leaf of its number.
    pub fn lay(&mut self, k: usize, targets: &[u32])
        requires { (k ≤ max_wires) × (k ≤ length targets.now) }
        ensures all_live { (i : ℕ) → i < k → get_or self.new.live i 0 ≡ 1 }
        ensures all_to { (i : ℕ) → i < k → get_or self.new.to i 0 ≡ get_or targets.now i 0 }
        ensures all_top { (i : ℕ) → i < k → get_or self.new.top i 0 ≡ i }
        ensures room { (length self.new.live ≡ max_wires) × (length self.new.to ≡ max_wires) × (length self.new.top ≡ max_wires) }
    {
        // Slot by slot: whole slices copied here become calls of memmove, a name that the archive for C would need from outside.
        for i in 0..k {
            self.live[i] = 1;
            self.to[i] = targets[i];
            self.top[i] = i as u32;
        }
    }

    // The slot that leads from a to b. The slot remembered for a is tried first; whatever it is, the answer is the same.
    pub fn between(&self, wires: &ChainedWires, a: u32, b: u32) -> Option<usize>
        requires { a < max_gates }
        ensures { Found (Leads self.now.live wires.now.sources.now self.now.to a b) wires.now.count result }
    {
        let slots = ChainedSlots {
            count: wires.count,
            live: &self.live,
            from: wires.sources,
            to: &self.to,
            heads: &wires.chains.heads,
            links: &wires.chains.links,
        };
        slot_between(slots, &self.recent, a, b)
    }

    // Slots i and j become one in i's place, of node c; it leaves gate a.
    pub fn join(&mut self, i: usize, j: usize, a: u32, c: u32)
        requires { (i < max_wires) × (j < max_wires) × (a < max_gates) }
        ensures live_after { self.new.live ≡ set self.old.live j 0 }
        ensures to_after { self.new.to ≡ set self.old.to i (get_or self.old.to j 0) }
        ensures top_after { self.new.top ≡ set self.old.top i c }
        ensures recent_after { self.new.recent ≡ set self.old.recent a i }
    {
        self.live[j] = 0;
        self.to[i] = self.to[j];
        self.top[i] = c;
        remember(&mut self.recent, a, i);
    }

    // Slot l, of node c now, takes up slots i and j; it leaves gate a.
    pub fn take_up(&mut self, i: usize, j: usize, l: usize, a: u32, c: u32)
        requires { (i < max_wires) × (j < max_wires) × (l < max_wires) × (a < max_gates) }
        ensures live_after { self.new.live ≡ set (set self.old.live i 0) j 0 }
        ensures to_after { self.new.to ≡ self.old.to }
        ensures top_after { self.new.top ≡ set self.old.top l c }
        ensures recent_after { self.new.recent ≡ set self.old.recent a l }
    {
        self.live[i] = 0;
        self.live[j] = 0;
        self.top[l] = c;
        remember(&mut self.recent, a, l);
    }
}
