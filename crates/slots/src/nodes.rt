// The nodes of the tree of parts.
ghost use Rattle.std.specs.Prelude.{◌≡◌, ℕ, ◌+◌, ◌^◌, ◌≤◌, ◌<◌, length, get_or, set};
ghost use Rattle.model.specs.Limits.{max_gates, max_wires};

use model::limits::{MAX_GATES, MAX_WIRES};

// Nodes of a tree, at most: a leaf for each wire, and two for each gate that goes.
pub const MAX_NODES: usize = MAX_WIRES + MAX_GATES + MAX_GATES;

// `count` nodes, each with its kind (0 a wire, 1 a series node, 2 a parallel node), its left child, its middle gate (of a wire: its delay) and its right child. Arrays, as `planting::plant` takes them.
#[derive(Drop)]
pub struct TreeNodes {
    pub count: usize,
    pub kind: [u32; MAX_NODES],
    pub left: [u32; MAX_NODES],
    pub gate: [u32; MAX_NODES],
    pub right: [u32; MAX_NODES],
}

impl TreeNodes {
    pub const EMPTY: TreeNodes = TreeNodes {
        count: 0,
        kind: [0; MAX_NODES],
        left: [0; MAX_NODES],
        gate: [0; MAX_NODES],
        right: [0; MAX_NODES],
    };

    // A leaf for each of k wires.
    pub fn lay(&mut self, k: usize, delays: &[u32])
        requires { (k ≤ max_wires) × (k ≤ length delays.now) }
        ensures count_after { self.new.count ≡ k }
        ensures all_leaves { (i : ℕ) → i < k → get_or self.new.kind i 0 ≡ 0 }
        ensures all_delays { (i : ℕ) → i < k → get_or self.new.gate i 0 ≡ get_or delays.now i 0 }
        ensures room { let most = max_wires + (max_gates + max_gates) in (length self.new.kind ≡ most) × (length self.new.left ≡ most) × (length self.new.gate ≡ most) × (length self.new.right ≡ most) }
    {
        self.count = k;
        // Node by node, as `Slots::lay`.
        for i in 0..k {
            self.kind[i] = 0;
            self.gate[i] = delays[i];
        }
    }

    // One node more.
    pub fn push(&mut self, kind: u32, left: u32, gate: u32, right: u32)
        requires { self.old.count < max_wires + (max_gates + max_gates) }
        ensures count_after { self.new.count ≡ self.old.count + 1 }
        ensures kind_after { self.new.kind ≡ set self.old.kind self.old.count kind }
        ensures left_after { self.new.left ≡ set self.old.left self.old.count left }
        ensures gate_after { self.new.gate ≡ set self.old.gate self.old.count gate }
        ensures right_after { self.new.right ≡ set self.old.right self.old.count right }
    {
        let c = self.count;
        self.kind[c] = kind;
        self.left[c] = left;
        self.gate[c] = gate;
        self.right[c] = right;
        self.count += 1;
    }
}
