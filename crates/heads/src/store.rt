// The heads of gates and of nodes, stored.
ghost use Rattle.std.specs.Prelude.{◌≡◌};
ghost use Rattle.ties.specs.Code.{head_of};
ghost use Rattle.heads.specs.Stored.{GateRoom, NodeRoom, NodeWritten, GateWritten, gate_heads, node_heads, head_at};

use model::limits::MAX_GATES;
use planting::MAX_NODES;
use ties::{Head, gain_in};

// A head for each gate and for each node.
#[derive(Clone, Copy)]
pub struct Heads {
    pub gates: [Head; MAX_GATES],
    pub nodes: [Head; MAX_NODES],
}

impl Heads {
    // Heads that say that there are none: a key of 0 has no gain.
    pub const EMPTY: Heads = Heads {
        gates: [Head { key: 0, width: 0 }; MAX_GATES],
        nodes: [Head { key: 0, width: 0 }; MAX_NODES],
    };

    // The head of gate g.
    pub fn gate(&self, g: usize) -> Head
        requires { GateRoom self.now g }
        ensures { head_of result ≡ head_at (gate_heads self.now) g }
    {
        self.gates[g]
    }

    // The head of node i.
    pub fn node(&self, i: usize) -> Head
        requires { NodeRoom self.now i }
        ensures { head_of result ≡ head_at (node_heads self.now) i }
    {
        self.nodes[i]
    }

    // Stores the head of gate g.
    pub fn put_gate(&mut self, g: usize, a: Head)
        requires { GateRoom self.old g }
        ensures { GateWritten self.old self.new g (head_of a) }
    {
        self.gates[g] = a;
    }

    // Stores the head of node i.
    pub fn put_node(&mut self, i: usize, a: Head)
        requires { NodeRoom self.old i }
        ensures { NodeWritten self.old self.new i (head_of a) }
    {
        self.nodes[i] = a;
    }

    // The gain of node i's head.
    pub fn node_gain(&self, i: usize) -> u64
        requires { NodeRoom self.now i }
        ensures { result ≡ (head_at (node_heads self.now) i).gain }
    {
        gain_in(self.node(i).key)
    }
}
