// The tree of parts of a block, copied so that each node stands once, with its parent, and with the block's first and last gate around it.
#![tactic(auto)]

mod copy;
mod node;
pub mod tree;

ghost use Rattle.std.specs.Prelude.{◌≡◌, ◌+◌};
ghost use Rattle.parts.specs.Nodes.{tree_of};
ghost use Rattle.planting.specs.Copy.{nodes_in, nodes_of, planted_in, Readable, Room};
ghost use Rattle.planting.specs.Planted.{Planted, whole, lone};
ghost use Rattle.planting.specs.TreeWords.{plot_of, nodes_held};

use copy::copy;
use model::limits::{MAX_GATES, MAX_WIRES};
use tree::Tree;

// Nodes of the tree that a reduction leaves, at most: a leaf for each wire, and two for each gate that goes.
pub const MAX_REDUCED: usize = MAX_WIRES + MAX_GATES + MAX_GATES;

// Nodes of a planted tree, at most: a series-parallel block of n gates has at most 2n - 3 wires, and its tree 4n - 3 nodes.
pub const MAX_NODES: usize = 4 * MAX_GATES;

// A number for each node of the tree that a reduction leaves.
pub type ReducedNumbers = [u32; MAX_REDUCED];

// Plants the tree of node i of the arrays kind, left, gate, right, between gates a and b. Answers the number of nodes; the top is the last. Nodes beyond are as before.
// Public for the crates above only: they have shown that node i is the root of a tree.
pub fn plant(
    i: usize,
    a: u32,
    b: u32,
    kind: &ReducedNumbers,
    left: &ReducedNumbers,
    gate: &ReducedNumbers,
    right: &ReducedNumbers,
    tree: &mut Tree,
) -> usize
    requires readable { Readable (nodes_in kind.now left.now gate.now right.now) i }
    requires room { Room (plot_of tree.old) (nodes_of (whole a (tree_of (nodes_in kind.now left.now gate.now right.now) i) b)) }
    ensures count { result ≡ nodes_of (whole a (tree_of (nodes_in kind.now left.now gate.now right.now) i) b) }
    ensures planted { Planted (whole a (tree_of (nodes_in kind.now left.now gate.now right.now) i) b) result (plot_of tree.new) }
    ensures written { plot_of tree.new ≡ planted_in (whole a (tree_of (nodes_in kind.now left.now gate.now right.now) i) b) (plot_of tree.old) }
    ensures held { nodes_held tree.new ≡ result }
{
    tree.put_wire(0, 0);
    let l = copy(i, kind, left, gate, right, tree, 1);
    tree.put_wire(l, 0);
    tree.put_series(l, b, l + 1);
    tree.put_series(1, a, l + 2);
    tree.put_root(l + 3);
    l + 3
}

// Plants gate g alone. Answers the number of nodes; the top is the last. Nodes beyond are as before.
pub fn plant_lone(g: u32, tree: &mut Tree) -> usize
    requires { Room (plot_of tree.old) 3 }
    ensures count { result ≡ 3 }
    ensures planted { Planted (lone g) result (plot_of tree.new) }
    ensures written { plot_of tree.new ≡ planted_in (lone g) (plot_of tree.old) }
    ensures held { nodes_held tree.new ≡ result }
{
    tree.put_wire(0, 0);
    tree.put_wire(1, 0);
    tree.put_series(1, g, 2);
    tree.put_root(3);
    3
}
