// A tree copied from node arrays into a planted tree, an occurrence of a node a new node.
ghost use Rattle.std.specs.Prelude.{◌≡◌, ◌+◌};
ghost use Rattle.parts.specs.Nodes.{tree_of};
ghost use Rattle.planting.specs.Copy.{nodes_in, nodes_of, copied, Readable, Room};
ghost use Rattle.planting.specs.TreeWords.{plot_of};

use crate::ReducedNumbers;
use crate::tree::Tree;

// Copies the tree of node i of the arrays kind, left, gate, right to the nodes from c on. Answers the number of nodes then.
pub(crate) fn copy(
    i: usize,
    kind: &ReducedNumbers,
    left: &ReducedNumbers,
    gate: &ReducedNumbers,
    right: &ReducedNumbers,
    tree: &mut Tree,
    c: usize,
) -> usize
    requires readable { Readable (nodes_in kind.now left.now gate.now right.now) i }
    requires room { Room (plot_of tree.old) (c + nodes_of (tree_of (nodes_in kind.now left.now gate.now right.now) i)) }
    ensures count { result ≡ c + nodes_of (tree_of (nodes_in kind.now left.now gate.now right.now) i) }
    ensures written { plot_of tree.new ≡ copied (tree_of (nodes_in kind.now left.now gate.now right.now) i) c (plot_of tree.old) }
{
    if kind[i] == 0 {
        tree.put_wire(c, gate[i]);
        return c + 1;
    }
    let l = copy(left[i] as usize, kind, left, gate, right, tree, c);
    let r = copy(right[i] as usize, kind, left, gate, right, tree, l);
    if kind[i] == 1 {
        tree.put_series(l, gate[i], r);
        return r + 1;
    }
    tree.put_parallel(l, r);
    r + 1
}
