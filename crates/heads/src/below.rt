// The head of a node made from those just below it.
ghost use Rattle.std.specs.Prelude.{◌≡◌};
ghost use Rattle.ties.specs.Code.{head_of};
ghost use Rattle.planting.specs.TreeWords.{tree_nodes};
ghost use Rattle.heads.specs.Stored.{CanMake, CanRenew, NodesRenewed, NodeWritten, gate_heads, node_heads, head_below};

use crate::store::Heads;
use planting::tree::{Kind, Tree};
use ties::{Head, beside, best_of, none};

// The head that the stored heads just below node i make.
fn head_below(i: usize, tree: &Tree, heads: &Heads) -> Head
    requires { CanMake tree.now heads.now i }
    ensures { head_of result ≡ head_below (tree_nodes tree.now) (gate_heads heads.now) (node_heads heads.now) i }
{
    match tree.kind_at(i) {
        Kind::Wire { .. } => none(),
        Kind::Series { left, gate, right } => best_of(
            heads.node(left as usize),
            heads.gate(gate as usize),
            heads.node(right as usize),
        ),
        Kind::Parallel { left, right } => beside(
            heads.node(left as usize),
            heads.node(right as usize),
        ),
    }
}

// Renews the head of node i from the stored heads just below it.
pub fn renew(i: usize, tree: &Tree, heads: &mut Heads)
    requires { CanMake tree.now heads.old i }
    ensures { NodeWritten heads.old heads.new i (head_below (tree_nodes tree.now) (gate_heads heads.old) (node_heads heads.old) i) }
{
    let head = head_below(i, tree, &*heads);
    heads.put_node(i, head);
}

// Renews the heads from node j along the parents up to node i.
pub fn renew_up(j: usize, i: usize, tree: &Tree, heads: &mut Heads)
    requires { CanRenew tree.now heads.old j i }
    ensures { NodesRenewed tree.now heads.old heads.new j i }
{
    let mut k = j;
    // A `while`, not a `for`: each node names its parent.
    while k < i {
        renew(k, tree, heads);
        k = tree.parent_at(k);
    }
    renew(i, tree, heads);
}
