// The way down nested series nodes to the item that gets the ticks of a part.
ghost use Rattle.std.specs.Prelude.{◌≡◌};
ghost use Rattle.optimum.specs.Head.{item, turn};
ghost use Rattle.ties.specs.Code.{head_of};
ghost use Rattle.planting.specs.TreeWords.{tree_nodes};
ghost use Rattle.heads.specs.Stored.{CanMake, CanWalk, WalkEnds, gate_heads, node_heads, next_down};

use crate::store::Heads;
use planting::tree::{Kind, Tree};
use ties::{Head, leads};

// Of the numbers l, m and r, that of the head that leads. The comparisons are those of `ties::best_of`, which answers the head and not whose it is.
fn leading(left: Head, gate: Head, right: Head, l: usize, m: usize, r: usize) -> usize
    ensures { result ≡ item (turn (head_of left) (head_of gate) (head_of right)) l m r }
{
    if leads(gate, left) {
        if leads(right, gate) {
            return r;
        }
        return m;
    }
    if leads(right, left) {
        return r;
    }
    l
}

// The child of series node i that gets its ticks; node i itself where its gate gets them, or where it is no series node.
fn next_down(i: usize, tree: &Tree, heads: &Heads) -> usize
    requires { CanMake tree.now heads.now i }
    ensures { result ≡ next_down (tree_nodes tree.now) (gate_heads heads.now) (node_heads heads.now) i }
{
    let Kind::Series { left, gate, right } = tree.kind_at(i) else {
        return i;
    };
    let l = left as usize;
    let r = right as usize;
    leading(
        heads.node(l),
        heads.gate(gate as usize),
        heads.node(r),
        l,
        i,
        r,
    )
}

// The node at the end of the way down from node i.
pub fn descend(i: usize, tree: &Tree, heads: &Heads) -> usize
    requires { CanWalk tree.now heads.now i }
    ensures { WalkEnds tree.now heads.now i result }
{
    let mut j = i;
    let mut next = next_down(i, tree, heads);
    // A `while`, not a `for`: each node says which child comes next.
    while next < j {
        j = next;
        next = next_down(j, tree, heads);
    }
    j
}
