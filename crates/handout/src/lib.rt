// Ticks handed out at a node: in series to the item that leads, in parallel to both sides. The two functions call each other; each hand-over from a parallel part is to one with fewer wires.
// Public for `sizing` alone.
#![tactic(auto)]

ghost use Rattle.std.specs.Prelude.{◌<◌};
ghost use Rattle.planting.specs.TreeWords.{tree_nodes, tree_parents};
ghost use Rattle.heads.specs.Plan.{kind, parent};
ghost use Rattle.handout.specs.State.{CanGiveOut, GaveOut};

use blockwords::BlockWords;
use heads::below::renew_up;
use heads::gate::gate_give_out;
use heads::store::Heads;
use heads::way::descend;
use planting::tree::{Kind, Tree};

// Hands out w ticks at node i, to the item that leads: a gate, or a parallel part. Without a head it does nothing.
#[cycle(parallel_give_out_series_give_out)]
pub fn series_give_out(
    i: usize,
    w: u32,
    block: &BlockWords,
    tree: &Tree,
    increases: &mut [u32],
    heads: &mut Heads,
)
    requires { CanGiveOut block.now tree.now increases.old heads.old i w }
    ensures { GaveOut block.now tree.now increases.old heads.old increases.new heads.new i w (parent (tree_parents tree.now) i) }
{
    if heads.node_gain(i) == 0 {
        return;
    }
    let j = descend(i, tree, heads);
    if let Kind::Series { gate, .. } = tree.kind_at(j) {
        gate_give_out(gate, w, block, increases, heads);
    } else {
        parallel_give_out(j, w, block, tree, increases, heads);
    }
    renew_up(j, i, tree, heads);
}

// Hands out w ticks at parallel node i, to those of its sides that have a head: `series_give_out` does nothing without one. Its own head is left for the caller to renew.
#[cycle(parallel_give_out_series_give_out)]
pub fn parallel_give_out(
    i: usize,
    w: u32,
    block: &BlockWords,
    tree: &Tree,
    increases: &mut [u32],
    heads: &mut Heads,
)
    requires is_parallel { 1 < kind (tree_nodes tree.now) i }
    requires can_give_out { CanGiveOut block.now tree.now increases.old heads.old i w }
    ensures { GaveOut block.now tree.now increases.old heads.old increases.new heads.new i w i }
{
    let Kind::Parallel { left, right } = tree.kind_at(i) else {
        unreachable!();
    };
    let left = left as usize;
    let right = right as usize;
    series_give_out(left, w, block, tree, increases, heads);
    series_give_out(right, w, block, tree, increases, heads);
}
