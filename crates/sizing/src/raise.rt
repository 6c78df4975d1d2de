// The raised start: inside out, each side of a parallel node gets the ticks that it lacks to the other.
ghost use Rattle.std.specs.Prelude.{ℕ, ◌≤◌, ◌<◌, length};
ghost use Rattle.planting.specs.TreeWords.{tree_nodes};
ghost use Rattle.heads.specs.Plan.{plan, node_count, StepsHeld};
ghost use Rattle.handout.specs.State.{state};
ghost use Rattle.sizing.specs.Raise.{Lengths, Standing, Levelled, Raisable, Raised};

use crate::ticks::ticks_out;
use blockwords::BlockWords;
use heads::below::renew;
use heads::store::Heads;
use planting::tree::{Kind, Tree};

// Raises the shorter side of node i, if it is a parallel node. `lengths` holds how long each part lasts with no increase.
fn raise_sides(
    i: usize,
    block: &BlockWords,
    tree: &Tree,
    lengths: &[u32],
    increases: &mut [u32],
    heads: &mut Heads,
)
    requires standing { Standing (plan block.now tree.now) (state increases.old heads.old) i }
    requires steps_held { StepsHeld block.now }
    requires i_bound { (i < node_count (tree_nodes tree.now)) × (node_count (tree_nodes tree.now) ≤ length lengths.now) }
    ensures still_standing { Standing (plan block.now tree.now) (state increases.new heads.new) i }
    ensures levelled { Levelled (plan block.now tree.now) lengths.now increases.old increases.new i }
{
    let Kind::Parallel { left, right } = tree.kind_at(i) else {
        return;
    };
    let left = left as usize;
    let right = right as usize;
    let left_length = lengths[left];
    let right_length = lengths[right];
    let more_left = right_length.saturating_sub(left_length);
    let more_right = left_length.saturating_sub(right_length);
    ticks_out(left, more_left, block, tree, increases, heads);
    ticks_out(right, more_right, block, tree, increases, heads);
}

// From no increase: the increases of the raised start, and the heads of all nodes with them.
pub fn raise_and_fill(
    block: &BlockWords,
    tree: &Tree,
    lengths: &[u32],
    increases: &mut [u32],
    heads: &mut Heads,
)
    requires raisable { Raisable (plan block.now tree.now) (state increases.old heads.old) }
    requires steps_held { StepsHeld block.now }
    requires tree_in_bounds { node_count (tree_nodes tree.now) ≤ length lengths.now }
    ensures { (d : ℕ → ℕ) → Lengths (tree_nodes tree.now) d lengths.now (node_count (tree_nodes tree.now)) → Raised (plan block.now tree.now) d (state increases.new heads.new) }
{
    for i in 0..tree.count {
        raise_sides(i, block, tree, lengths, increases, heads);
        renew(i, tree, heads);
    }
}
