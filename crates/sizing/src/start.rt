// The raised start, from which ticks are handed out. The array `lengths` is scratch.
ghost use Rattle.planting.specs.TreeWords.{tree_nodes};
ghost use Rattle.heads.specs.Plan.{plan, StepsHeld};
ghost use Rattle.handout.specs.State.{state};
ghost use Rattle.sizing.specs.Raise.{Measurable, Raised, Sizable, delays_in};

use crate::length::part_lengths;
use crate::raise::raise_and_fill;
use blockwords::BlockWords;
use heads::gate::unslowed_heads;
use heads::store::Heads;
use planting::tree::Tree;

// The increases of the raised start, and all heads with them.
// Public for the crates above only: they have shown that the arrays hold a sound plan.
pub fn start(
    block: &BlockWords,
    tree: &Tree,
    delays: &[u32],
    lengths: &mut [u32],
    increases: &mut [u32],
    heads: &mut Heads,
)
    requires sizable { Sizable (plan block.now tree.now) (state increases.old heads.old) }
    requires steps_held { StepsHeld block.now }
    requires measurable { Measurable (tree_nodes tree.now) delays.now lengths.old }
    ensures { Raised (plan block.now tree.now) (delays_in delays.now) (state increases.new heads.new) }
{
    unslowed_heads(block, increases, heads);
    part_lengths(tree, delays, lengths);
    raise_and_fill(block, tree, lengths, increases, heads);
}
