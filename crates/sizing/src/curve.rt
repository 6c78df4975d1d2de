// Ticks spent at a node run by run, and the curve of the runs: neighbours of one gain are joined. With ticks for all steps it is the curve of the node.
ghost use Rattle.std.specs.Prelude.{ℕ, ◌+◌, ◌^◌, ◌≤◌, ◌<◌, length, get_or};
ghost use Rattle.heads.specs.Plan.{plan, StepsHeld};
ghost use Rattle.handout.specs.State.{state};
ghost use Rattle.sizing.specs.Pairs.{Noted, Curvable, Spent};

use crate::ticks::next_run;
use blockwords::BlockWords;
use handout::series_give_out;
use heads::store::Heads;
use planting::tree::Tree;
use ties::gain_in;

// Notes a run behind `count` pairs, joined to the last of them where the gain is the same. Answers how many pairs there are then.
fn note(
    count: usize,
    width: u32,
    gain: u64,
    pair_widths: &mut [u32],
    pair_gains: &mut [u64],
) -> usize
    requires count_in_bounds { (count < length pair_widths.old) × (count < length pair_gains.old) }
    requires widths_fit { (i : ℕ) → i < count → get_or pair_widths.old i 0 + width < 2 ^ 32 }
    ensures { Noted count result pair_widths.old pair_gains.old pair_widths.new pair_gains.new width gain }
{
    if 0 < count && pair_gains[count - 1] == gain {
        pair_widths[count - 1] += width;
        return count;
    }
    pair_widths[count] = width;
    pair_gains[count] = gain;
    count + 1
}

// Hands out `ticks` ticks at node i, run by run, at most `steps` runs, and notes the pairs of their curve. Answers how many pairs there are. The heads are scratch afterwards.
// Public for the crates above only: they have shown that all heads are right.
pub fn spend_ticks(
    i: usize,
    ticks: u32,
    steps: usize,
    block: &BlockWords,
    tree: &Tree,
    increases: &mut [u32],
    heads: &mut Heads,
    pair_widths: &mut [u32],
    pair_gains: &mut [u64],
) -> usize
    requires curvable { Curvable (plan block.now tree.now) (state increases.old heads.old) i steps }
    requires steps_held { StepsHeld block.now }
    requires steps_in_bounds { (steps ≤ length pair_widths.old) × (steps ≤ length pair_gains.old) }
    ensures { Spent (plan block.now tree.now) increases.old increases.new i ticks steps result pair_widths.old pair_gains.old pair_widths.new pair_gains.new }
{
    let mut left = ticks;
    let mut count = 0;
    for _k in 0..steps {
        let head = heads.node(i);
        let Some(run) = next_run(left, head) else {
            return count;
        };
        count = note(count, run, gain_in(head.key), pair_widths, pair_gains);
        series_give_out(i, run, block, tree, increases, heads);
        left -= run;
    }
    count
}
