// Ticks handed out at a node run by run: to raise a branch, or to find the increases after so many ticks.
ghost use Rattle.std.specs.Prelude.{◌≡◌, ◌<◌, MatchOption};
ghost use Rattle.planting.specs.TreeWords.{tree_parents};
ghost use Rattle.ties.specs.Code.{head_of};
ghost use Rattle.heads.specs.Plan.{plan, parent, StepsHeld};
ghost use Rattle.handout.specs.State.{state, Ready};
ghost use Rattle.sizing.specs.Ticks.{run_of, TickedOut};

use blockwords::BlockWords;
use handout::series_give_out;
use heads::store::Heads;
use planting::tree::Tree;
use ties::{Head, gain_in};

// How many ticks the next run has: as many as are left, at most the width of the head. None where no tick is left or there is no head.
#[tactic(auto, unfolding(crate::specs::Ticks::run_of))]
pub fn next_run(ticks: u32, head: Head) -> Option<u32>
    ensures { MatchOption result (run_of ticks (head_of head).gain (head_of head).width ≡ 0) (λ run. (0 < run) × (run ≡ run_of ticks (head_of head).gain (head_of head).width)) }
{
    if gain_in(head.key) == 0 {
        return None;
    }
    let run = u64::from(ticks).min(head.width) as u32;
    if run == 0 { None } else { Some(run) }
}

// Hands out `ticks` ticks at node i, run by run, as far as its gates go.
pub fn ticks_out(
    i: usize,
    ticks: u32,
    block: &BlockWords,
    tree: &Tree,
    increases: &mut [u32],
    heads: &mut Heads,
)
    requires ready { Ready (plan block.now tree.now) (state increases.old heads.old) i }
    requires steps_held { StepsHeld block.now }
    requires i_bound { i < parent (tree_parents tree.now) i }
    ensures { TickedOut (plan block.now tree.now) (state increases.old heads.old) (state increases.new heads.new) i ticks }
{
    let mut left = ticks;
    while let Some(run) = next_run(left, heads.node(i)) {
        series_give_out(i, run, block, tree, increases, heads);
        left -= run;
    }
}
