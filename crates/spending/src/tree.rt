// The curve and the best increases of a block whose tree is planted.
ghost use Rattle.std.specs.Prelude.{◌≡◌, ◌≤◌, length, sum};
ghost use Rattle.model.specs.Limits.{max_gates, max_pairs, max_time};
ghost use Rattle.model.specs.Block.{Block};
ghost use Rattle.spending.specs.TreeHeld.{arrays_lent, TreeHeld, RunsFound, CurveFound, IncreasesFound};

use blockwords::BLOCK_WORDS;
use blockwords::gathering::gather;
use gains::saving::list_saving;
use heads::store::Heads;
use model::limits::{GateNumbers, MAX_PAIRS, StepNumbers};
use planting::MAX_NODES;
use planting::tree::Tree;
use saving_curve::count::count_off;
use saving_curve::position::Curve;
use sizing::curve::spend_ticks;
use sizing::start::start;

// What is found of a curve, besides its pairs: the saving at start, and how many pairs there are.
#[derive(Clone, Copy)]
pub struct TreeCurve {
    pub saving: u64,
    pub pairs: usize,
}

// The tree of a block, planted, with the numbers of steps of its gates, the widths and drops of the steps, and the gates' input activities and delays.
#[derive(Clone, Copy)]
pub struct PlantedSteps<'a> {
    pub tree: &'a Tree,
    pub counts: &'a GateNumbers,
    pub step_widths: &'a StepNumbers,
    pub drops: &'a StepNumbers,
    pub inputs: &'a GateNumbers,
    pub delays: &'a [u32],
}

// More ticks than all steps of a block have.
const ALL_TICKS: u32 = u32::MAX;

// How many steps gates with these counts have together.
fn step_count(counts: &[u32]) -> usize
    requires { length counts.now ≤ max_gates }
    ensures { result ≡ sum counts.now }
{
    counts.iter().map(|count| *count as usize).sum()
}

// The increases after `ticks` ticks from the raised start, at most a run a step, and the pairs of the curve of the runs to the front of the two slices. Answers the saving at start and the number of pairs.
fn tree_runs(
    ticks: u32,
    n: u32,
    steps: PlantedSteps,
    increases: &mut [u32],
    pair_widths: &mut [u32],
    pair_gains: &mut [u64],
) -> TreeCurve
    requires tree_held { (B : Block) × TreeHeld B n (arrays_lent steps) }
    requires increases_len { length increases.old ≡ n }
    requires max_pairs_in_bounds { (max_pairs ≤ length pair_widths.old) × (max_pairs ≤ length pair_gains.old) }
    ensures { (B : Block) (held : TreeHeld B n (arrays_lent steps.entry)) → RunsFound B held.fits n (arrays_lent steps.entry) ticks increases.new pair_widths.old pair_gains.old pair_widths.new pair_gains.new result }
{
    let PlantedSteps {
        tree,
        counts,
        step_widths,
        drops,
        inputs,
        delays,
    } = steps;
    let mut block = [0u32; BLOCK_WORDS];
    gather(n, counts, step_widths, drops, inputs, &mut block);
    let mut lengths = [0u32; MAX_NODES];
    let mut heads = Heads::EMPTY;
    start(&block, tree, delays, &mut lengths, increases, &mut heads);
    let saving = list_saving(n as usize, counts, step_widths, drops, inputs, increases);
    let runs = step_count(&counts[..n as usize]);
    let pairs = spend_ticks(
        tree.count - 1,
        ticks,
        runs,
        &block,
        tree,
        increases,
        &mut heads,
        pair_widths,
        pair_gains,
    );
    TreeCurve { saving, pairs }
}

// The curve of the block: its pairs to the front of the two slices. The increases are scratch.
pub fn tree_curve(
    n: u32,
    steps: PlantedSteps,
    increases: &mut [u32],
    pair_widths: &mut [u32],
    pair_gains: &mut [u64],
) -> TreeCurve
    requires tree_held { (B : Block) × TreeHeld B n (arrays_lent steps) }
    requires increases_len { length increases.old ≡ n }
    requires max_pairs_in_bounds { (max_pairs ≤ length pair_widths.old) × (max_pairs ≤ length pair_gains.old) }
    ensures { (B : Block) (held : TreeHeld B n (arrays_lent steps.entry)) → CurveFound B held.fits pair_widths.old pair_gains.old pair_widths.new pair_gains.new result }
{
    tree_runs(ALL_TICKS, n, steps, increases, pair_widths, pair_gains)
}

// The best increases after `ticks` ticks from the raised start. Answers what they save: the saving at start, and what the ticks earn, counted off the pairs of their runs.
pub fn tree_increases(ticks: u32, n: u32, steps: PlantedSteps, increases: &mut [u32]) -> u64
    requires tree_held { (B : Block) × TreeHeld B n (arrays_lent steps) }
    requires increases_len { (length increases.old ≡ n) × (ticks ≤ max_time) }
    ensures { (B : Block) (held : TreeHeld B n (arrays_lent steps.entry)) → IncreasesFound B held.fits ticks increases.new result }
{
    let mut pair_widths = [0u32; MAX_PAIRS];
    let mut pair_gains = [0u64; MAX_PAIRS];
    let found = tree_runs(
        ticks,
        n,
        steps,
        increases,
        &mut pair_widths,
        &mut pair_gains,
    );
    let curve = Curve {
        widths: &pair_widths,
        gains: &pair_gains,
        pairs: found.pairs,
    };
    found.saving + count_off(curve, ticks)
}
