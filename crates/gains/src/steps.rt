// The steps of a gate: where they stand, the sum of their widths, and increases that exceed it.
ghost use Rattle.std.specs.Prelude.{◌≡◌, List, ℕ, ◌≤◌, ◌<◌, length, take};
ghost use Rattle.model.specs.Limits.{max_gates, max_steps};
ghost use Rattle.model.specs.Block.{Block};
ghost use Rattle.model.specs.Arrays.{step_place};
ghost use Rattle.gains.specs.Steps.{widths_in, WidthsLent, Held, LowestExceeding};

use model::limits::MAX_STEPS;

// The place of step j of gate g.
pub(crate) fn place_of(g: usize, j: usize) -> usize
    requires { (g < max_gates) × (j < max_steps) }
    ensures { result ≡ step_place g j }
{
    g * MAX_STEPS + j
}

// The sum of the widths of gate g.
fn widths_of(g: usize, counts: &[u32], step_widths: &[u32]) -> u32
    requires { WidthsLent counts.now step_widths.now g }
    ensures { result ≡ widths_in counts.now step_widths.now g }
{
    let first = place_of(g, 0);
    let end = first + counts[g] as usize;
    step_widths[first..end].iter().sum()
}

// The lowest of n gates whose increase exceeds its widths, if there is one.
pub fn lowest_exceeding(
    n: usize,
    counts: &[u32],
    step_widths: &[u32],
    increases: &[u32],
) -> Option<usize>
    requires { ((g : ℕ) → g < n → WidthsLent counts.now step_widths.now g) × (n ≤ length increases.now) }
    ensures { (B : Block) (drops : List ℕ) → Held B n counts.now step_widths.now drops → LowestExceeding B (take n increases.now) n result × LowestExceeding B increases.now n result }
{
    (0..n).find(|&g| widths_of(g, counts, step_widths) < increases[g])
}
