// What the increases of gates earn.
ghost use Rattle.std.specs.Prelude.{◌≡◌, ◌*◌, ◌≤◌};
ghost use Rattle.model.specs.Limits.{max_width, max_drop};
ghost use Rattle.gains.specs.Steps.{steps_in, StepsLent};
ghost use Rattle.gains.specs.Activities.{max_input};
ghost use Rattle.gains.specs.Savings.{most_of_step, GateSaving, Earnable, ListSaving};

use crate::steps::place_of;

// What so many ticks of a step with this drop earn at this input activity.
fn step_saving(ticks: u32, drop: u32, activity: u32) -> u64
    requires { (ticks ≤ max_width) × (drop ≤ max_drop) × (activity ≤ max_input) }
    ensures { (result ≡ ticks * (drop * activity)) × (result ≤ most_of_step) }
{
    u64::from(ticks) * (u64::from(drop) * u64::from(activity))
}

// What the first `increase` ticks of gate g earn at this input activity: step by step, and nothing beyond the widths.
fn gate_saving(
    g: usize,
    increase: u32,
    counts: &[u32],
    step_widths: &[u32],
    drops: &[u32],
    activity: u32,
) -> u64
    requires { StepsLent counts.now step_widths.now drops.now g × (activity ≤ max_input) }
    ensures { GateSaving (steps_in counts.now step_widths.now drops.now g) activity increase result }
{
    let count = counts[g] as usize;
    let mut left = increase;
    let mut saving: u64 = 0;
    for j in 0..count {
        let place = place_of(g, j);
        let ticks = left.min(step_widths[place]);
        saving += step_saving(ticks, drops[place], activity);
        left -= ticks;
    }
    saving
}

// The saving of the increases of n gates, whose input activities are `inputs`.
pub fn list_saving(
    n: usize,
    counts: &[u32],
    step_widths: &[u32],
    drops: &[u32],
    inputs: &[u32],
    increases: &[u32],
) -> u64
    requires { Earnable n counts.now step_widths.now drops.now inputs.now increases.now }
    ensures { ListSaving n counts.now step_widths.now drops.now inputs.now increases.now result }
{
    (0..n)
        .map(|g| gate_saving(g, increases[g], counts, step_widths, drops, inputs[g]))
        .sum()
}
