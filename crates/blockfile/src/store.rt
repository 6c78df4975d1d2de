// Storing what a gate's body says, in arrays: gate g at place g, step j of gate g at place 8 g + j.
ghost use Rattle.std.specs.Prelude.{◌≡◌, true, ℕ, ◌*◌, ◌<◌, ◌≤◌, ◌%◌, length};
ghost use Rattle.model.specs.Limits.{max_gates, max_steps};
ghost use Rattle.model.specs.File as File;
ghost use Rattle.blockfile.specs.Held.{GateRoom, StepsStored, GateStored, gate_arrays};

use fields::field::number_at;
use model::limits::MAX_STEPS;
use ranges::limits::{GATE_BYTES, STEP_BYTES, drop_of, width_of};

// Stores the steps of a gate, and answers how many they are.
pub fn store_steps(steps: &[u8], gate: usize, step_widths: &mut [u32], drops: &mut [u32]) -> u32
    requires steps_len { (length steps.now % 4 ≡ 0) × (length steps.now ≤ 4 * max_steps) }
    requires gate_lt_max_gates { gate < max_gates }
    requires max_steps_in_bounds { (max_gates * max_steps ≤ length step_widths.old) × (max_gates * max_steps ≤ length drops.old) }
    ensures { StepsStored steps.now gate result step_widths.old drops.old step_widths.new drops.new }
{
    let (steps, _) = steps.as_chunks::<STEP_BYTES>();
    let first = gate * MAX_STEPS;
    for (j, step) in steps.iter().enumerate() {
        step_widths[first + j] = width_of(step);
        drops[first + j] = drop_of(step);
    }
    steps.len() as u32
}

// Stores a gate's body, with its net's activity.
pub fn store_gate(
    body: &[u8],
    activity: u32,
    gate: usize,
    delays: &mut [u32],
    activities: &mut [u32],
    counts: &mut [u32],
    step_widths: &mut [u32],
    drops: &mut [u32],
)
    requires body_len { (edition : ℕ) × (File.length_fits (File.gate edition) (length body.now) ≡ true) }
    requires gate_lt_max_gates { gate < max_gates }
    requires gate_room { GateRoom (gate_arrays delays.old activities.old counts.old step_widths.old drops.old) }
    ensures { GateStored body.now activity gate (gate_arrays delays.old activities.old counts.old step_widths.old drops.old) (gate_arrays delays.new activities.new counts.new step_widths.new drops.new) }
{
    delays[gate] = number_at(body, 0);
    activities[gate] = activity;
    counts[gate] = store_steps(&body[GATE_BYTES..], gate, step_widths, drops);
}
