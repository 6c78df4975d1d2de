// The words of a block filled from an array for each kind of numbers.
ghost use Rattle.std.specs.Prelude.{◌≡◌, ◌<◌, ◌≤◌, get_or, length};
ghost use Rattle.model.specs.Limits.{max_gates, max_steps};
ghost use Rattle.blockwords.specs.BlockWords.{block_words};
ghost use Rattle.blockwords.specs.Gathered.{Gatherable, Gathered, with_step, with_numbers, StepsWritten, GateWritten};

use crate::{BlockWords, GATE_COUNT, INPUTS, STEP_COUNTS, STEP_DROPS, STEP_WIDTHS};
use model::limits::{GateNumbers, MAX_STEPS, StepNumbers};

// Writes step j of gate g to its places.
fn gather_step(
    g: u32,
    j: u32,
    step_widths: &StepNumbers,
    drops: &StepNumbers,
    block: &mut BlockWords,
)
    requires { (g < max_gates) × (j < max_steps) }
    ensures { block.new ≡ with_step g j step_widths.now drops.now block.old }
{
    let place = (g as usize) * MAX_STEPS + (j as usize);
    block[place + STEP_WIDTHS] = step_widths[place];
    block[place + STEP_DROPS] = drops[place];
}

// Writes the `count` steps of gate g.
fn gather_steps(
    g: u32,
    count: u32,
    step_widths: &StepNumbers,
    drops: &StepNumbers,
    block: &mut BlockWords,
)
    requires { (g < max_gates) × (count ≤ max_steps) × (block_words ≤ length block.old) }
    ensures { StepsWritten g count step_widths.now drops.now block.old block.new }
{
    for j in 0..count {
        gather_step(g, j, step_widths, drops, block);
    }
}

// Writes the number of steps and the input activity of gate g to their places.
fn gather_numbers(g: u32, counts: &GateNumbers, inputs: &GateNumbers, block: &mut BlockWords)
    requires { g < max_gates }
    ensures { block.new ≡ with_numbers g counts.now inputs.now block.old }
{
    let i = g as usize;
    block[i + STEP_COUNTS] = counts[i];
    block[i + INPUTS] = inputs[i];
}

// Writes gate g.
fn gather_gate(
    g: u32,
    counts: &GateNumbers,
    step_widths: &StepNumbers,
    drops: &StepNumbers,
    inputs: &GateNumbers,
    block: &mut BlockWords,
)
    requires { (g < max_gates) × (get_or counts.now g 0 ≤ max_steps) × (block_words ≤ length block.old) }
    ensures { GateWritten g counts.now step_widths.now drops.now inputs.now block.old block.new }
{
    gather_numbers(g, counts, inputs, block);
    gather_steps(g, counts[g as usize], step_widths, drops, block);
}

// Writes the number n of gates, and each gate. What the words of other gates and steps hold is free.
// Public for `spending` alone.
pub fn gather(
    n: u32,
    counts: &GateNumbers,
    step_widths: &StepNumbers,
    drops: &StepNumbers,
    inputs: &GateNumbers,
    block: &mut BlockWords,
)
    requires { Gatherable n counts.now block.old }
    ensures { Gathered n counts.now step_widths.now drops.now inputs.now block.new }
{
    block[GATE_COUNT] = n;
    for g in 0..n {
        gather_gate(g, counts, step_widths, drops, inputs, block);
    }
}
