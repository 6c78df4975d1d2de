// The steps and input activities of a block's gates, in one array of words. Public for `heads` and `spending` alone.
#![tactic(auto)]

pub mod gathering;

ghost use Rattle.std.specs.Prelude.{◌≡◌, ◌+◌, ◌≤◌, ◌<◌, get_or};
ghost use Rattle.model.specs.Limits.{max_gates, max_steps};
ghost use Rattle.model.specs.Arrays.{step_place};
ghost use Rattle.blockwords.specs.BlockWords.{drops_from, gates_held, counts_of, widths_of, drops_of, inputs_of};

use model::limits::{MAX_GATES, MAX_PAIRS, MAX_STEPS};

// Where the parts of a block begin: the number of gates; for each gate the number of its steps; the widths and the drops of steps; the input activities of gates.
pub const GATE_COUNT: usize = 0;

pub const STEP_COUNTS: usize = 1;

pub const STEP_WIDTHS: usize = STEP_COUNTS + MAX_GATES;

pub const STEP_DROPS: usize = STEP_WIDTHS + MAX_PAIRS;

pub const INPUTS: usize = STEP_DROPS + MAX_PAIRS;

pub const BLOCK_WORDS: usize = INPUTS + MAX_GATES;

// A block.
pub type BlockWords = [u32; BLOCK_WORDS];

// The number of gates.
pub fn gate_count(block: &BlockWords) -> u32
    ensures { result ≡ gates_held block.now }
{
    block[GATE_COUNT]
}

// The number of steps of gate g.
pub fn step_count(block: &BlockWords, g: u32) -> u32
    requires { g < max_gates }
    ensures { result ≡ get_or (counts_of block.now) g 0 }
{
    block[(g as usize) + STEP_COUNTS]
}

// The number of step j of gate g among those that begin at word `from`.
fn step_number(block: &BlockWords, from: usize, g: u32, j: u32) -> u32
    requires g_lt_max_gates { (g < max_gates) × (j < max_steps) }
    requires from_le_drops_from { from ≤ drops_from }
    ensures { result ≡ get_or block.now (step_place g j + from) 0 }
{
    block[(g as usize) * MAX_STEPS + (j as usize) + from]
}

// The width of step j of gate g.
pub fn step_width(block: &BlockWords, g: u32, j: u32) -> u32
    requires { (g < max_gates) × (j < max_steps) }
    ensures { result ≡ get_or (widths_of block.now) (step_place g j) 0 }
{
    step_number(block, STEP_WIDTHS, g, j)
}

// The drop of step j of gate g.
pub fn step_drop(block: &BlockWords, g: u32, j: u32) -> u32
    requires { (g < max_gates) × (j < max_steps) }
    ensures { result ≡ get_or (drops_of block.now) (step_place g j) 0 }
{
    step_number(block, STEP_DROPS, g, j)
}

// The input activity of gate g.
pub fn input_of(block: &BlockWords, g: u32) -> u32
    requires { g < max_gates }
    ensures { result ≡ get_or (inputs_of block.now) g 0 }
{
    block[(g as usize) + INPUTS]
}
