// The head of a gate by its steps, and ticks for a gate.
ghost use Rattle.std.specs.Prelude.{◌≡◌, ℕ, ◌+◌, ◌^◌, ◌≤◌, ◌<◌, get_or, length};
ghost use Rattle.model.specs.Limits.{max_drop};
ghost use Rattle.ties.specs.Code.{ranks, head_of};
ghost use Rattle.blockwords.specs.BlockWords.{gates_held};
ghost use Rattle.heads.specs.Plan.{most_input, heads_of, step_head, StepsHeld};
ghost use Rattle.heads.specs.Stored.{GateRoom};
ghost use Rattle.heads.specs.GateHeads.{GateAdded, GatesUnslowed};

use crate::store::Heads;
use blockwords::{BlockWords, gate_count, input_of, step_count, step_drop, step_width};
use ties::{Head, keyed, none, rank};

// The head of a tick with this drop and input activity, `width` ticks before the end of its step.
fn tick_head(width: u32, drop: u32, input: u32, rank: u32) -> Head
    requires { (drop ≤ max_drop) × (input ≤ most_input) × (rank < ranks) }
    ensures { head_of result ≡ step_head rank input width drop }
{
    let gain = (drop as u64) * (input as u64);
    if gain == 0 {
        return none();
    }
    keyed(width as u64, gain, rank as u64)
}

// The head of gate g with the increase k.
pub fn gate_head(g: u32, k: u32, block: &BlockWords) -> Head
    requires { (g < gates_held block.now) × StepsHeld block.now }
    ensures { head_of result ≡ heads_of block.now g k }
{
    let mut left = k;
    for j in 0..step_count(block, g) {
        let width = step_width(block, g, j);
        if left < width {
            return tick_head(
                width - left,
                step_drop(block, g, j),
                input_of(block, g),
                rank(gate_count(block), g),
            );
        }
        left -= width;
    }
    none()
}

// Gives w ticks to gate g, and renews its head.
pub fn gate_give_out(g: u32, w: u32, block: &BlockWords, increases: &mut [u32], heads: &mut Heads)
    requires { (g < gates_held block.now) × StepsHeld block.now × (g < length increases.old) × (get_or increases.old g 0 + w < 2 ^ 32) × GateRoom heads.old g }
    ensures { GateAdded (heads_of block.now) increases.old increases.new heads.old heads.new g w }
{
    let at = g as usize;
    let more = increases[at] + w;
    increases[at] = more;
    heads.put_gate(at, gate_head(g, more, block));
}

// Puts the increases of the gates to 0, and stores the heads that the gates then have.
pub fn unslowed_heads(block: &BlockWords, increases: &mut [u32], heads: &mut Heads)
    requires steps_held { StepsHeld block.now }
    requires block_in_bounds { gates_held block.now ≤ length increases.old }
    requires heads_there { (g : ℕ) → g < gates_held block.now → GateRoom heads.old g }
    ensures { GatesUnslowed (heads_of block.now) (gates_held block.now) increases.new heads.old heads.new }
{
    for g in 0..gate_count(block) {
        let at = g as usize;
        increases[at] = 0;
        heads.put_gate(at, gate_head(g, 0, block));
    }
}
