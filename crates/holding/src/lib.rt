// What a well-formed file's block is to timing and gains, and its start and its input activities. For the crates above.
#![tactic(auto)]

ghost use Rattle.std.specs.Prelude.{◌≡◌, List, ℕ, ◌≤◌, length};
ghost use Rattle.model.specs.Limits.{max_gates};
ghost use Rattle.model.specs.InTime.{no_increase};
ghost use Rattle.model.specs.Slack as Slack;
ghost use Rattle.timing.specs.Times.{time_bound};
ghost use Rattle.gains.specs.Activities.{InputActivities};
ghost use Rattle.loading.specs.HeldBlock.{HoldsAt, block_at};

use gains::inputs::input_activities;
use loading::block::HeldBlock;
use model::limits::{GateNumbers, MAX_GATES};
use timing::start::start_time;

// The start of a block, whatever its arrival and deadline: how long its longest path lasts with no increase.
pub fn start_of(block: &HeldBlock) -> u32
    requires { (file : List ℕ) × (arrival : ℕ) × (deadline : ℕ) × HoldsAt file arrival deadline block.now }
    ensures start { (arrival deadline : ℕ) → result ≡ Slack.start (block_at arrival deadline block.now) }
    ensures small { result ≤ time_bound }
{
    start_time(block.gates, &block.order, block.wires(), &block.delays)
}

// The input activity of each gate of a block, whatever its arrival and deadline, in front; 0 behind.
pub fn input_activities_of(block: &HeldBlock) -> GateNumbers
    requires { (file : List ℕ) × (arrival : ℕ) × (deadline : ℕ) × HoldsAt file arrival deadline block.now }
    ensures long { length result ≡ max_gates }
    ensures activities { InputActivities block.now.gates block.now.wires block.now.sources block.now.targets block.now.activities 0 block.now.activity (no_increase max_gates) result }
{
    let mut inputs = [0; MAX_GATES];
    input_activities(
        block.gates,
        block.wires(),
        &block.activities,
        0,
        block.activity,
        &mut inputs,
    );
    inputs
}
