// The best increases of a well-formed file's block: refusals 11 and 12, or what is found.
ghost use Rattle.std.specs.Prelude.{List, ℕ, ◌≤◌, length};
ghost use Rattle.model.specs.Answer.{BestLines, best_answer};
ghost use Rattle.loading.specs.HeldBlock.{Holds, block_in};

use holding::{input_activities_of, start_of};
use loading::block::HeldBlock;
use model::{BestFound, Refusal};
use planting::tree::Tree;
use shaping::plant::plant_block;
use spending::tree::{PlantedSteps, tree_increases};

// The best increases of the block, to the front of the slice.
// Public for the crates above only: they have shown that the block is a well-formed file's.
pub fn best_held(block: &HeldBlock, increases: &mut [u32]) -> Result<BestFound, Refusal>
    requires held { (file : List ℕ) × Holds file block.now }
    requires room { block.now.gates ≤ length increases.old }
    ensures { (file : List ℕ) → Holds file block.now → BestLines (block_in block.now) increases.old (record { answer = best_answer result; memory = increases.new }) }
{
    let n = block.gates;
    let mut tree = Tree::EMPTY;
    plant_block(n, block.wires(), &mut tree)?;
    let start = start_of(block);
    let arrival = block.arrival;
    let deadline = block.deadline;
    if deadline < arrival + start {
        return Err(Refusal::Late);
    }
    let inputs = input_activities_of(block);
    let steps = PlantedSteps {
        tree: &tree,
        counts: &block.counts,
        step_widths: &block.step_widths,
        drops: &block.drops,
        inputs: &inputs,
        delays: &block.delays[..n],
    };
    let saving = tree_increases(
        deadline - (arrival + start),
        n as u32,
        steps,
        &mut increases[..n],
    );
    Ok(BestFound { saving, gates: n })
}
