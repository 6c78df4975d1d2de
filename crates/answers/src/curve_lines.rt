// The curve of a well-formed file's block: refusal 11, or what is found.
ghost use Rattle.std.specs.Prelude.{List, ℕ, ◌≤◌, length};
ghost use Rattle.model.specs.Limits.{max_pairs};
ghost use Rattle.model.specs.Answer.{CurveLines, CurveBounds, curve_answer};
ghost use Rattle.loading.specs.HeldBlock.{HoldsAt, block_at};

use holding::{input_activities_of, start_of};
use loading::block::HeldBlock;
use model::limits::MAX_GATES;
use model::{CurveFound, Refusal};
use planting::tree::Tree;
use shaping::plant::plant_block;
use spending::tree::{PlantedSteps, tree_curve};

// The curve of the block, whatever its arrival and deadline: its pairs to the front of the two slices.
// Public for the crates above only: they have shown that the block, with some arrival and deadline, is a well-formed file's.
pub fn curve_held(
    block: &HeldBlock,
    widths: &mut [u32],
    gains: &mut [u64],
) -> Result<CurveFound, Refusal>
    requires held { (file : List ℕ) × (arrival : ℕ) × (deadline : ℕ) × HoldsAt file arrival deadline block.now }
    requires room { (max_pairs ≤ length widths.old) × (max_pairs ≤ length gains.old) }
    ensures lines { (file : List ℕ) (arrival deadline : ℕ) → HoldsAt file arrival deadline block.now → CurveLines (block_at arrival deadline block.now) (record { for_widths = widths.old; for_gains = gains.old }) (record { answer = curve_answer result; memory = record { for_widths = widths.new; for_gains = gains.new } }) }
    ensures curve_bounds { CurveBounds result gains.new }
{
    let n = block.gates;
    let mut tree = Tree::EMPTY;
    plant_block(n, block.wires(), &mut tree)?;
    let start = start_of(block);
    let inputs = input_activities_of(block);
    let mut increases = [0u32; MAX_GATES];
    let steps = PlantedSteps {
        tree: &tree,
        counts: &block.counts,
        step_widths: &block.step_widths,
        drops: &block.drops,
        inputs: &inputs,
        delays: &block.delays[..n],
    };
    let curve = tree_curve(n as u32, steps, &mut increases[..n], widths, gains);
    Ok(CurveFound {
        start,
        at_start: curve.saving,
        pairs: curve.pairs,
    })
}
