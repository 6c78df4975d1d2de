// The verdict on a list of increases for a block that is in arrays: refusals 10, 13 and 14, or the saving. For the call above.
#![tactic(auto)]

mod longest;

ghost use Rattle.std.specs.Prelude.{List, ℕ};
ghost use Rattle.model.specs.Answer.{AnswersJudge, judge_answer};
ghost use Rattle.loading.specs.HeldBlock.{Holds};

use crate::longest::longest_with;
use gains::saving::list_saving;
use gains::steps::lowest_exceeding;
use holding::input_activities_of;
use loading::block::HeldBlock;
use model::Refusal;

// The verdict on the first increases, one for each gate, for a well-formed file's block: refusals 10, 13 and 14, or the saving.
// Public for `resizing` alone: it has shown that the block is a well-formed file's.
pub fn judge_held(block: &HeldBlock, increases: &[u32]) -> Result<u64, Refusal>
    requires { (file : List ℕ) × Holds file block.now }
    ensures { (file : List ℕ) → Holds file block.now → AnswersJudge file increases.now (record { answer = judge_answer result; memory = increases.now }) }
{
    let n = block.gates;
    if increases.len() < n {
        return Err(Refusal::Room { needed: n });
    }
    if let Some(gate) = lowest_exceeding(n, &block.counts, &block.step_widths, increases) {
        return Err(Refusal::Widths { gate });
    }
    let longest = longest_with(block, increases);
    let arrival = block.arrival;
    if block.deadline < arrival + longest {
        return Err(Refusal::PathLate);
    }
    let inputs = input_activities_of(block);
    let saving = list_saving(
        n,
        &block.counts,
        &block.step_widths,
        &block.drops,
        &inputs,
        increases,
    );
    Ok(saving)
}
