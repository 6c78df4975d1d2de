// Room for the best increases, then what is found.
ghost use Rattle.std.specs.Prelude.{List, ℕ};
ghost use Rattle.model.specs.Answer.{AnswersBest, best_answer};
ghost use Rattle.loading.specs.HeldBlock.{Holds};

use answers::best_lines::best_held;
use loading::block::HeldBlock;
use model::{BestFound, Refusal};

// The best increases of a well-formed file's block, to the front of the slice: refusals 10 to 12, or the saving.
pub fn best_with_room(block: &HeldBlock, increases: &mut [u32]) -> Result<BestFound, Refusal>
    requires { (file : List ℕ) × Holds file block.now }
    ensures { (file : List ℕ) → Holds file block.now → AnswersBest file increases.old (record { answer = best_answer result; memory = increases.new }) }
{
    let n = block.gates;
    if increases.len() < n {
        return Err(Refusal::Room { needed: n });
    }
    best_held(block, increases)
}
