// Room for the slacks, then the slacks.
ghost use Rattle.std.specs.Prelude.{List, ℕ};
ghost use Rattle.model.specs.Answer.{AnswersSlacks, slacks_answer};
ghost use Rattle.loading.specs.HeldBlock.{HoldsTimes};

use loading::block::HeldBlock;
use model::Refusal;
use timing::slack::write_slacks;

// The slack of each gate of a well-formed file's block, whatever its activities and steps, to the front of `out`; or refusal 10. Answers how many there are.
pub fn slacks_with_room(block: &HeldBlock, out: &mut [i32]) -> Result<usize, Refusal>
    requires { (file : List ℕ) × HoldsTimes file block.now }
    ensures { (file : List ℕ) → HoldsTimes file block.now → AnswersSlacks file out.old (record { answer = slacks_answer result; memory = out.new }) }
{
    let n = block.gates;
    if out.len() < n {
        return Err(Refusal::Room { needed: n });
    }
    write_slacks(
        n,
        &block.order,
        block.wires(),
        &block.delays,
        block.arrival,
        block.deadline,
        out,
    );
    Ok(n)
}
