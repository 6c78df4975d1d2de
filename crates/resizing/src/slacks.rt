// The slacks of a block file's gates.
ghost use Rattle.model.specs.Answer.{AnswersSlacks, slacks_answer};

use loading::block::HeldBlock;
use model::Refusal;
use rooms::slacks::slacks_with_room;

// The slack of each gate to the front of `out`, and how many there are; or the first refusal of 1 to 10 that fits.
pub fn slacks(file: &[u8], out: &mut [i32]) -> Result<usize, Refusal>
    ensures { AnswersSlacks file.now out.old (record { answer = slacks_answer result; memory = out.new }) }
{
    let mut block = HeldBlock::EMPTY;
    block.load(file)?;
    slacks_with_room(&block, out)
}
