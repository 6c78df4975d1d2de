// The saving curve of a block file.
ghost use Rattle.model.specs.Answer.{AnswersCurve, CurveBounds, curve_answer};

use loading::block::HeldBlock;
use model::{CurveFound, Refusal};
use rooms::curve::curve_with_room;

// The curve's pairs to the front of `widths` and `gains`, with start and the saving at start; or the first refusal of 1 to 11 that fits.
pub fn curve(file: &[u8], widths: &mut [u32], gains: &mut [u64]) -> Result<CurveFound, Refusal>
    ensures answers_curve { AnswersCurve file.now (record { for_widths = widths.old; for_gains = gains.old }) (record { answer = curve_answer result; memory = record { for_widths = widths.new; for_gains = gains.new } }) }
    ensures curve_bounds { CurveBounds result gains.new }
{
    let mut block = HeldBlock::EMPTY;
    block.load(file)?;
    curve_with_room(&block, widths, gains)
}
