// Room for the curve in both slices, then what is found.
ghost use Rattle.std.specs.Prelude.{List, ℕ};
ghost use Rattle.model.specs.Answer.{AnswersCurve, CurveBounds, curve_answer};
ghost use Rattle.loading.specs.HeldBlock.{HoldsAt};

use answers::curve_lines::curve_held;
use loading::block::HeldBlock;
use model::limits::MAX_PAIRS;
use model::{CurveFound, Refusal};

// The curve of a well-formed file's block, whatever its arrival and deadline: its pairs to the front of the two slices, or refusal 10 or 11.
pub fn curve_with_room(
    block: &HeldBlock,
    widths: &mut [u32],
    gains: &mut [u64],
) -> Result<CurveFound, Refusal>
    requires { (file : List ℕ) × (arrival : ℕ) × (deadline : ℕ) × HoldsAt file arrival deadline block.now }
    ensures curve { (file : List ℕ) (arrival deadline : ℕ) → HoldsAt file arrival deadline block.now → AnswersCurve file (record { for_widths = widths.old; for_gains = gains.old }) (record { answer = curve_answer result; memory = record { for_widths = widths.new; for_gains = gains.new } }) }
    ensures curve_bounds { CurveBounds result gains.new }
{
    if widths.len() < MAX_PAIRS {
        return Err(Refusal::Room { needed: MAX_PAIRS });
    }
    if gains.len() < MAX_PAIRS {
        return Err(Refusal::Room { needed: MAX_PAIRS });
    }
    curve_held(block, widths, gains)
}
