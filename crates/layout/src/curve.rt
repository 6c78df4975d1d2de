// The saving curve of a block file, for C.
ghost use Rattle.std.specs.Prelude.{◌≡◌, [], ◌∷◌};
ghost use Rattle.model.specs.Answer.{AnswersCurve, PairBounds};
ghost use Rattle.model.specs.Layout.{told, UnsaidZero};

use laying::answer::refused;
use resizing::curve::curve;

// Number 0: accepted, with start, the saving at start and how many pairs were written; the place is 0. Any other number: refused there, and all else is 0.
#[repr(C)]
#[derive(Clone, Copy)]
pub struct LayoutCurve {
    pub number: u32,
    pub place: u32,
    pub start: u32,
    pub pairs: u32,
    pub at_start: u64,
}

// The curve's pairs to the front of `widths` and `gains`, or the first refusal of 1 to 11 that fits.
#[unsafe(no_mangle)]
pub extern "C" fn honduvi_curve(file: &[u8], widths: &mut [u32], gains: &mut [u64]) -> LayoutCurve
    ensures answers_curve { AnswersCurve file.now (record { for_widths = widths.old; for_gains = gains.old }) (record { answer = told result.number result.place (result.start ∷ result.at_start ∷ result.pairs ∷ []); memory = record { for_widths = widths.new; for_gains = gains.new } }) }
    ensures unsaid_zero { UnsaidZero result.number result.place (result.start ∷ result.at_start ∷ result.pairs ∷ []) }
    ensures pair_bounds { result.number ≡ 0 → PairBounds result.pairs gains.new }
{
    let answer = curve(file, widths, gains);
    match answer {
        Err(refusal) => {
            let numbers = refused(refusal);
            LayoutCurve {
                number: numbers.number,
                place: numbers.place,
                start: 0,
                pairs: 0,
                at_start: 0,
            }
        }
        Ok(found) => {
            let written = found.pairs as u32;
            LayoutCurve {
                number: 0,
                place: 0,
                start: found.start,
                pairs: written,
                at_start: found.at_start,
            }
        }
    }
}
