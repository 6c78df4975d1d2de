// The static library for C, which host/include/honduvi.h declares: the calls of `layout` under their own names, with their clauses.
#![tactic(auto)]

ghost use Rattle.std.specs.Prelude.{◌≡◌, [], ◌∷◌};
ghost use Rattle.model.specs.Answer.{AnswersCurve, AnswersJudge, AnswersSlacks, AnswersTicks, PairBounds};
ghost use Rattle.model.specs.Layout.{layout_answer, told, AnswersLayout, NoSavingRefused, UnsaidZero};

use laying::answer::LayoutAnswer;
use layout::curve::LayoutCurve;
use layout::ticks::LayoutTicks;

// The best increases of a block file, four bytes each, to the front of `increases`, or the first refusal of 1 to 12 that fits.
#[unsafe(no_mangle)]
pub extern "C" fn honduvi_best_increases(file: &[u8], increases: &mut [u8]) -> LayoutAnswer
    ensures answers_layout { AnswersLayout file.now increases.old (record { answer = layout_answer result.number result.place result.saving; memory = increases.new }) }
    ensures no_saving_refused { NoSavingRefused result.number result.saving }
{
    layout::honduvi_best_increases(file, increases)
}

// The slack of each gate to the front of `slacks`, with as place how many were written; or the first refusal of 1 to 10 that fits. The saving is 0.
#[unsafe(no_mangle)]
pub extern "C" fn honduvi_slacks(file: &[u8], slacks: &mut [i32]) -> LayoutAnswer
    ensures answers_slacks { AnswersSlacks file.now slacks.old (record { answer = told result.number result.place (result.place ∷ []); memory = slacks.new }) }
    ensures saving_value { result.saving ≡ 0 }
{
    layout::slacks::honduvi_slacks(file, slacks)
}

// The curve's pairs to the front of `widths` and `gains`, or the first refusal of 1 to 11 that fits.
#[unsafe(no_mangle)]
pub extern "C" fn honduvi_curve(file: &[u8], widths: &mut [u32], gains: &mut [u64]) -> LayoutCurve
    ensures answers_curve { AnswersCurve file.now (record { for_widths = widths.old; for_gains = gains.old }) (record { answer = told result.number result.place (result.start ∷ result.at_start ∷ result.pairs ∷ []); memory = record { for_widths = widths.new; for_gains = gains.new } }) }
    ensures unsaid_zero { UnsaidZero result.number result.place (result.start ∷ result.at_start ∷ result.pairs ∷ []) }
    ensures pair_bounds { result.number ≡ 0 → PairBounds result.pairs gains.new }
{
    layout::curve::honduvi_curve(file, widths, gains)
}

// The saving of the first increases of a list, one for each gate, with place 0; or the first refusal of 1 to 10, 13 and 14 that fits.
#[unsafe(no_mangle)]
pub extern "C" fn honduvi_judge(file: &[u8], increases: &[u32]) -> LayoutAnswer
    ensures answers_judge { AnswersJudge file.now increases.now (record { answer = told result.number result.place (result.saving ∷ []); memory = increases.now }) }
    ensures unsaid_zero { UnsaidZero result.number result.place (result.saving ∷ []) }
{
    layout::judge::honduvi_judge(file, increases)
}

// The fewest spare ticks, in place of the file's own, with which some list saves at least `wanted`; or the first refusal of 1 to 9, 11 and 17 that fits.
#[unsafe(no_mangle)]
pub extern "C" fn honduvi_fewest_ticks(file: &[u8], wanted: u64) -> LayoutTicks
    ensures answers_ticks { AnswersTicks file.now wanted (record { answer = told result.number result.place (result.ticks ∷ []); memory = tt }) }
    ensures unsaid_zero { UnsaidZero result.number result.place (result.ticks ∷ []) }
{
    layout::ticks::honduvi_fewest_ticks(file, wanted)
}
