// The fewest ticks for a wanted saving, from the outcome of the curve. For `resizing` alone.
#![tactic(auto)]

ghost use Rattle.std.specs.Prelude.{List, ℕ};
ghost use Rattle.model.specs.Answer.{AnswersTicks, ticks_answer};
ghost use Rattle.reaching.specs.CurveKnown.{CurveKnown};

use model::{CurveFound, Refusal};
use saving_curve::position::Curve;
use saving_curve::reach::ticks_for;

// The answer of the fewest ticks by that of the curve, whose pairs stand in front of the two slices: a refusal is passed on.
pub fn ticks_on_curve(
    found: Result<CurveFound, Refusal>,
    widths: &[u32],
    gains: &[u64],
    wanted: u64,
) -> Result<u32, Refusal>
    requires { (file : List ℕ) × CurveKnown file found widths.now gains.now }
    ensures { (file : List ℕ) → CurveKnown file found widths.now gains.now → AnswersTicks file wanted (record { answer = ticks_answer result; memory = tt }) }
{
    let head = found?;
    let at_start = head.at_start;
    let curve = Curve {
        widths,
        gains,
        pairs: head.pairs,
    };
    match ticks_for(curve, at_start, wanted) {
        Some(ticks) => Ok(ticks as u32),
        None => Err(Refusal::Unreached),
    }
}
