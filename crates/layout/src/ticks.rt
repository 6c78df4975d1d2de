// The fewest spare ticks for a wanted saving, for C.
ghost use Rattle.std.specs.Prelude.{[], ◌∷◌};
ghost use Rattle.model.specs.Answer.{AnswersTicks};
ghost use Rattle.model.specs.Layout.{told, UnsaidZero};

use laying::answer::refused;
use resizing::ticks::fewest_ticks;

// Number 0: accepted, with the ticks; the place is 0. Any other number: refused there, and the ticks are 0.
#[repr(C)]
#[derive(Clone, Copy)]
pub struct LayoutTicks {
    pub number: u32,
    pub place: u32,
    pub ticks: u64,
}

// The fewest spare ticks, in place of the file's own, with which some list saves at least `wanted`; or the first refusal of 1 to 9, 11 and 17 that fits.
#[unsafe(no_mangle)]
pub extern "C" fn honduvi_fewest_ticks(file: &[u8], wanted: u64) -> LayoutTicks
    ensures answers_ticks { AnswersTicks file.now wanted (record { answer = told result.number result.place (result.ticks ∷ []); memory = tt }) }
    ensures unsaid_zero { UnsaidZero result.number result.place (result.ticks ∷ []) }
{
    let answer = fewest_ticks(file, wanted);
    match answer {
        Err(refusal) => {
            let numbers = refused(refusal);
            LayoutTicks {
                number: numbers.number,
                place: numbers.place,
                ticks: 0,
            }
        }
        Ok(ticks) => LayoutTicks {
            number: 0,
            place: 0,
            ticks: ticks as u64,
        },
    }
}
