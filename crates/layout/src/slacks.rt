// The slacks of a block file's gates, for C.
ghost use Rattle.std.specs.Prelude.{◌≡◌, [], ◌∷◌};
ghost use Rattle.model.specs.Answer.{AnswersSlacks};
ghost use Rattle.model.specs.Layout.{told};

use laying::answer::{LayoutAnswer, refused};

// The slack of each gate to the front of `slacks`, with as place how many were written; or the first refusal of 1 to 10 that fits. The saving is 0.
#[unsafe(no_mangle)]
pub extern "C" fn honduvi_slacks(file: &[u8], slacks: &mut [i32]) -> LayoutAnswer
    ensures answers_slacks { AnswersSlacks file.now slacks.old (record { answer = told result.number result.place (result.place ∷ []); memory = slacks.new }) }
    ensures saving_value { result.saving ≡ 0 }
{
    let answer = resizing::slacks::slacks(file, slacks);
    match answer {
        Err(refusal) => refused(refusal),
        Ok(gates) => {
            let written = gates as u32;
            LayoutAnswer {
                number: 0,
                place: written,
                saving: 0,
            }
        }
    }
}
