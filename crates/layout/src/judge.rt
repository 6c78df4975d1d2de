// The verdict on a proposed list of increases, for C.
ghost use Rattle.std.specs.Prelude.{[], ◌∷◌};
ghost use Rattle.model.specs.Answer.{AnswersJudge};
ghost use Rattle.model.specs.Layout.{told, UnsaidZero};

use laying::answer::{LayoutAnswer, refused};
use resizing::judge::judge;

// The saving of the first increases of a list, one for each gate, with place 0; or the first refusal of 1 to 10, 13 and 14 that fits.
#[unsafe(no_mangle)]
pub extern "C" fn honduvi_judge(file: &[u8], increases: &[u32]) -> LayoutAnswer
    ensures answers_judge { AnswersJudge file.now increases.now (record { answer = told result.number result.place (result.saving ∷ []); memory = increases.now }) }
    ensures unsaid_zero { UnsaidZero result.number result.place (result.saving ∷ []) }
{
    let answer = judge(file, increases);
    match answer {
        Err(refusal) => refused(refusal),
        Ok(saving) => LayoutAnswer {
            number: 0,
            place: 0,
            saving,
        },
    }
}
