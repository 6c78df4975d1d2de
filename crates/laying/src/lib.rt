// The answer of the layout editor's call for a held block: refusals 10 to 12, or the best increases as bytes. Public for `layout` alone.
#![tactic(auto)]

pub mod answer;

ghost use Rattle.std.specs.Prelude.{List, ℕ};
ghost use Rattle.model.specs.Layout.{AnswersLayout, NoSavingRefused};
ghost use Rattle.loading.specs.HeldBlock.{Holds};
ghost use Rattle.laying.specs.Answered.{leaves};

use answer::{LayoutAnswer, refused};
use answers::best_lines::best_held;
use bigendian::write_increases;
use loading::block::HeldBlock;
use model::Refusal;
use model::limits::MAX_GATES;

// The best increases of a well-formed file's block, to the front of the bytes: refusals 10 to 12, or the saving.
pub fn lay_best(block: &HeldBlock, increases: &mut [u8]) -> LayoutAnswer
    requires { (file : List ℕ) × Holds file block.now }
    ensures layout { (file : List ℕ) → Holds file block.now → AnswersLayout file increases.old (leaves result increases.new) }
    ensures no_saving_refused { NoSavingRefused result.number result.saving }
{
    let n = block.gates;
    let needed = 4 * n;
    if increases.len() < needed {
        return refused(Refusal::Room { needed });
    }
    let mut list = [0u32; MAX_GATES];
    let best = best_held(block, &mut list);
    match best {
        Err(refusal) => refused(refusal),
        Ok(found) => {
            write_increases(n, &list, increases);
            LayoutAnswer {
                number: 0,
                place: n as u32,
                saving: found.saving,
            }
        }
    }
}
