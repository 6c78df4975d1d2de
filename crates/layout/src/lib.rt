// The calls for C, which host/include/honduvi.h declares: here the layout editor's, the best increases of a block file as bytes; in a file each the others, thin over those of `resizing`.
#![tactic(auto)]

pub mod curve;
pub mod judge;
pub mod slacks;
pub mod ticks;

ghost use Rattle.model.specs.Layout.{layout_answer, AnswersLayout, NoSavingRefused};

use laying::answer::{LayoutAnswer, refused};
use laying::lay_best;
use loading::block::HeldBlock;

// The best increases of a block file, four bytes each, to the front of `increases`, or the first refusal of 1 to 12 that fits.
#[unsafe(no_mangle)]
pub extern "C" fn honduvi_best_increases(file: &[u8], increases: &mut [u8]) -> LayoutAnswer
    ensures answers_layout { AnswersLayout file.now increases.old (record { answer = layout_answer result.number result.place result.saving; memory = increases.new }) }
    ensures no_saving_refused { NoSavingRefused result.number result.saving }
{
    let mut block = HeldBlock::EMPTY;
    match block.load(file) {
        Err(refusal) => refused(refusal),
        Ok(()) => lay_best(&block, increases),
    }
}
