// The printout of a well-formed file's block.
ghost use Rattle.std.specs.Prelude.{List, ℕ, ◌≤◌, length};
ghost use Rattle.loading.specs.HeldBlock.{Holds};
ghost use Rattle.blocktext.specs.Shown.{printout_room};
ghost use Rattle.printing.specs.PrintoutIn.{Printed};

use answers::best_lines::best_held;
use blocktext::block::print_block;
use blocktext::refusal::print_refusal;
use loading::block::HeldBlock;
use model::limits::MAX_GATES;

// Writes the printout of the file to the front of `out` and answers its length: its block with the best increases, or refusal 11 or 12.
pub fn print_held(block: &HeldBlock, out: &mut [u8]) -> usize
    requires held { (file : List ℕ) × Holds file block.now }
    requires room { printout_room ≤ length out.old }
    ensures { (file : List ℕ) → Holds file block.now → Printed file out.old out.new result }
{
    let mut increases = [0u32; MAX_GATES];
    let best = best_held(block, &mut increases);
    match best {
        Err(refusal) => print_refusal(refusal, out),
        Ok(found) => print_block(block, found.saving, &increases, out),
    }
}
