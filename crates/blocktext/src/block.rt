// The printout of a held block, with increases.
ghost use Rattle.std.specs.Prelude.{List, ℕ, ◌≤◌, length, take};
ghost use Rattle.model.specs.Printout.{block_lines};
ghost use Rattle.loading.specs.HeldBlock.{Holds, block_in};
ghost use Rattle.text.specs.Written.{Written};
ghost use Rattle.blocktext.specs.Shown.{Sized, printout_room};

use holding::start_of;
use loading::block::HeldBlock;
use model::limits::MAX_GATES;
use text::lines::{Head, write_block};
use timing::slack::write_slacks;

// Writes the printout of a block in time, with these increases and what they save, to the front of `out` and answers its length.
pub fn print_block(block: &HeldBlock, saving: u64, increases: &[u32], out: &mut [u8]) -> usize
    requires held { (file : List ℕ) × Holds file block.now }
    requires sized { Sized (block_in block.now) block.now.gates saving increases.now }
    requires room { printout_room ≤ length out.old }
    ensures { Written (block_lines (block_in block.now) (take block.now.gates increases.now)) 0 out.old out.new result }
{
    let start = start_of(block);
    let spare = block.deadline - (block.arrival + start);
    let mut slacks = [0i32; MAX_GATES];
    write_slacks(
        block.gates,
        &block.order,
        block.wires(),
        &block.delays,
        block.arrival,
        block.deadline,
        &mut slacks,
    );
    let head = Head {
        gates: block.gates,
        wires: block.wires,
        start,
        spare,
        saving,
    };
    write_block(head, &block.delays, increases, &slacks, out)
}
