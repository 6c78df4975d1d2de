// The printout of a block file, written into a lent slice of bytes. Its promise settles the answer and every byte afterwards, for any file and any slice.
#![tactic(auto)]

mod held;

ghost use Rattle.printing.specs.PrintoutIn.{PrintoutIn};

use crate::held::print_held;
use blocktext::refusal::print_refusal;
use loading::block::HeldBlock;
use model::limits::MAX_GATES;
use text::lines::{GATE_ROOM, HEAD_ROOM};

// The bytes that are enough for the printout of any file.
pub const PRINTOUT_BYTES: usize = HEAD_ROOM + GATE_ROOM * MAX_GATES;

// Writes the printout of the file to the front of `out` and answers its length; where `out` has fewer than PRINTOUT_BYTES bytes, writes nothing and answers 0.
pub fn printout(file: &[u8], out: &mut [u8]) -> usize
    ensures { PrintoutIn file.now out.old out.new result }
{
    if out.len() < PRINTOUT_BYTES {
        return 0;
    }
    let mut block = HeldBlock::EMPTY;
    match block.load(file) {
        Err(refusal) => print_refusal(refusal, out),
        Ok(()) => print_held(&block, out),
    }
}
