// Prints the best increases of the block file on standard input, of which the first MAX_BYTES bytes decide.
#![tactic(auto)]

use model::limits::MAX_BYTES;
use printing::{PRINTOUT_BYTES, printout};
use reading::read_full;
use std::io;

#[tactic(auto, using(printing::proofs::Outcome::answer_within))]
fn main(rt: HostRuntime) -> io::Result<()> {
    let mut file = [0u8; MAX_BYTES];
    let n = read_full(&mut rt.stdin(), &mut file)?;
    let mut text = [0u8; PRINTOUT_BYTES];
    let length = printout(&file[..n], &mut text);
    rt.write_all(&text[..length])
}
