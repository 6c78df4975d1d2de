// Writes the digits of stored numbers, and prints what `digit_count` and `write_digits` answer and leave.
// Standard input: cases of 12 bytes, each a number (8 bytes), the place to write at (2) and how many bytes are lent (2), high byte first.
// Standard output: a line for each case: how many digits there are, the place behind the digits or, where they do not fit, the place to write at, and the bytes, of which the lent ones stand in front; all are dots before.
#![tactic(auto)]

use decimal::{digit_count, write_digits};
use reading::read_full;
use std::io;

// Bytes of the input, at most.
const INPUT_BYTES: usize = 8192;

// Bytes of a case.
const CASE_BYTES: usize = 12;

// Bytes that are printed for each case, of which as many are lent as the case says.
const TEXT_BYTES: usize = 32;

// One case.
fn run_case(rt: &impl Print, case: &[u8; CASE_BYTES]) -> io::Result<()> {
    let [a, b, c, d, e, f, g, h, at_high, at_low, lent_high, lent_low] = *case;
    let n = u64::from_be_bytes([a, b, c, d, e, f, g, h]);
    let at = usize::from(u16::from_be_bytes([at_high, at_low]));
    let lent = usize::from(u16::from_be_bytes([lent_high, lent_low]));
    let mut text = [b'.'; TEXT_BYTES];
    let Some(part) = text.get_mut(..lent) else {
        return Ok(());
    };
    let next = write_digits(n, part, at).unwrap_or(at);
    print!(rt; "{} {next} ", digit_count(n))?;
    rt.write_all(&text)?;
    rt.write_all(b"\n")
}

// All cases of an input.
fn run_all(rt: &impl Print, input: &[u8]) -> io::Result<()> {
    for case in input.as_chunks::<CASE_BYTES>().0 {
        run_case(rt, case)?;
    }
    Ok(())
}

fn main(rt: HostRuntime) -> io::Result<()> {
    let mut input = [0u8; INPUT_BYTES];
    let n = read_full(&mut rt.stdin(), &mut input)?;
    run_all(&rt, &input[..n])
}
