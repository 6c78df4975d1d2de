// Runs the slacks and the judging of stored block files, and prints what they answer.
// Standard input: records, each the length of a block file (2 bytes), four increases of 4 bytes each, and the file's bytes.
#![tactic(auto)]

use loading::numbers::numbers_of;
use model::Refusal;
use reading::read_full;
use resizing::judge::judge;
use resizing::slacks::slacks;
use std::io;

// Bytes of the input, at most.
const INPUT_BYTES: usize = 65536;

// What the elements for slacks hold before a call.
const MARK: i32 = 77777;

// Bytes of a record in front of the file.
const CASE_BYTES: usize = 18;

fn print_number(rt: &impl Print, n: u64) -> io::Result<()> {
    print!(rt; " {n}")
}

// A refusal's number and place.
fn print_refusal(rt: &impl Print, refusal: Refusal) -> io::Result<()> {
    let numbers = numbers_of(refusal);
    print!(rt; " refused {} {}", numbers.number, numbers.place)
}

// The elements of a slice, or that they are below 0.
fn print_slacks(rt: &impl Print, xs: &[i32]) -> io::Result<()> {
    for x in xs {
        if *x < 0 {
            print!(rt; " late")?;
        } else {
            print!(rt; " {x}")?;
        }
    }
    println!(rt)
}

fn print_slacks_answer(rt: &impl Print, answer: Result<usize, Refusal>) -> io::Result<()> {
    print!(rt; "slacks")?;
    match answer {
        Err(refusal) => print_refusal(rt, refusal)?,
        Ok(gates) => print_number(rt, gates as u64)?,
    }
    print!(rt; " :")
}

// The slacks, to the elements of a slice.
fn run_slacks(rt: &impl Print, file: &[u8], out: &mut [i32]) -> io::Result<()> {
    let answer = slacks(file, out);
    print_slacks_answer(rt, answer)?;
    print_slacks(rt, out)
}

fn print_judge_answer(rt: &impl Print, answer: Result<u64, Refusal>) -> io::Result<()> {
    print!(rt; "judge")?;
    match answer {
        Err(refusal) => print_refusal(rt, refusal)?,
        Ok(saving) => print_number(rt, saving)?,
    }
    println!(rt)
}

// The verdict on the four increases of a record, and on the first three alone.
fn run_judge(rt: &impl Print, file: &[u8], case: &[u8; CASE_BYTES]) -> io::Result<()> {
    let mut increases = [0u32; 4];
    for (increase, bytes) in increases.iter_mut().zip(case[2..].as_chunks::<4>().0) {
        *increase = u32::from_be_bytes(*bytes);
    }
    print_judge_answer(rt, judge(file, &increases))?;
    print_judge_answer(rt, judge(file, &increases[..3]))
}

// All records of an input.
fn run_all(rt: &impl Print, input: &[u8]) -> io::Result<()> {
    let mut rest = input;
    while let Some((case, after)) = rest.split_first_chunk::<CASE_BYTES>() {
        let size = usize::from(u16::from_be_bytes([case[0], case[1]]));
        let Some((file, next)) = after.split_at_checked(size) else {
            return Ok(());
        };
        run_slacks(rt, file, &mut [MARK; 6])?;
        run_slacks(rt, file, &mut [MARK; 3])?;
        run_judge(rt, file, case)?;
        rest = next;
    }
    Ok(())
}

fn main(rt: HostRuntime) -> io::Result<()> {
    let mut input = [0u8; INPUT_BYTES];
    let n = read_full(&mut rt.stdin(), &mut input)?;
    run_all(&rt, &input[..n])
}
