// Reads files with faults, and prints what `read_block` answers to each.
// Standard input: groups, each the length of a block file (2 bytes), the number of its cases (2), the file's bytes, and the cases of 8 bytes each: how many bytes are read (2), and two changes, each a place (2) and the byte to put there (1).
#![tactic(auto)]

use blockfile::read::{BlockHead, read_block};
use fields::field::number_at;
use model::Refusal;
use model::limits::{GATES_SQUARED, MAX_BYTES, MAX_GATES, MAX_PAIRS, MAX_WIRES};
use reading::read_full;
use std::io;

// Bytes of the input, at most.
const INPUT_BYTES: usize = 32768;

// Bytes of a case.
const CASE_BYTES: usize = 8;

// Prints a refusal of 1 to 7.
fn print_file_refusal(rt: &impl Print, refusal: Refusal) -> io::Result<()> {
    let (number, place) = match refusal {
        Refusal::Short { offset } => (1, offset),
        Refusal::Tag { offset } => (2, offset),
        Refusal::Length { offset } => (3, offset),
        Refusal::Range { offset } => (4, offset),
        Refusal::Drops { offset } => (5, offset),
        Refusal::Wire { offset } => (6, offset),
        Refusal::Excess { offset } => (7, offset),
        _ => (0, 0),
    };
    println!(rt; "refused {number} {place}")
}

// Reads a file and prints the answer, with the delay of the first wire where there is one.
fn run(rt: &impl Print, file: &[u8]) -> io::Result<()> {
    let mut delays = [0u32; MAX_GATES];
    let mut activities = [0u32; MAX_GATES];
    let mut counts = [0u32; MAX_GATES];
    let mut step_widths = [0u32; MAX_PAIRS];
    let mut drops = [0u32; MAX_PAIRS];
    let mut sources = [0u32; MAX_WIRES];
    let mut targets = [0u32; MAX_WIRES];
    let mut wire_delays = [0u32; MAX_WIRES];
    let mut seen = [0u8; GATES_SQUARED];
    let answer = read_block(
        file,
        &mut delays,
        &mut activities,
        &mut counts,
        &mut step_widths,
        &mut drops,
        &mut sources,
        &mut targets,
        &mut wire_delays,
        &mut seen,
    );
    match answer {
        Err(refusal) => print_file_refusal(rt, refusal),
        Ok(
            BlockHead {
                gates,
                wires,
                arrival,
                deadline,
                activity,
            },
        ) => {
            print!(rt; "read {gates} {wires} {arrival} {deadline} {activity}")?;
            if 0 < wires {
                print!(rt; " {}", wire_delays[0])?;
            }
            println!(rt)
        }
    }
}

// Copies bytes to the front of another slice, as far as it goes.
fn copy(bytes: &[u8], to: &mut [u8]) {
    let n = bytes.len().min(to.len());
    to[..n].copy_from_slice(&bytes[..n]);
}

// Puts a byte at a place, if there is one.
fn change(file: &mut [u8], place: usize, byte: u8) {
    if let Some(old) = file.get_mut(place) {
        *old = byte;
    }
}

// One case: the block, changed twice and cut.
fn run_case(rt: &impl Print, block: &[u8], case: &[u8; CASE_BYTES]) -> io::Result<()> {
    let mut file = [0u8; MAX_BYTES];
    copy(block, &mut file);
    change(&mut file, number_at(case, 2) as usize, case[4]);
    change(&mut file, number_at(case, 5) as usize, case[7]);
    let size = number_at(case, 0) as usize;
    if size <= MAX_BYTES {
        run(rt, &file[..size])?;
    }
    Ok(())
}

// All cases of a block.
fn run_cases(rt: &impl Print, block: &[u8], cases: &[u8]) -> io::Result<()> {
    let (cases, _) = cases.as_chunks::<CASE_BYTES>();
    for case in cases {
        run_case(rt, block, case)?;
    }
    Ok(())
}

// All groups of an input.
fn run_all(rt: &impl Print, input: &[u8]) -> io::Result<()> {
    let mut rest = input;
    while let Some((head, after)) = rest.split_at_checked(4) {
        let Some((block, after)) = after.split_at_checked(number_at(head, 0) as usize) else {
            return Ok(());
        };
        let Some((cases, next)) = after.split_at_checked(CASE_BYTES * number_at(head, 2) as usize)
        else {
            return Ok(());
        };
        run_cases(rt, block, cases)?;
        rest = next;
    }
    Ok(())
}

fn main(rt: HostRuntime) -> io::Result<()> {
    let mut input = [0u8; INPUT_BYTES];
    let n = read_full(&mut rt.stdin(), &mut input)?;
    run_all(&rt, &input[..n])
}
