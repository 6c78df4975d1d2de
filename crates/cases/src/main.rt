// Runs the five calls on stored block files, and prints what they answer. host/CASES.md describes the input and the output.
// Numbers and refusals come first, each printed with a blank in front; then the calls that write to lent slices, whose arrays hold a mark in every element before a call; then the fewest ticks; then judging; then the records.
#![tactic(auto)]

ghost use Rattle.std.specs.Prelude.{◌+◌, ◌≤◌, length};
ghost use Rattle.model.specs.Limits.{max_bytes, max_gates, max_pairs};

use loading::numbers::numbers_of;
use model::Refusal;
use model::limits::{MAX_BYTES, MAX_GATES, MAX_PAIRS};
use reading::read_full;
use resizing::best::best_increases;
use resizing::curve::curve;
use resizing::judge::judge;
use resizing::slacks::slacks;
use resizing::ticks::fewest_ticks;
use std::fmt::Display;
use std::io;
use std::io::Read;

// A number, with a blank in front.
fn print_number(rt: &impl Print, n: impl Display + Copy) -> io::Result<()> {
    print!(rt; " {n}")
}

// A refusal on a line of its own call.
fn print_refused(rt: &impl Print, refusal: Refusal) -> io::Result<()> {
    let refused = numbers_of(refusal);
    print!(rt; " refused {} {}", refused.number, refused.place)
}

// A refusal among other answers.
fn print_refusal(rt: &impl Print, refusal: Refusal) -> io::Result<()> {
    let refused = numbers_of(refusal);
    print!(rt; " {}:{}", refused.number, refused.place)
}

const MARK: u32 = 2863311530;

const SLACK_MARK: i32 = -1431655766;

const GAIN_MARK: u64 = 12297829382473034410;

// Elements of the arrays for slacks and increases: some more than any block has gates.
const LENT: usize = MAX_GATES + 4;

// Elements of the arrays for widths and gains: some more than any curve has pairs.
const LENT_PAIRS: usize = MAX_PAIRS + 8;

// Wanted savings of a record, at most.
const SAVINGS: usize = 8;

// Bytes of a wanted saving.
const SAVING_BYTES: usize = 8;

const WANTED_BYTES: usize = SAVINGS * SAVING_BYTES;

// Bytes of a record's head.
const HEAD_BYTES: usize = 13;

// The head of a record: how long its block file is, how many elements are lent, a gate and an increase beyond its widths, and how many savings are wanted; no more of each than there is room for.
#[derive(Clone, Copy)]
struct Head {
    file_bytes: usize,
    lent: usize,
    lent_widths: usize,
    lent_gains: usize,
    gate: usize,
    beyond: u32,
    savings: usize,
    ghost has_room: { (file_bytes ≤ max_bytes) × (lent ≤ max_gates + 4) × (lent_widths ≤ max_pairs + 8) × (lent_gains ≤ max_pairs + 8) × (savings ≤ 8) },
}

impl From<[u8; HEAD_BYTES]> for Head {
    fn from(bytes: [u8; HEAD_BYTES]) -> Self {
        let pair = |at: usize| usize::from(u16::from_be_bytes([bytes[at], bytes[at + 1]]));
        Head {
            file_bytes: pair(0).min(MAX_BYTES),
            lent: usize::from(bytes[2]).min(LENT),
            lent_widths: pair(3).min(LENT_PAIRS),
            lent_gains: pair(5).min(LENT_PAIRS),
            gate: usize::from(bytes[7]),
            beyond: u32::from_be_bytes([bytes[8], bytes[9], bytes[10], bytes[11]]),
            savings: usize::from(bytes[12]).min(SAVINGS),
        }
    }
}

// Whether every element from a place on holds the mark.
fn marked_from<T: PartialEq>(xs: &[T], mark: &T, from: usize) -> bool {
    xs.iter().skip(from).all(|x| x == mark)
}

// The same for widths and gains.
fn pairs_marked_from(widths: &[u32], gains: &[u64], from: usize) -> bool {
    marked_from(widths, &MARK, from) && marked_from(gains, &GAIN_MARK, from)
}

fn print_kept(rt: &impl Print, kept: bool) -> io::Result<()> {
    let word = if kept { "kept" } else { "changed" };
    println!(rt; " {word}")
}

// The first n numbers, or all that there are.
fn print_first(rt: &impl Print, xs: &[impl Display], n: usize) -> io::Result<()> {
    for x in xs.iter().take(n) {
        print!(rt; " {x}")?;
    }
    Ok(())
}

// The first n pairs, or all that there are.
fn print_pairs(rt: &impl Print, widths: &[u32], gains: &[u64], n: usize) -> io::Result<()> {
    for (width, gain) in widths.iter().zip(gains).take(n) {
        print!(rt; " {width} {gain}")?;
    }
    Ok(())
}

// The slacks, with the front of an array of marks lent. Answers the number of gates, 0 for a refusal.
fn lend_slacks(rt: &impl Print, file: &[u8], lent: usize, out: &mut [i32]) -> io::Result<usize>
    requires { lent ≤ length out.old }
{
    let answer = slacks(file, &mut out[..lent]);
    print!(rt; "slacks")?;
    match answer {
        Err(refusal) => {
            print_refused(rt, refusal)?;
            print_kept(rt, marked_from(out, &SLACK_MARK, 0))?;
            Ok(0)
        }
        Ok(gates) => {
            print_first(rt, out, gates)?;
            print_kept(rt, marked_from(out, &SLACK_MARK, gates))?;
            Ok(gates)
        }
    }
}

// The slacks, with so many elements lent. Answers the number of gates, 0 for a refusal.
fn run_slacks(rt: &impl Print, file: &[u8], lent: usize) -> io::Result<usize>
    requires { lent ≤ max_gates + 4 }
{
    let mut out = [SLACK_MARK; LENT];
    lend_slacks(rt, file, lent, &mut out)
}

// The curve, with the fronts of two arrays of marks lent.
fn lend_curve(
    rt: &impl Print,
    file: &[u8],
    lent_widths: usize,
    lent_gains: usize,
    widths: &mut [u32],
    gains: &mut [u64],
) -> io::Result<()>
    requires { (lent_widths ≤ length widths.old) × (lent_gains ≤ length gains.old) }
{
    let answer = curve(file, &mut widths[..lent_widths], &mut gains[..lent_gains]);
    print!(rt; "curve")?;
    match answer {
        Err(refusal) => {
            print_refused(rt, refusal)?;
            print_kept(rt, pairs_marked_from(widths, gains, 0))
        }
        Ok(found) => {
            print_number(rt, found.start)?;
            print_number(rt, found.at_start)?;
            print_number(rt, found.pairs as u64)?;
            print_pairs(rt, widths, gains, found.pairs)?;
            print_kept(rt, pairs_marked_from(widths, gains, found.pairs))
        }
    }
}

// The curve, with so many elements lent for widths and for gains.
fn run_curve(rt: &impl Print, file: &[u8], lent_widths: usize, lent_gains: usize) -> io::Result<()>
    requires { (lent_widths ≤ max_pairs + 8) × (lent_gains ≤ max_pairs + 8) }
{
    let mut widths = [MARK; LENT_PAIRS];
    let mut gains = [GAIN_MARK; LENT_PAIRS];
    lend_curve(rt, file, lent_widths, lent_gains, &mut widths, &mut gains)
}

// The best increases, with the front of an array of marks lent. The array then holds zeros for a refusal.
fn lend_best(rt: &impl Print, file: &[u8], lent: usize, list: &mut [u32]) -> io::Result<()>
    requires { lent ≤ length list.old }
{
    let answer = best_increases(file, &mut list[..lent]);
    print!(rt; "best")?;
    match answer {
        Err(refusal) => {
            print_refused(rt, refusal)?;
            print_kept(rt, marked_from(list, &MARK, 0))?;
            list.fill(0);
            Ok(())
        }
        Ok(found) => {
            print_number(rt, found.saving)?;
            print_first(rt, list, found.gates)?;
            print_kept(rt, marked_from(list, &MARK, found.gates))
        }
    }
}

// The fewest ticks for one wanted saving.
fn print_fewest(rt: &impl Print, file: &[u8], wanted: u64) -> io::Result<()> {
    let answer = fewest_ticks(file, wanted);
    match answer {
        Err(refusal) => print_refusal(rt, refusal),
        Ok(ticks) => print_number(rt, ticks),
    }
}

// The fewest ticks for each wanted saving, of eight bytes, on one line.
fn print_ticks(rt: &impl Print, file: &[u8], wanted: &[u8]) -> io::Result<()> {
    print!(rt; "ticks")?;
    for saving in wanted.as_chunks::<SAVING_BYTES>().0 {
        print_fewest(rt, file, u64::from_be_bytes(*saving))?;
    }
    println!(rt)
}

// The verdict on a list, on a line of its own.
fn print_judgement(rt: &impl Print, file: &[u8], list: &[u32]) -> io::Result<()> {
    print!(rt; "judge")?;
    let answer = judge(file, list);
    match answer {
        Err(refusal) => print_refused(rt, refusal)?,
        Ok(saving) => print_number(rt, saving)?,
    }
    println!(rt)
}

// The verdict on the list with another increase at a gate. The list is as before afterwards.
fn print_with<F: Fn(u32) -> u32>(
    rt: &impl Print,
    file: &[u8],
    gate: usize,
    list: &mut [u32],
    another: F,
) -> io::Result<()>
    requires { F.IsAlwaysCallable another }
{
    let Some(increase) = list.get_mut(gate) else {
        return Ok(());
    };
    let held = *increase;
    *increase = another(held);
    let answer = judge(file, list);
    list[gate] = held;
    match answer {
        Err(refusal) => print_refusal(rt, refusal),
        Ok(saving) => print_number(rt, saving),
    }
}

// The verdicts on the list with one tick more at each gate.
fn print_more(rt: &impl Print, file: &[u8], gates: usize, list: &mut [u32]) -> io::Result<()> {
    print!(rt; "more")?;
    for g in 0..gates {
        print_with(rt, file, g, list, |increase| increase.wrapping_add(1))?;
    }
    println!(rt)
}

// The verdict on the list in hand; where the block has gates, also those on lists with one tick more at each gate, and with `beyond` and the largest number at one gate.
fn print_judgements(
    rt: &impl Print,
    file: &[u8],
    gates: usize,
    gate: usize,
    beyond: u32,
    list: &mut [u32],
) -> io::Result<()> {
    print_judgement(rt, file, list)?;
    if gates == 0 {
        return Ok(());
    }
    print_more(rt, file, gates, list)?;
    print!(rt; "beyond")?;
    print_with(rt, file, gate, list, |_| beyond)?;
    println!(rt)?;
    print!(rt; "largest")?;
    print_with(rt, file, gate, list, |_| u32::MAX)?;
    println!(rt)
}

// The best increases, to an array of marks; the fewest ticks; and the judging of the increases and of lists that differ from them at one gate.
fn run_list(
    rt: &impl Print,
    head: Head,
    wanted: &[u8],
    file: &[u8],
    gates: usize,
    list: &mut [u32],
) -> io::Result<()>
    requires { head.lent ≤ length list.old }
{
    lend_best(rt, file, head.lent, list)?;
    print_ticks(rt, file, wanted)?;
    print_judgements(
        rt,
        file,
        gates,
        head.gate,
        head.beyond,
        &mut list[..head.lent],
    )
}

// One record.
fn run_case(
    rt: &impl Print,
    number: u64,
    head: Head,
    wanted: &[u8],
    file: &[u8],
) -> io::Result<()> {
    println!(rt; "case {number}")?;
    let gates = run_slacks(rt, file, head.lent)?;
    run_curve(rt, file, head.lent_widths, head.lent_gains)?;
    run_list(rt, head, wanted, file, gates, &mut [MARK; LENT])
}

// Reads a record and runs it, or answers false where the input ends.
fn run_next(rt: &impl Print, input: &mut impl Read, number: u64) -> io::Result<bool> {
    let mut bytes = [0u8; HEAD_BYTES];
    if read_full(input, &mut bytes)? < HEAD_BYTES {
        return Ok(false);
    }
    let head = Head::from(bytes);
    let mut savings = [0u8; WANTED_BYTES];
    let wanted = &mut savings[..head.savings * SAVING_BYTES];
    if read_full(input, wanted)? < wanted.len() {
        return Ok(false);
    }
    let mut room = [0u8; MAX_BYTES];
    let file = &mut room[..head.file_bytes];
    if read_full(input, file)? < file.len() {
        return Ok(false);
    }
    run_case(rt, number, head, wanted, file)?;
    Ok(true)
}

// At most a million records.
fn main(rt: HostRuntime) -> io::Result<()> {
    let mut input = rt.stdin();
    for number in 0..1000000 {
        if !run_next(&rt, &mut input, number)? {
            return Ok(());
        }
    }
    Ok(())
}
