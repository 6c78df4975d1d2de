// The lines of the printout: a refusal, the head of a block, and its gates.
ghost use Rattle.std.specs.Prelude.{◌++◌, ◌+◌, ◌*◌, ◌≤◌, pos, length};
ghost use Rattle.model.specs.Limits.{max_gates};
ghost use Rattle.model.specs.Printout.{refusal_line, head_text, gate_text, gate_texts};
ghost use Rattle.text.specs.Written.{Written, refusal_room, head_room, gate_room, block_room};
ghost use Rattle.text.specs.Numbers.{Natural, Listed, listed_line};

use crate::pieces::{NAMED_ROOM, NUMBER_ROOM, write_named, write_number};

// Bytes of the head, at most (specs/Written.antt): five words, each with a number.
pub const HEAD_ROOM: usize = 5 * NAMED_ROOM;

// Bytes of the line of a gate, at most: four numbers.
pub const GATE_ROOM: usize = 4 * NUMBER_ROOM;

// Writes the line of a refusal to the front of the slice and answers its length.
pub fn write_refusal(number: u64, place: u64, out: &mut [u8]) -> usize
    requires { refusal_room ≤ length out.old }
    ensures { Written (refusal_line number place) 0 out.old out.new result }
{
    let next = write_named(b"refused ", number, b' ', out, 0);
    write_number(place, b'\n', out, next)
}

// The numbers of a printout's head.
#[derive(Clone, Copy)]
pub struct Head {
    pub gates: usize,
    pub wires: usize,
    pub start: u32,
    pub spare: u32,
    pub saving: u64,
}

// Writes the three head lines of a block's printout to the front of the slice and answers their length.
fn write_head(head: Head, out: &mut [u8]) -> usize
    requires { head_room ≤ length out.old }
    ensures { (result ≤ head_room) × Written (head_text head.gates head.wires head.start (pos head.spare) head.saving) 0 out.old out.new result }
{
    let mut next = write_named(b"gates ", head.gates as u64, b' ', out, 0);
    next = write_named(b"wires ", head.wires as u64, b'\n', out, next);
    next = write_named(b"start ", u64::from(head.start), b' ', out, next);
    next = write_named(b"spare ", u64::from(head.spare), b'\n', out, next);
    write_named(b"saving ", head.saving, b'\n', out, next)
}

// Writes the line of gate g, whose slack needs no sign, at place `at` and answers the place behind it.
fn write_gate(g: usize, delay: u32, increase: u32, slack: i32, out: &mut [u8], at: usize) -> usize
    requires { (at + gate_room ≤ length out.old) × Natural slack }
    ensures { (result ≤ at + gate_room) × Written (gate_text g delay increase slack) at out.old out.new result }
{
    let mut next = write_number(g as u64, b' ', out, at);
    next = write_number(u64::from(delay), b' ', out, next);
    next = write_number(u64::from(increase), b' ', out, next);
    write_number(u64::from(slack.unsigned_abs()), b'\n', out, next)
}

// Writes the lines of the first n gates at place `at` and answers the place behind them.
fn write_gates(
    n: usize,
    delays: &[u32],
    increases: &[u32],
    slacks: &[i32],
    out: &mut [u8],
    at: usize,
) -> usize
    requires { (at + gate_room * n ≤ length out.old) × Listed n delays.now increases.now slacks.now }
    ensures { (result ≤ at + gate_room * n) × Written (gate_texts (listed_line delays.now increases.now slacks.now) n) at out.old out.new result }
{
    let mut next = at;
    // Indexes, not three zipped iterators: the gate's number is printed too, and the lists may be longer.
    for g in 0..n {
        next = write_gate(g, delays[g], increases[g], slacks[g], out, next);
    }
    next
}

// Writes the printout of a block to the front of the slice and answers its length.
pub fn write_block(
    head: Head,
    delays: &[u32],
    increases: &[u32],
    slacks: &[i32],
    out: &mut [u8],
) -> usize
    requires { (head.gates ≤ max_gates) × (block_room ≤ length out.old) × Listed head.gates delays.now increases.now slacks.now }
    ensures { (result ≤ block_room) × Written (head_text head.gates head.wires head.start (pos head.spare) head.saving ++ gate_texts (listed_line delays.now increases.now slacks.now) head.gates) 0 out.old out.new result }
{
    let next = write_head(head, out);
    write_gates(head.gates, delays, increases, slacks, out, next)
}
