// Tags, lengths and ranges of the fields. They stand here and nowhere else in the code, but for what differs by edition (`edition`) and the numbers of gates, steps and wires (`model::limits`).
// Public for `faults` and `blockfile` alone.
ghost use Rattle.std.specs.Prelude.{◌≡◌, true, [], ℕ, ◌%◌, length};
ghost use Rattle.model.specs.Edition.{wire_bytes};
ghost use Rattle.model.specs.File.{block, gate, wire, tag_of, length_fits, says, in_range, step_in_range, every, steps_in, falls};
ghost use Rattle.ranges.specs.Kinds.{kind, step_of};

use crate::edition::{MAX_EDITION, max_switching, wire_bytes, wire_delay};
use fields::field::number_at;
use model::limits::{MAX_GATES, MAX_STEPS};

// The block: gates and bytes.
const GATES: u8 = MAX_GATES as u8;

const BLOCK_BYTES: usize = 8;
// A gate: delay and the number for its output's switching, then as many steps as there are, each of a width and a drop.
const MAX_DELAY: u32 = 4095;

const MAX_WIDTH: u32 = 4095;

const MAX_DROP: u32 = 1000;

pub const GATE_BYTES: usize = 4;

pub const STEP_BYTES: usize = 4;
// A wire: delay.
const MAX_WIRE_DELAY: u32 = 4095;

// What is due at a place of the file, of an edition where it is known.
#[derive(Clone, Copy)]
pub enum Due {
    Block,
    Gate { edition: u8 },
    Wire { edition: u8 },
}

impl Due {
    // The tag of what is due.
    pub fn tag(self) -> u8
        ensures { result ≡ tag_of (kind self) }
    {
        match self {
            Due::Block => 1,
            Due::Gate { .. } => 2,
            Due::Wire { .. } => 3,
        }
    }

    // Whether the body of what is due can have this length.
    pub fn length_fits(self, length: usize) -> bool
        ensures { result ≡ length_fits (kind self) length }
    {
        match self {
            Due::Block => length == BLOCK_BYTES,
            Due::Gate { .. } => gate_length_fits(length),
            Due::Wire { edition } => length == wire_bytes(edition),
        }
    }
}

// Whether a gate's body can have this length, in any edition.
pub fn gate_length_fits(length: usize) -> bool
    ensures { (edition : ℕ) → result ≡ length_fits (gate edition) length }
{
    (GATE_BYTES..=GATE_BYTES + STEP_BYTES * MAX_STEPS).contains(&length) && length % STEP_BYTES == 0
}

// Whether every number of a block's body is in its range. Arrival and deadline are so by their two bytes.
pub fn block_in_range(body: &[u8]) -> bool
    requires { length body.now ≡ 8 }
    ensures { result ≡ in_range block (says block body.now) }
{
    let edition = body[0];
    let gates = body[1];
    (1..=MAX_EDITION).contains(&edition)
        && (1..=GATES).contains(&gates)
        && number_at(body, 6) <= max_switching(edition)
}

// The width of a step.
pub fn width_of(step: &[u8; STEP_BYTES]) -> u32
    ensures { result ≡ (step_of step.now 0).width }
{
    number_at(step, 0)
}

// The drop of a step.
pub fn drop_of(step: &[u8; STEP_BYTES]) -> u32
    ensures { result ≡ (step_of step.now 0).drop }
{
    number_at(step, 2)
}

// Whether a step has a width and a drop in their ranges.
fn step_in_range(step: &[u8; STEP_BYTES]) -> bool
    ensures { result ≡ step_in_range (step_of step.now 0) }
{
    (1..=MAX_WIDTH).contains(&width_of(step)) && (1..=MAX_DROP).contains(&drop_of(step))
}

// Whether every step has a width and a drop in their ranges.
pub fn steps_in_range(steps: &[u8]) -> bool
    requires { length steps.now % 4 ≡ 0 }
    ensures { result ≡ every step_in_range (steps_in steps.now) }
{
    let (steps, _) = steps.as_chunks::<STEP_BYTES>();
    steps.iter().all(step_in_range)
}

// Whether every number of a gate's body is in its range.
pub fn gate_in_range(body: &[u8], edition: u8) -> bool
    requires { length_fits (gate edition) (length body.now) ≡ true }
    ensures { result ≡ in_range (gate edition) (says (gate edition) body.now) }
{
    number_at(body, 0) <= MAX_DELAY
        && number_at(body, 2) <= max_switching(edition)
        && steps_in_range(&body[GATE_BYTES..])
}

// Whether the drops of the steps fall strictly.
pub fn drops_fall(steps: &[u8]) -> bool
    requires { length steps.now % 4 ≡ 0 }
    ensures { result ≡ falls (steps_in steps.now) }
{
    let (steps, _) = steps.as_chunks::<STEP_BYTES>();
    steps.is_sorted_by(|before, step| drop_of(step) < drop_of(before))
}

// Whether a wire's body names two gates below the gate count, and a delay in its range.
pub fn wire_in_range(body: &[u8], edition: u8, gates: u8) -> bool
    requires { length body.now ≡ wire_bytes edition }
    ensures { result ≡ in_range (wire edition gates []) (says (wire edition gates []) body.now) }
{
    body[0] < gates && body[1] < gates && wire_delay(edition, body) <= MAX_WIRE_DELAY
}
