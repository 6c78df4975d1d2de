// What is wrong with a field, if anything, in document 01's order: short header, tag, length, short body, range, drops, wire.
// Public for `blockfile` alone.
#![tactic(auto)]

ghost use Rattle.std.specs.Prelude.{◌≡◌, List, ◌≤◌, eqb, length};
ghost use Rattle.model.specs.Limits.{max_gates};
ghost use Rattle.model.specs.Block.{Wire};
ghost use Rattle.model.specs.File.{block, gate, wire, tag_of, length_fits, unless, fault_of};
ghost use Rattle.model.specs.Answer.{refusal, refusal_answer};
ghost use Rattle.ranges.specs.Kinds.{kind};
ghost use Rattle.faults.specs.Number.{number_of, fault_number};
ghost use Rattle.faults.specs.Shape.{shape_of};
ghost use Rattle.ranges.specs.Seen.{pairs, Marks};

use model::{Field, Refusal};
use ranges::limits::{Due, GATE_BYTES, block_in_range, drops_fall, gate_in_range, wire_in_range};
use ranges::seen::is_fresh;

// What is wrong with a field: the refusals 1 to 6, without their place.
#[derive(Clone, Copy, Debug, PartialEq, Eq)]
pub enum Fault {
    // 1: its header or its body passes the end.
    Short,
    // 2: the tag is not the one due.
    Tag,
    // 3: the length is not one of that tag's.
    Length,
    // 4: a number is out of its range.
    Range,
    // 5: drops do not fall strictly.
    Drops,
    // 6: a wire joins a gate to itself, or stood before.
    Wire,
}

impl Fault {
    // The refusal of a field with this fault, at the field's own offset.
    pub fn at(self, offset: usize) -> Refusal
        ensures { refusal_answer result ≡ refusal (number_of self) offset }
    {
        match self {
            Fault::Short => Refusal::Short { offset },
            Fault::Tag => Refusal::Tag { offset },
            Fault::Length => Refusal::Length { offset },
            Fault::Range => Refusal::Range { offset },
            Fault::Drops => Refusal::Drops { offset },
            Fault::Wire => Refusal::Wire { offset },
        }
    }
}

// Whether the tag is the one due and the length one of that tag's.
fn header_fault(due: Due, tag: u8, length: usize) -> Result<(), Fault>
    ensures { fault_number result ≡ unless (eqb tag (tag_of (kind due))) 2 (unless (length_fits (kind due) length) 3 0) }
{
    if tag != due.tag() {
        return Err(Fault::Tag);
    }
    if !due.length_fits(length) {
        return Err(Fault::Length);
    }
    Ok(())
}

// The fault that a field shows by its header, with the length of its body.
fn shape_fault(due: Due, field: Field, length: usize) -> Result<(), Fault>
    ensures { fault_number result ≡ shape_of (kind due) field length }
{
    match field {
        Field::NoHeader => Err(Fault::Short),
        Field::NoBody {
            tag,
            length: announced,
        } => {
            header_fault(due, tag, announced)?;
            Err(Fault::Short)
        }
        Field::Whole { tag, .. } => header_fault(due, tag, length),
    }
}

// The fault of a field with its body where the block is due.
pub fn block_fault(field: Field, body: &[u8]) -> Result<(), Fault>
    ensures { fault_number result ≡ fault_of block field body.now }
{
    shape_fault(Due::Block, field, body.len())?;
    if !block_in_range(body) {
        return Err(Fault::Range);
    }
    Ok(())
}

// The fault of a field with its body where a gate is due.
pub fn gate_fault(field: Field, body: &[u8], edition: u8) -> Result<(), Fault>
    ensures { fault_number result ≡ fault_of (gate edition) field body.now }
{
    shape_fault(Due::Gate { edition }, field, body.len())?;
    if !gate_in_range(body, edition) {
        return Err(Fault::Range);
    }
    if !drops_fall(&body[GATE_BYTES..]) {
        return Err(Fault::Drops);
    }
    Ok(())
}

// The fault of a field with its body where a wire is due, after the wires that the table holds.
pub fn wire_fault(
    field: Field,
    body: &[u8],
    edition: u8,
    gates: u8,
    seen: &[u8],
) -> Result<(), Fault>
    requires gates_le_max_gates { gates ≤ max_gates }
    requires pairs_in_bounds { pairs ≤ length seen.now }
    ensures { (ws : List Wire) → Marks seen.now ws → fault_number result ≡ fault_of (wire edition gates ws) field body.now }
{
    shape_fault(Due::Wire { edition }, field, body.len())?;
    if !wire_in_range(body, edition, gates) {
        return Err(Fault::Range);
    }
    if !is_fresh(body, seen) {
        return Err(Fault::Wire);
    }
    Ok(())
}
