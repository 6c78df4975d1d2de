// What every crate shares: the refusals, what the calls find, the activity of a net, and the limits of a file.
// The definitions to believe stand in specs/; specs/Answer.antt sets out document 01's number and values for each case below.
#![tactic(auto)]

pub mod activity;
pub mod limits;

// Why a file or a buffer is refused: the error of every call. Offsets are those of a field's tag.
#[derive(Clone, Copy, Debug, PartialEq, Eq)]
pub enum Refusal {
    // 1: a due block or gate field is missing, or a header or body passes the end.
    Short { offset: usize },
    // 2: the tag is not the one due.
    Tag { offset: usize },
    // 3: the length is not one of that tag's.
    Length { offset: usize },
    // 4: a number is out of its range.
    Range { offset: usize },
    // 5: drops do not fall strictly.
    Drops { offset: usize },
    // 6: a wire joins a gate to itself, or stood before.
    Wire { offset: usize },
    // 7: a byte follows the last wire that a file may have.
    Excess { offset: usize },
    // 8: a gate reaches itself; the lowest such gate.
    Loop { gate: usize },
    // 9: a gate has wires where it must have none, or none where it must have one; the lowest such gate.
    Ends { gate: usize },
    // 10: a lent slice is too short; the elements needed.
    Room { needed: usize },
    // 11: the block is not series-parallel; the lowest gate left, other than the first and the last, when gates with one wire in and one out are taken away and doubled wires merged.
    NotSeriesParallel { gate: usize },
    // 12: it is, and spare is below 0.
    Late,
    // 13: an increase exceeds its gate's widths; the lowest such gate.
    Widths { gate: usize },
    // 14: a path is not in time.
    PathLate,
    // 17: no number of spare ticks reaches the wanted saving.
    Unreached,
}

// The field at an offset of a file.
#[derive(Clone, Copy, Debug, PartialEq, Eq)]
pub enum Field {
    // Fewer bytes are left than a header has.
    NoHeader,
    // The header is whole, and the body that it announces passes the end.
    NoBody { tag: u8, length: usize },
    // The body is the bytes from `from` up to `to`.
    Whole { tag: u8, from: usize, to: usize },
}

// What is found of a curve: start, the saving at start, and how many pairs there are, whose widths and gains are in front of the two lent slices.
#[derive(Clone, Copy, Debug, PartialEq, Eq)]
pub struct CurveFound {
    pub start: u32,
    pub at_start: u64,
    pub pairs: usize,
}

// What the best increases save, and how many gates there are, whose increases are in front of the lent slice.
#[derive(Clone, Copy, Debug, PartialEq, Eq)]
pub struct BestFound {
    pub saving: u64,
    pub gates: usize,
}
