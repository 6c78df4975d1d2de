// The slots that hold the wires left while a block is reduced: the search for a slot by its two gates, slots that become one, the nodes of the tree, and the answer by the only slot that is live at the end.
// Public for `reduction` alone, `TreeNodes` also for `shaping`, and `NotSeriesParallel` with its refusal also for `shaping` and `answers`.
#![tactic(auto)]

pub mod chain;
pub mod finish;
pub mod merge;
pub mod nodes;
pub mod refusal;
pub mod wires;

use model::limits::{MAX_GATES, MAX_WIRES};

// For each wire a slot: whether it is live (1), the gate to which it leads and its node in the tree. It leads from the gate that the wire leaves.
// `recent` has, for a gate, the slot that was the last to come of two which leave it.
#[derive(Drop)]
pub struct Slots {
    pub live: [u32; MAX_WIRES],
    pub to: [u32; MAX_WIRES],
    pub top: [u32; MAX_WIRES],
    pub recent: [u32; MAX_GATES],
}

// The block is not series-parallel: the lowest gate left other than the first and the last.
#[derive(Clone, Copy, Debug, PartialEq, Eq)]
pub struct NotSeriesParallel {
    pub gate: usize,
}
