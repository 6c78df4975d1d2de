// The slacks, the curve and the best increases of a held block, for lent slices of any length: refusal 10, or what is found. Public for `resizing` alone.
#![tactic(auto)]

pub mod best;
pub mod curve;
pub mod slacks;
