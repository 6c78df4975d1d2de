// The printout of a block that is in arrays, and the line of a refusal, written into a lent slice.
// Public for `printing` alone.
#![tactic(auto)]

pub mod block;
pub mod refusal;
