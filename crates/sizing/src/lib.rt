// The raised start, and ticks spent from there on: the increases after so many ticks, and the curve of the runs.
#![tactic(auto)]

pub mod curve;
mod length;
mod raise;
pub mod start;
mod ticks;
