// The lines of the printout, written from numbers into a lent slice of bytes.
#![tactic(auto)]

pub mod lines;
mod pieces;
