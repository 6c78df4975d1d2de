// The saving curve in two lent slices: a position on it, ticks counted off its front, and the fewest ticks that reach a wanted saving.
#![tactic(auto)]

pub mod count;
pub mod position;
pub mod reach;
