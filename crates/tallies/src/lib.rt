// Tallies of gates, which tell the gates that can go, and the queue in which gates wait for their turn.
// Public for `reduction` alone.
#![tactic(auto)]

pub mod queue;
pub mod tally;
