// Longest paths through a network of gates, and the slacks they leave, on lent arrays.
#![tactic(auto)]

mod latest;
pub mod slack;
pub mod start;
pub mod times;
