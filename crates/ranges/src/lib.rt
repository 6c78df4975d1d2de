// What the fields of a file may hold: tags, lengths and ranges, what differs by edition, and the pairs of gates that wires have joined.
#![tactic(auto)]

pub mod edition;
pub mod limits;
pub mod seen;
