// Heads of gates and nodes: the head of a gate by its steps, the head of a node by those below it, and the way down to the item that gets a tick. Public for the crates above only.
#![tactic(auto)]

pub mod below;
pub mod gate;
pub mod store;
pub mod way;
