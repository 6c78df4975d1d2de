// A tree: how many nodes it has, and the nodes, each with what it is and its parent.
use crate::MAX_NODES;

// What a node is. Children are named by their numbers.
#[derive(Clone, Copy)]
pub enum Kind {
    Wire { delay: u32 },
    Series { left: u32, gate: u32, right: u32 },
    Parallel { left: u32, right: u32 },
}

#[derive(Clone, Copy)]
pub struct Node {
    pub kind: Kind,
    pub parent: u32,
}

#[derive(Clone, Copy)]
pub struct Tree {
    pub count: usize,
    pub nodes: [Node; MAX_NODES],
}
