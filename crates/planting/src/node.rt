// Nodes written into a tree, and read from it.
ghost use Rattle.std.specs.Prelude.{◌≡◌, ◌+◌, ◌≤◌, get_or};
ghost use Rattle.planting.specs.Copy.{with_leaf, with_parent, rooted, Room};
ghost use Rattle.planting.specs.TreeWords.{plot_of, nodes_held, tree_nodes, tree_parents, above_put, NodeIn, KindIs};

use crate::MAX_NODES;
use crate::tree::{Kind, Node, Tree};

#[tactic(auto, using(crate::proofs::Writing::within))]
impl Tree {
    // A tree of no node.
    pub const EMPTY: Tree = Tree {
        count: 0,
        nodes: [Node {
            kind: Kind::Wire { delay: 0 },
            parent: 0,
        }; MAX_NODES],
    };

    // What node i is.
    pub fn kind_at(&self, i: usize) -> Kind
        requires { NodeIn self.now i }
        ensures { KindIs (tree_nodes self.now) i result }
    {
        self.nodes[i].kind
    }

    // The parent of node i.
    pub fn parent_at(&self, i: usize) -> usize
        requires { NodeIn self.now i }
        ensures { result ≡ get_or (tree_parents self.now) i 0 }
    {
        self.nodes[i].parent as usize
    }

    // Makes node c a wire of this delay.
    pub(crate) fn put_wire(&mut self, c: usize, delay: u32)
        requires { Room (plot_of self.old) (c + 1) }
        ensures { plot_of self.new ≡ with_leaf c delay (plot_of self.old) }
    {
        self.nodes[c].kind = Kind::Wire { delay };
    }

    // Makes node r of this kind, and the parent of the nodes just before l and just before r.
    fn put_above(&mut self, l: usize, kind: Kind, r: usize)
        requires room { Room (plot_of self.old) (r + 1) }
        requires le_l { 1 ≤ l }
        requires l_bound { l + 1 ≤ r }
        ensures { plot_of self.new ≡ above_put l kind r (plot_of self.old) }
    {
        self.nodes[r].kind = kind;
        self.nodes[l - 1].parent = r as u32;
        self.nodes[r - 1].parent = r as u32;
    }

    // Makes node r the series of the nodes just before l and just before r, through this gate.
    pub(crate) fn put_series(&mut self, l: usize, gate: u32, r: usize)
        requires room { Room (plot_of self.old) (r + 1) }
        requires le_l { 1 ≤ l }
        requires l_bound { l + 1 ≤ r }
        ensures { plot_of self.new ≡ with_parent 1 l gate r (plot_of self.old) }
    {
        let left = (l - 1) as u32;
        let right = (r - 1) as u32;
        self.put_above(l, Kind::Series { left, gate, right }, r);
    }

    // Puts the nodes just before l and just before r side by side, as node r.
    pub(crate) fn put_parallel(&mut self, l: usize, r: usize)
        requires room { Room (plot_of self.old) (r + 1) }
        requires le_l { 1 ≤ l }
        requires l_bound { l + 1 ≤ r }
        ensures { plot_of self.new ≡ with_parent 2 l 0 r (plot_of self.old) }
    {
        let left = (l - 1) as u32;
        let right = (r - 1) as u32;
        self.put_above(l, Kind::Parallel { left, right }, r);
    }

    // Makes c the number of nodes, and gives the last of them a parent's number that no node has.
    pub(crate) fn put_root(&mut self, c: usize)
        requires room { Room (plot_of self.old) c }
        requires le_c { 1 ≤ c }
        ensures written { plot_of self.new ≡ rooted c (plot_of self.old) }
        ensures held { nodes_held self.new ≡ c }
    {
        self.nodes[c - 1].parent = c as u32;
        self.count = c;
    }
}
