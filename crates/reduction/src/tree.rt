// The tree of a network in arrays that are lent.
// In slices of any length with room: a struct of arrays would ask callers for more.
ghost use Rattle.std.specs.Prelude.{◌≡◌, ℕ, ◌+◌, ◌≤◌, ◌<◌, length, get_or};
ghost use Rattle.model.specs.Limits.{max_gates, max_wires};
ghost use Rattle.model.specs.Block.{Block};
ghost use Rattle.parts.specs.Network.{Network};
ghost use Rattle.reduction.specs.Wired.{Wired, Given};
ghost use Rattle.reduction.specs.Answered.{AnsweredIn};

use crate::Reduction;
use ordering::wires::Wires;
use slots::NotSeriesParallel;

// The root of a tree among its nodes, and how many nodes there are.
#[derive(Clone, Copy, Debug, PartialEq, Eq)]
pub struct Root {
    pub node: usize,
    pub nodes: usize,
}

// Copies the first `count` numbers.
fn copy_front(count: usize, from: &[u32], to: &mut [u32])
    requires { (count ≤ length from.now) × (count ≤ length to.old) }
    ensures same { (i : ℕ) → i < count → get_or to.new i 0 ≡ get_or from.now i 0 }
    ensures kept { length to.new ≡ length to.old }
{
    to[..count].copy_from_slice(&from[..count]);
}

// Reduces a network of n gates to its tree, whose nodes stand in front of the four slices: their kinds, left children, gates and right children. One gate without a wire has no tree.
pub fn reduce_network(
    n: usize,
    wires: Wires,
    kind: &mut [u32],
    left: &mut [u32],
    gate: &mut [u32],
    right: &mut [u32],
) -> Result<Option<Root>, NotSeriesParallel>
    requires given { Given n wires.count wires.sources.now wires.targets.now wires.delays.now }
    requires wires_long { (wires.count ≤ length wires.sources.now) × (wires.count ≤ length wires.targets.now) × (wires.count ≤ length wires.delays.now) }
    requires few { (n ≤ max_gates) × (wires.count ≤ max_wires) }
    requires room { let most = wires.count + (n + n) in (most ≤ length kind.old) × (most ≤ length left.old) × (most ≤ length gate.old) × (most ≤ length right.old) }
    ensures { (N : Block) → Network N → Wired N n wires.entry.count wires.entry.sources.now wires.entry.targets.now wires.entry.delays.now → AnsweredIn N (record { kinds = kind.new; lefts = left.new; gates = gate.new; rights = right.new }) result }
{
    let mut reduction = Reduction::EMPTY;
    match reduction.reduce_network(n, wires)? {
        None => Ok(None),
        Some(node) => {
            let nodes = reduction.nodes.count;
            copy_front(nodes, &reduction.nodes.kind, kind);
            copy_front(nodes, &reduction.nodes.left, left);
            copy_front(nodes, &reduction.nodes.gate, gate);
            copy_front(nodes, &reduction.nodes.right, right);
            Ok(Some(Root { node, nodes }))
        }
    }
}
