// How long the part of each node lasts with no increase.
ghost use Rattle.std.specs.Prelude.{◌≡◌, ◌<◌};
ghost use Rattle.optimum.specs.Tree.{longest, zeros};
ghost use Rattle.planting.specs.TreeWords.{tree_nodes};
ghost use Rattle.heads.specs.Plan.{node_count, part};
ghost use Rattle.sizing.specs.Raise.{Lengths, Measurable, delays_in};

use planting::tree::{Kind, Tree};

// How long the part of node i lasts, by the lengths of the nodes below it.
fn length_of(i: usize, tree: &Tree, delays: &[u32], lengths: &[u32]) -> u32
    requires measurable { Measurable (tree_nodes tree.now) delays.now lengths.now }
    requires lengths { Lengths (tree_nodes tree.now) (delays_in delays.now) lengths.now i }
    requires i_bound { i < node_count (tree_nodes tree.now) }
    ensures { result ≡ longest (delays_in delays.now) (part (tree_nodes tree.now) i) (zeros (part (tree_nodes tree.now) i)) }
{
    match tree.kind_at(i) {
        Kind::Wire { delay } => delay,
        Kind::Series { left, gate, right } => {
            lengths[left as usize] + delays[gate as usize] + lengths[right as usize]
        }
        Kind::Parallel { left, right } => lengths[left as usize].max(lengths[right as usize]),
    }
}

// How long the part of each node lasts.
pub fn part_lengths(tree: &Tree, delays: &[u32], lengths: &mut [u32])
    requires { Measurable (tree_nodes tree.now) delays.now lengths.old }
    ensures { Lengths (tree_nodes tree.now) (delays_in delays.now) lengths.new (node_count (tree_nodes tree.now)) }
{
    for i in 0..tree.count {
        lengths[i] = length_of(i, tree, delays, lengths);
    }
}
