// The tree of a block's parts, planted.
ghost use Rattle.std.specs.Prelude.{◌≤◌, length};
ghost use Rattle.model.specs.Block.{Block};
ghost use Rattle.planting.specs.Copy.{max_nodes};
ghost use Rattle.shaping.specs.PlantedBlock.{Given, WiresLong, PlantedOrNot};

use ordering::wires::Wires;
use planting::tree::Tree;
use planting::{plant, plant_lone};
use reduction::Reduction;
use slots::NotSeriesParallel;

// The tree of a block of n gates, planted: answers its number of nodes, the last of which is the top. Nodes beyond are as before, and so is the whole tree where the block is not series-parallel.
// Public for the crates above only: they have shown that the wires are those of a sound network.
pub fn plant_block(n: usize, wires: Wires, tree: &mut Tree) -> Result<usize, NotSeriesParallel>
    requires given { (B : Block) × Given B n wires.count wires.sources.now wires.targets.now wires.delays.now }
    requires wires_long { WiresLong wires.count wires.sources.now wires.targets.now wires.delays.now }
    requires nodes_long { max_nodes ≤ length tree.old.nodes }
    ensures planted { (B : Block) → Given B n wires.entry.count wires.entry.sources.now wires.entry.targets.now wires.entry.delays.now → PlantedOrNot B result tree.old tree.new }
{
    let mut reduction = Reduction::EMPTY;
    match reduction.reduce_network(n, wires)? {
        None => Ok(plant_lone(0, tree)),
        Some(root) => Ok(plant(
            root,
            0,
            (n - 1) as u32,
            &reduction.nodes.kind,
            &reduction.nodes.left,
            &reduction.nodes.gate,
            &reduction.nodes.right,
            tree,
        )),
    }
}
