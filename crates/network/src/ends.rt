// Refusal 9: the lowest gate that has a wire where it must have none, or none where it must have one.
ghost use Rattle.std.specs.Prelude.{◌≤◌, ◌<◌};
ghost use Rattle.lists.specs.Search.{LowestBelow, Says};
ghost use Rattle.model.specs.Limits.{max_gates};
ghost use Rattle.model.specs.Block.{Block};
ghost use Rattle.ordering.specs.Wires.{Lent, InArrays};
ghost use Rattle.network.specs.Misplaced.{Misplaced, Faulty};
ghost use Rattle.network.specs.Judged.{FaultFound};

use model::limits::MAX_GATES;
use ordering::marking::mark_keys;
use ordering::wires::Wires;

// Whether gate g has a wire too many or none on one side, where `end` must have none and `mark` is not 0 if g has one.
fn misplaced(g: usize, end: usize, mark: u8) -> bool
    ensures { Says (Misplaced g end mark) result }
{
    (mark != 0) == (g == end)
}

// Whether gate g of the n gates is at fault with its wires in or with its wires out, as the marks tell.
fn faulty(n: usize, g: usize, ins: &[u8; MAX_GATES], outs: &[u8; MAX_GATES]) -> bool
    requires { (g < n) × (n ≤ max_gates) }
    ensures { Says (Faulty n ins.now outs.now g) result }
{
    misplaced(g, 0, ins[g]) || misplaced(g, n - 1, outs[g])
}

// The lowest gate at fault as the marks tell.
fn first_faulty(n: usize, ins: &[u8; MAX_GATES], outs: &[u8; MAX_GATES]) -> Option<usize>
    requires { n ≤ max_gates }
    ensures { LowestBelow (Faulty n ins.now outs.now) n result }
{
    // Gate by gate, and not by `find`: the edit that names the highest shows the promise here, and with `find` the iterator alone.
    for g in 0..n {
        if faulty(n, g, ins, outs) {
            return Some(g);
        }
    }
    None
}

// The lowest gate at fault with its wires: gate 0 must have no wire in, gate n - 1 none out, every other gate both.
pub fn lowest_at_fault(n: usize, wires: Wires) -> Option<usize>
    requires { Lent n wires.count wires.sources.now wires.targets.now }
    ensures { (B : Block) → InArrays B n wires.entry.count wires.entry.sources.now wires.entry.targets.now → FaultFound B result }
{
    let mut ins = [0u8; MAX_GATES];
    let mut outs = [0u8; MAX_GATES];
    mark_keys(wires.count, wires.targets, &mut ins);
    mark_keys(wires.count, wires.sources, &mut outs);
    first_faulty(n, &ins, &outs)
}
