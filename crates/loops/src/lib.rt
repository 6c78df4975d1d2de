// The lowest gate on a loop, by a square of marks that tells which gates reach which: the mark for gates a and b stands at a * MAX_GATES + b.
// Asked only when the gates have no order. Public for `network` alone.
#![tactic(auto)]

ghost use Rattle.std.specs.Prelude.{◌≡◌, ℕ, ◌≤◌, ◌<◌, length, get_or};
ghost use Rattle.lists.specs.Search.{LowestBelow};
ghost use Rattle.model.specs.Limits.{max_gates};
ghost use Rattle.model.specs.Block.{Block};
ghost use Rattle.model.specs.Refusal.{OnLoop};
ghost use Rattle.ordering.specs.Wires.{Lent, Wired, InArrays};
ghost use Rattle.loops.specs.Square.{square_size, Paired, PairMarks, Closed};

use model::limits::{GATES_SQUARED, MAX_GATES};
use ordering::wires::Wires;

// Marks each pair of gates that a wire joins; no mark may be set before.
fn mark_pairs(wires: Wires, square: &mut [u8; GATES_SQUARED])
    requires lent { Lent max_gates wires.count wires.sources.now wires.targets.now }
    requires unmarked { (i : ℕ) → i < square_size → get_or square.old i 0 ≡ 0 }
    ensures { PairMarks (Wired wires.entry.count wires.entry.sources.now wires.entry.targets.now) max_gates square.new }
{
    let m = wires.count;
    for (&source, &target) in wires.sources[..m].iter().zip(&wires.targets[..m]) {
        square[source as usize * MAX_GATES + target as usize] = 1;
    }
}

// Marks where each gate leads, the wires being the pairs marked before: gate after gate is let through.
fn close_square(n: usize, square: &mut [u8; GATES_SQUARED])
    requires { n ≤ max_gates }
    ensures { Closed square.old n n square.new }
{
    for k in 0..n {
        for a in 0..n {
            if square[a * MAX_GATES + k] != 0 {
                for b in 0..n {
                    if square[k * MAX_GATES + b] != 0 {
                        square[a * MAX_GATES + b] = 1;
                    }
                }
            }
        }
    }
}

// The lowest gate whose pair with itself is marked.
fn first_paired(n: usize, square: &[u8; GATES_SQUARED]) -> Option<usize>
    requires { n ≤ max_gates }
    ensures { LowestBelow (λ (g : ℕ). Paired square.now g g) n result }
{
    // Gate by gate, and not by `find`: the edit that names the highest shows the promise here, and with `find` the iterator alone.
    for g in 0..n {
        if square[g * MAX_GATES + g] != 0 {
            return Some(g);
        }
    }
    None
}

// The lowest gate that reaches itself.
pub fn lowest_on_loop(n: usize, wires: Wires) -> Option<usize>
    requires { Lent n wires.count wires.sources.now wires.targets.now }
    ensures { (B : Block) → InArrays B n wires.entry.count wires.entry.sources.now wires.entry.targets.now → LowestBelow (OnLoop B) n result }
{
    let mut square = [0u8; GATES_SQUARED];
    mark_pairs(wires, &mut square);
    close_square(n, &mut square);
    first_paired(n, &square)
}
