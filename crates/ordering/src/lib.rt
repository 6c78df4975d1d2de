// An order of the gates along the wires, by counts: a gate is placed once no wire into it is left, and the wires out of each gate are passed in the order in which the gates were placed.
// `left` holds for each gate the number of wires into it that are not passed. Wire delays play no part.
// Every function here is public only for the crates above.
#![tactic(auto)]

pub mod chain;
pub mod marking;
pub mod wires;

ghost use Rattle.std.specs.Prelude.{◌≡◌, ℕ, ◌+◌, ◌-◌, ◌≤◌, ◌<◌, length, get_or, set};
ghost use Rattle.model.specs.Limits.{max_gates, max_wires};
ghost use Rattle.model.specs.Block.{Block};
ghost use Rattle.ordering.specs.Wires.{Lent, InArrays};
ghost use Rattle.ordering.specs.Order.{SameBeyond, OrderFound};
ghost use Rattle.ordering.specs.Counts.{wires_into, Visit, FreePlaced, Linked, Counted};

use chain::Chains;
use marking::at;
use model::limits::MAX_GATES;
use wires::Wires;

// Counts the wires into each gate.
fn count_wires(m: usize, targets: &[u32], left: &mut [u32; MAX_GATES])
    requires room { (m ≤ max_wires) × (m ≤ length targets.now) }
    requires to_gates { (i : ℕ) → i < m → get_or targets.now i 0 < max_gates }
    requires begun { (g : ℕ) → get_or left.old g 0 ≡ 0 }
    ensures { (g : ℕ) → get_or left.new g 0 ≡ wires_into targets.now m g }
{
    for &target in &targets[..m] {
        left[target as usize] += 1;
    }
}

// Places gate g next if no wire into it is left; answers how many gates are placed.
fn place_if_free(g: usize, left: &[u32; MAX_GATES], order: &mut [u32], count: usize) -> usize
    requires g_lt_max_gates { (g < max_gates) × (count < max_gates) }
    requires room { count < length order.old }
    ensures { Visit g left.now order.old count order.new result }
{
    if left[g] != 0 {
        return count;
    }
    order[count] = g as u32;
    count + 1
}

// Places the gates that no wire leads to; answers how many they are.
fn place_free(n: usize, left: &[u32; MAX_GATES], order: &mut [u32]) -> usize
    requires n_le_max_gates { n ≤ max_gates }
    requires n_in_bounds { n ≤ length order.old }
    ensures { FreePlaced n left.now order.old n order.new result }
{
    let mut count = 0;
    for g in 0..n {
        count = place_if_free(g, left, order, count);
    }
    count
}

// One wire into gate g is passed, and the gate is placed next if that was the last; answers how many gates are placed.
fn pass_wire(g: usize, left: &mut [u32; MAX_GATES], order: &mut [u32], count: usize) -> usize
    requires g_lt_max_gates { (g < max_gates) × (count < max_gates) }
    requires room { count < length order.old }
    requires nonzero { 0 < get_or left.old g 0 }
    ensures left_after { left.new ≡ set left.old g (get_or left.old g 0 - 1) }
    ensures visit { Visit g left.new order.old count order.new result }
{
    left[g] -= 1;
    place_if_free(g, left, order, count)
}

// Passes the wires out of the gate at place `done` of the order; answers how many gates are placed.
// (`n` is there for the promise.)
fn pass_gate(
    n: usize,
    wires: Wires,
    chains: &Chains,
    left: &mut [u32; MAX_GATES],
    order: &mut [u32],
    done: usize,
    placed: usize,
) -> usize
    requires linked { Linked n wires.count wires.sources.now wires.targets.now chains.now.heads chains.now.links }
    requires n_in_bounds { n ≤ length order.old }
    requires turn { done < placed }
    requires counted { Counted n wires.count wires.sources.now wires.targets.now left.old order.old placed done wires.count }
    ensures counted { Counted n wires.entry.count wires.entry.sources.now wires.entry.targets.now left.new order.new result (done + 1) wires.entry.count }
    ensures same_beyond { SameBeyond n order.old order.new }
{
    let mut count = placed;
    // A `while`, not a `for`: each wire of the chain names the next.
    let mut next = chains.first(at(order, done));
    while let Some(i) = next {
        count = pass_wire(at(wires.targets, i), left, order, count);
        next = chains.next(i);
    }
    count
}

// Passes the wires out of every gate that is placed, now or later; answers how many gates are placed.
fn pass_gates(
    n: usize,
    wires: Wires,
    chains: &Chains,
    left: &mut [u32; MAX_GATES],
    order: &mut [u32],
    placed: usize,
) -> usize
    requires linked { Linked n wires.count wires.sources.now wires.targets.now chains.now.heads chains.now.links }
    requires n_in_bounds { n ≤ length order.old }
    requires counted { Counted n wires.count wires.sources.now wires.targets.now left.old order.old placed 0 wires.count }
    ensures counted { Counted n wires.entry.count wires.entry.sources.now wires.entry.targets.now left.new order.new result result wires.entry.count }
    ensures same_beyond { SameBeyond n order.old order.new }
{
    let mut count = placed;
    let mut done = 0;
    // A `while`, not a `for`: `count` grows on the way.
    while done < count {
        count = pass_gate(n, wires, chains, left, order, done, count);
        done += 1;
    }
    count
}

// Whether the gates have an order along the wires, which the first n elements of `order` then hold; if not, some gate reaches itself.
pub fn order_gates(n: usize, wires: Wires, order: &mut [u32]) -> bool
    requires lent { Lent n wires.count wires.sources.now wires.targets.now }
    requires n_in_bounds { n ≤ length order.old }
    ensures order_found { (B : Block) → InArrays B n wires.entry.count wires.entry.sources.now wires.entry.targets.now → OrderFound B order.new result }
    ensures same_beyond { SameBeyond n order.old order.new }
{
    let chains = Chains::of(wires.count, wires.sources);
    let mut left = [0u32; MAX_GATES];
    count_wires(wires.count, wires.targets, &mut left);
    let free = place_free(n, &left, order);
    let count = pass_gates(n, wires, &chains, &mut left, order, free);
    count == n
}
