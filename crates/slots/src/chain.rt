// The slot from one gate to another: a slot never leaves another gate than at the start, so the slots that leave a gate are one chain from start to end.
// In slices of any length with room: a struct of arrays would ask callers for more.
ghost use Rattle.std.specs.Prelude.{◌≡◌, ◌^◌, ◌≤◌, ◌<◌, length, set};
ghost use Rattle.lists.specs.Search.{Says};
ghost use Rattle.ordering.specs.Chain.{Chained};
ghost use Rattle.slots.specs.Sought.{Found, Leads};

use ordering::chain::wire_at;

// `count` slots: whether each is live (1), the gate that it leaves and that to which it leads; with the chains of those that leave a gate. The slices may be longer.
#[derive(Clone, Copy)]
pub struct ChainedSlots<'a> {
    pub count: usize,
    pub live: &'a [u32],
    pub from: &'a [u32],
    pub to: &'a [u32],
    pub heads: &'a [u32],
    pub links: &'a [u32],
}

// Slot i is remembered as one that leaves gate a.
pub fn remember(recent: &mut [u32], a: u32, i: usize)
    requires { (a < length recent.old) × (i < 2 ^ 32) }
    ensures { recent.new ≡ set recent.old a i }
{
    recent[a as usize] = i as u32;
}

// Whether slot i is live and leads from a to b.
fn leads(slots: ChainedSlots, i: usize, a: u32, b: u32) -> bool
    requires { (i < length slots.live.now) × (i < length slots.from.now) × (i < length slots.to.now) }
    ensures { Says (Leads slots.entry.live.now slots.entry.from.now slots.entry.to.now a b i) result }
{
    slots.live[i] == 1 && slots.from[i] == a && slots.to[i] == b
}

// The slot that leads from a to b, looked for in the chain of the slots that leave a.
fn slot_in_chain(slots: ChainedSlots, a: u32, b: u32) -> Option<usize>
    requires room { (slots.count ≤ length slots.live.now) × (slots.count ≤ length slots.from.now) × (slots.count ≤ length slots.to.now) }
    requires chained { Chained slots.from.now slots.count slots.heads.now slots.links.now }
    requires chains_long { (a < length slots.heads.now) × (slots.count ≤ length slots.links.now) }
    ensures { Found (Leads slots.entry.live.now slots.entry.from.now slots.entry.to.now a b) slots.entry.count result }
{
    let mut next = wire_at(slots.heads[a as usize]);
    // A `while`: each slot's link names the next of the chain.
    while let Some(i) = next {
        if leads(slots, i, a, b) {
            return Some(i);
        }
        next = wire_at(slots.links[i]);
    }
    None
}

// The slot that leads from a to b. The slot remembered for a is tried first; whatever it is, the answer is the same.
pub fn slot_between(slots: ChainedSlots, recent: &[u32], a: u32, b: u32) -> Option<usize>
    requires room { (slots.count ≤ length slots.live.now) × (slots.count ≤ length slots.from.now) × (slots.count ≤ length slots.to.now) }
    requires chained { Chained slots.from.now slots.count slots.heads.now slots.links.now }
    requires chains_long { (a < length slots.heads.now) × (slots.count ≤ length slots.links.now) × (a < length recent.now) }
    ensures { Found (Leads slots.entry.live.now slots.entry.from.now slots.entry.to.now a b) slots.entry.count result }
{
    let l = recent[a as usize] as usize;
    if l < slots.count && leads(slots, l, a, b) {
        return Some(l);
    }
    slot_in_chain(slots, a, b)
}
