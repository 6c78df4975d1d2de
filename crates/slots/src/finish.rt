// The end: whether exactly one slot is live, and else the lowest gate left.
ghost use Rattle.std.specs.Prelude.{◌≡◌, ◌≤◌, ◌<◌, eqb, length, get_or};
ghost use Rattle.lists.specs.Search.{lesser};
ghost use Rattle.model.specs.Limits.{max_wires};
ghost use Rattle.slots.specs.Sought.{LiveFrom, OnlyLive, LowestLed};
ghost use Rattle.slots.specs.Picked.{Picked};

use crate::{NotSeriesParallel, Slots};

// The lowest live one of k slots from `start` on.
fn live_from(live: &[u32], start: usize, k: usize) -> Option<usize>
    requires { k ≤ length live.now }
    ensures { LiveFrom live.now start k result }
{
    (start..k).find(|i| live[*i] == 1)
}

// The only live one of k slots.
fn only_live(live: &[u32], k: usize) -> Option<usize>
    requires { k ≤ length live.now }
    ensures { OnlyLive live.now k result }
{
    let one = live_from(live, 0, k)?;
    match live_from(live, one + 1, k) {
        None => Some(one),
        Some(_) => None,
    }
}

// The lower of g and the gate that slot i leads to, if it is live.
fn lower(live: &[u32], to: &[u32], i: usize, g: usize) -> usize
    requires { (i < length live.now) × (i < length to.now) }
    ensures { result ≡ lesser (eqb (get_or live.now i 0) 1) (get_or to.now i 0) g }
{
    if live[i] == 1 {
        g.min(to[i] as usize)
    } else {
        g
    }
}

// The lowest gate to which a live one of k slots leads, or `last` where none leads to a lower one.
fn lowest_left(live: &[u32], to: &[u32], k: usize, last: usize) -> usize
    requires { (k ≤ length live.now) × (k ≤ length to.now) }
    ensures { LowestLed live.now to.now k last result }
{
    let mut g = last;
    for i in 0..k {
        g = lower(live, to, i, g);
    }
    g
}

// The answer when no gate can go but the first and `last`: the node of the only live one of k slots.
// In slices of any length with room: a struct of arrays would ask callers for more.
pub fn pick(
    live: &[u32],
    to: &[u32],
    top: &[u32],
    k: usize,
    last: usize,
) -> Result<usize, NotSeriesParallel>
    requires { (k ≤ length live.now) × (k ≤ length to.now) × (k ≤ length top.now) }
    ensures { Picked live.now to.now top.now k last result }
{
    match only_live(live, k) {
        Some(i) => Ok(top[i] as usize),
        None => {
            let gate = lowest_left(live, to, k, last);
            Err(NotSeriesParallel { gate })
        }
    }
}

impl Slots {
    // The same of these slots.
    pub fn pick(&self, k: usize, last: usize) -> Result<usize, NotSeriesParallel>
        requires { k ≤ max_wires }
        ensures { Picked self.now.live self.now.to self.now.top k last result }
    {
        pick(&self.live, &self.to, &self.top, k, last)
    }
}
