// Tallies of gates: for each live slot that ends at a gate, MAX_WIRES and the number of the slot.
ghost use Rattle.std.specs.Prelude.{◌≡◌, List, ℕ, ◌+◌, ◌-◌, ◌^◌, ◌≤◌, ◌<◌, length, get_or, set};
ghost use Rattle.lists.specs.Search.{Says};
ghost use Rattle.model.specs.Limits.{max_gates, max_wires};
ghost use Rattle.tallies.specs.Tallies.{share, TalliedBy, settled, kept_share};
ghost use Rattle.tallies.specs.Queue.{CanGo};

use model::limits::{MAX_GATES, MAX_WIRES};

// The tallies of the gates: by the slots that lead to them, and by those that leave them.
#[derive(Drop)]
pub struct Tallies {
    pub ins: [u32; MAX_GATES],
    pub outs: [u32; MAX_GATES],
}

// The least tally of one slot, and that of two.
const ONE: u32 = MAX_WIRES as u32;

const TWO: u32 = ONE + ONE;

// Slot i is counted at its end.
fn count(ends: &[u32], tallies: &mut [u32], i: usize)
    requires i_lt_max_wires { (i < max_wires) × (i < length ends.now) }
    requires i_in_bounds { get_or ends.now i 0 < length tallies.old }
    requires i_bound { get_or tallies.old (get_or ends.now i 0) 0 < 2 ^ 31 }
    ensures { tallies.new ≡ set tallies.old (get_or ends.now i 0) (get_or tallies.old (get_or ends.now i 0) 0 + share i) }
{
    let g = ends[i] as usize;
    tallies[g] += (MAX_WIRES + i) as u32;
}

// The tallies of the gates by the first k slots, all of them live, of which `ends` holds one end.
fn tally(ends: &[u32], tallies: &mut [u32; MAX_GATES], k: usize)
    requires k_le_max_wires { (k ≤ max_wires) × (k ≤ length ends.now) }
    requires ends_below { (i : ℕ) → i < k → get_or ends.now i 0 < max_gates }
    ensures { (lives : List ℕ) → ((i : ℕ) → i < k → get_or lives i 0 ≡ 1) → TalliedBy lives ends.now max_gates k tallies.new }
{
    tallies.fill(0);
    for i in 0..k {
        count(ends, tallies, i);
    }
}

impl Tallies {
    pub const EMPTY: Tallies = Tallies {
        ins: [0; MAX_GATES],
        outs: [0; MAX_GATES],
    };

    // The tallies of the gates by the first k slots, all of them live.
    pub fn tally(&mut self, sources: &[u32], targets: &[u32], k: usize)
        requires k_le_max_wires { (k ≤ max_wires) × (k ≤ length sources.now) × (k ≤ length targets.now) }
        requires sources_below { (i : ℕ) → i < k → get_or sources.now i 0 < max_gates }
        requires targets_below { (i : ℕ) → i < k → get_or targets.now i 0 < max_gates }
        ensures ins_right { (lives : List ℕ) → ((i : ℕ) → i < k → get_or lives i 0 ≡ 1) → TalliedBy lives targets.now max_gates k self.new.ins }
        ensures outs_right { (lives : List ℕ) → ((i : ℕ) → i < k → get_or lives i 0 ≡ 1) → TalliedBy lives sources.now max_gates k self.new.outs }
    {
        tally(targets, &mut self.ins, k);
        tally(sources, &mut self.outs, k);
    }

    // Whether gate m can go, by the tallies.
    pub fn can_go(&self, m: usize, first: usize, last: usize) -> bool
        requires { m < max_gates }
        ensures { Says (CanGo self.now.ins self.now.outs first last m) result }
    {
        m != first
            && m != last
            && (ONE..TWO).contains(&self.ins[m])
            && (ONE..TWO).contains(&self.outs[m])
    }
}

// The only slot at gate m, which its tally names.
pub fn only_slot(tallies: &[u32], m: usize) -> usize
    requires m_in_bounds { m < length tallies.now }
    requires max_wires_bound { max_wires ≤ get_or tallies.now m 0 }
    ensures { result ≡ get_or tallies.now m 0 - max_wires }
{
    tallies[m] as usize - MAX_WIRES
}

// What slot i counts at its new end, where r nodes stand after c: nothing if another slot has taken it up.
pub fn kept_share(c: usize, r: usize, i: usize) -> u32
    requires { (c + 1 < 2 ^ 32) × (i < max_wires) }
    ensures { result ≡ kept_share c r i }
{
    if r == c + 1 {
        return (MAX_WIRES + i) as u32;
    }
    0
}

// The tallies once gate m is gone: gate v has lost `less` and won `more`.
pub fn settle(tallies: &mut [u32], m: usize, v: usize, less: u32, more: u32)
    requires m_in_bounds { (m < length tallies.old) × (v < length tallies.old) }
    requires more_bound { (get_or tallies.old v 0 + more < 2 ^ 32) × (less ≤ get_or tallies.old v 0 + more) }
    ensures { tallies.new ≡ settled m v less more tallies.old }
{
    tallies[v] = tallies[v] + more - less;
    tallies[m] = 0;
}
