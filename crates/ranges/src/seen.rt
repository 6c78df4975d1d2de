// The pairs of gates that wires have joined, as a table of bytes: the byte at MAX_GATES times the source plus the target is not 0 once a wire stood there. Bytes, not `bool`s: `blockfile::read::read_block` takes the table from its callers, which lend bytes.
// Public for `faults` and `blockfile` alone.
ghost use Rattle.std.specs.Prelude.{◌≡◌, List, ◌∷◌, ℕ, ◌<◌, ◌≤◌, length, get_or};
ghost use Rattle.model.specs.Limits.{max_gates};
ghost use Rattle.model.specs.Block.{Wire};
ghost use Rattle.model.specs.File.{fresh};
ghost use Rattle.ranges.specs.Seen.{pairs, pair_place, between, Marks};

use model::limits::MAX_GATES;

// The place of a pair of gates.
pub fn pair_place(source: u8, target: u8) -> usize
    ensures { result ≡ pair_place source target }
{
    MAX_GATES * usize::from(source) + usize::from(target)
}

// Notes a wire in the table, whatever its delay.
pub fn mark(seen: &mut [u8], source: u8, target: u8)
    requires pairs_in_bounds { pairs ≤ length seen.old }
    requires source_lt_max_gates { (source < max_gates) × (target < max_gates) }
    ensures { (ws : List Wire) (delay : ℕ) → Marks seen.old ws → Marks seen.new (between source target delay ∷ ws) }
{
    seen[pair_place(source, target)] = 1;
}

// Whether a wire's body joins two gates that none of the wires in the table joined, whatever the delays.
pub fn is_fresh(body: &[u8], seen: &[u8]) -> bool
    requires in_bounds { 2 ≤ length body.now }
    requires body_bound { (get_or body.now 0 0 < max_gates) × (get_or body.now 1 0 < max_gates) }
    requires pairs_in_bounds { pairs ≤ length seen.now }
    ensures { (ws : List Wire) (delay : ℕ) → Marks seen.now ws → result ≡ fresh ws (between (get_or body.now 0 0) (get_or body.now 1 0) delay) }
{
    body[0] != body[1] && seen[pair_place(body[0], body[1])] == 0
}
