// The order of ties in code: the rank of a gate, the comparison of two heads, the best of three heads, and two heads side by side.
// A head's gain and rank are one number, its key, so that one comparison tells which of two heads comes first.
#![tactic(auto)]

ghost use Rattle.std.specs.Prelude.{◌≡◌, ◌+◌, ◌-◌, ◌/◌, ◌%◌, ◌<◌, ◌^◌};
ghost use Rattle.optimum.specs.Head.{no_head, rank as ranking, leads as comes_first, best_of, beside as side_by_side};
ghost use Rattle.ties.specs.Code.{ranks, head_of};

// One more than the greatest rank in a key.
const RANKS: u64 = 256;

// What a gate or a part would do with one more tick: the next `width` ticks gain the same. The key is gain * RANKS + (RANKS - 1 - rank). A gain of 0 says that there is none: no Option, since such a head is compared and stored as any other.
#[derive(Clone, Copy)]
pub struct Head {
    pub key: u64,
    pub width: u64,
}

// The head with this width, gain and rank.
#[tactic(auto, using(crate::proofs::Keys::head_back))]
pub fn keyed(width: u64, gain: u64, rank: u64) -> Head
    requires { (gain < 2 ^ 56) × (rank < ranks) }
    ensures { head_of result ≡ record { width = width; gain = gain; rank = rank } }
{
    Head {
        key: gain * RANKS + (RANKS - 1 - rank),
        width,
    }
}

// The head that says that there is none.
pub fn none() -> Head
    ensures { head_of result ≡ no_head }
{
    keyed(0, 0, 0)
}

// The gain in a key.
pub fn gain_in(key: u64) -> u64
    ensures { result ≡ key / ranks }
{
    key / RANKS
}

// The rank in a key.
fn rank_in(key: u64) -> u64
    ensures { result ≡ ranks - 1 - key % ranks }
{
    RANKS - 1 - key % RANKS
}

// The rank of gate g among n gates. How it is counted, from the far end and so without n, stands in its definition alone.
pub fn rank(n: u32, g: u32) -> u32
    ensures { result ≡ ranking n g }
{
    g
}

// Whether a comes before b: a greater gain, or the same gain and a smaller rank.
#[tactic(auto, unfolding(optimum::specs::Head::leads))]
pub fn leads(a: Head, b: Head) -> bool
    ensures { result ≡ comes_first (head_of a) (head_of b) }
{
    b.key < a.key
}

// The head of a series part with the items a, b and c.
#[tactic(auto, unfolding(optimum::specs::Head::turn))]
pub fn best_of(a: Head, b: Head, c: Head) -> Head
    ensures { head_of result ≡ best_of (head_of a) (head_of b) (head_of c) }
{
    let first = if leads(b, a) { b } else { a };
    if leads(c, first) { c } else { first }
}

// The head of a parallel part with the sides a and b. For the crates above, whose gains have room for a sum.
#[tactic(auto, unfolding(optimum::specs::Head::beside))]
pub fn beside(a: Head, b: Head) -> Head
    requires { (head_of a).gain + (head_of b).gain < 2 ^ 56 }
    ensures { head_of result ≡ side_by_side (head_of a) (head_of b) }
{
    match (gain_in(a.key), gain_in(b.key)) {
        (0, _) => b,
        (_, 0) => a,
        (gain_a, gain_b) => keyed(
            a.width.min(b.width),
            gain_a + gain_b,
            rank_in(a.key).max(rank_in(b.key)),
        ),
    }
}
