// The wires at each gate, as chains through the wires: so that one pass over all gates looks at each wire once.
ghost use Rattle.std.specs.Prelude.{◌≡◌, ℕ, ◌≤◌, ◌<◌, length, get_or};
ghost use Rattle.model.specs.Limits.{max_gates, max_wires};
ghost use Rattle.ordering.specs.Chain.{Chainable, Chained, link_to};

use model::limits::{MAX_GATES, MAX_WIRES};

// For each gate, one more than the last wire of its chain, and for each wire, one more than the wire before it; 0 where there is none.
#[derive(Drop)]
pub struct Chains {
    pub heads: [u32; MAX_GATES],
    pub links: [u32; MAX_WIRES],
}

impl Chains {
    // The chains of the first m wires by the gates `ends` at one of their ends.
    pub fn of(m: usize, ends: &[u32]) -> Self
        requires few { (m ≤ max_wires) × (m ≤ length ends.now) }
        requires to_gates { (i : ℕ) → i < m → get_or ends.now i 0 < max_gates }
        ensures { Chained ends.now m result.heads result.links }
    {
        // Filled where they stand: arrays that are put into the struct are copied.
        let mut chains = Chains {
            heads: [0; MAX_GATES],
            links: [0; MAX_WIRES],
        };
        chain_wires(m, ends, &mut chains.heads, &mut chains.links);
        chains
    }

    // The wire at which the chain of gate g starts: the last one there.
    pub fn first(&self, g: usize) -> Option<usize>
        requires { g < max_gates }
        ensures { link_to result ≡ get_or self.now.heads g 0 }
    {
        wire_at(self.heads[g])
    }

    // The wire that follows wire i in its chain.
    pub fn next(&self, i: usize) -> Option<usize>
        requires { i < max_wires }
        ensures { link_to result ≡ get_or self.now.links i 0 }
    {
        wire_at(self.links[i])
    }
}

// The wire that an element of the chains names.
pub fn wire_at(link: u32) -> Option<usize>
    ensures { link_to result ≡ link }
{
    (link as usize).checked_sub(1)
}

// Links the first m wires by the gates `ends` at one of their ends.
pub fn chain_wires(m: usize, ends: &[u32], heads: &mut [u32], links: &mut [u32])
    requires { Chainable ends.now m heads.old links.old }
    ensures { Chained ends.now m heads.new links.new }
{
    for (i, &end) in ends[..m].iter().enumerate() {
        let g = end as usize;
        links[i] = heads[g];
        heads[g] = (i + 1) as u32;
    }
}
