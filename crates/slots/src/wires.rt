// The wires of a block, chained by the gates that they leave: a slot never leaves another gate than at the start, so the slots that leave a gate are one chain from start to end.
ghost use Rattle.std.specs.Prelude.{◌≡◌, ℕ, ◌≤◌, ◌<◌, length, get_or};
ghost use Rattle.model.specs.Limits.{max_gates, max_wires};
ghost use Rattle.ordering.specs.Chain.{Chained};

use ordering::chain::Chains;

// `count` wires of a block of `gates` gates, with the chains of those that leave a gate.
#[derive(Drop)]
pub struct ChainedWires<'a> {
    pub gates: usize,
    pub count: usize,
    pub sources: &'a [u32],
    pub chains: Chains,
    pub ghost few_gates: { gates ≤ max_gates },
    pub ghost few_wires: { count ≤ max_wires },
    pub ghost all_sources: { count ≤ length sources.now },
    pub ghost sources_below: { (i : ℕ) → i < count → get_or sources.now i 0 < gates },
    pub ghost chained: { Chained sources.now count chains.heads chains.links },
}

impl<'a> ChainedWires<'a> {
    pub fn new(gates: usize, count: usize, sources: &'a [u32]) -> ChainedWires<'a>
        requires few { (gates ≤ max_gates) × (count ≤ max_wires) × (count ≤ length sources.now) }
        requires sources_below { (i : ℕ) → i < count → get_or sources.now i 0 < gates }
        ensures same { (result.gates ≡ gates) × (result.count ≡ count) × (result.sources ≡ sources.entry) }
    {
        let chains = Chains::of(count, sources);
        ChainedWires {
            gates,
            count,
            sources,
            chains,
        }
    }
}
