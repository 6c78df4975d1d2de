// The latest times of a network from its arrays alone: the chains of its wires are made here.
ghost use Rattle.timing.specs.Times.{Timeable, LatestTimes};

use crate::latest::latest_times;
use ordering::chain::Chains;
use ordering::wires::Wires;

// The latest time at the output of each of n gates, where signals start at `base`, to the front of `times`.
pub fn times_from(
    n: usize,
    order: &[u32],
    wires: Wires,
    gate_delays: &[u32],
    base: u32,
    times: &mut [u32],
)
    requires { Timeable n wires.count order.now wires.sources.now wires.targets.now wires.delays.now gate_delays.now base times.old }
    ensures { LatestTimes n wires.entry.count wires.entry.sources.now wires.entry.targets.now wires.entry.delays.now gate_delays.now base times.old times.new }
{
    let chains = Chains::of(wires.count, wires.targets);
    latest_times(n, order, wires, gate_delays, &chains, base, times);
}
