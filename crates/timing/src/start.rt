// Start, the longest path with no increase.
ghost use Rattle.timing.specs.Start.{Startable, StartIs};

use crate::times::times_from;
use model::limits::MAX_GATES;
use ordering::wires::Wires;

// How long a longest path from the first gate to the last lasts as drawn.
pub fn start_time(n: usize, order: &[u32], wires: Wires, gate_delays: &[u32]) -> u32
    requires { Startable n wires.count order.now wires.sources.now wires.targets.now wires.delays.now gate_delays.now }
    ensures { StartIs n wires.entry.count wires.entry.sources.now wires.entry.targets.now wires.entry.delays.now gate_delays.now result }
{
    let mut times = [0u32; MAX_GATES];
    times_from(n, order, wires, gate_delays, 0, &mut times);
    times[n - 1]
}
