// The latest time at each gate's output: each gate after the gates that its wires come from.
ghost use Rattle.std.specs.Prelude.{◌≡◌, ℕ, ◌<◌, ◌≤◌, get_or};
ghost use Rattle.model.specs.Slack.{latest_in};
ghost use Rattle.model.specs.Arrays.{wires_in};
ghost use Rattle.timing.specs.Times.{time_bound, Walkable, Ready, LatestTimes};

use ordering::chain::Chains;
use ordering::wires::Wires;

// The latest time at which a wire has brought its signal to gate g; `base` where no wire leads there.
// Each wire into the gate is looked at once. (`n` is there for the promise.)
fn latest_into(g: usize, n: usize, wires: Wires, chains: &Chains, times: &[u32], base: u32) -> u32
    requires { (g < n) × (base ≤ time_bound) × Walkable n wires.count wires.sources.now wires.targets.now wires.delays.now chains.now.heads chains.now.links times.now }
    ensures { result ≡ latest_in (wires_in wires.entry.count wires.entry.sources.now wires.entry.targets.now wires.entry.delays.now) (λ (a : ℕ). get_or times.now a 0) base g }
{
    let mut latest = base;
    let mut next = chains.first(g);
    // A `while`: each wire's link names the next wire of the chain, so no range or slice has them in this order.
    while let Some(i) = next {
        let a = wires.sources[i] as usize;
        latest = latest.max(times[a] + wires.delays[i]);
        next = chains.next(i);
    }
    latest
}

// The latest time at the output of each of n gates, where signals start at `base`, to the front of `times`.
pub fn latest_times(
    n: usize,
    order: &[u32],
    wires: Wires,
    gate_delays: &[u32],
    chains: &Chains,
    base: u32,
    times: &mut [u32],
)
    requires { Ready n wires.count order.now wires.sources.now wires.targets.now wires.delays.now gate_delays.now chains.now.heads chains.now.links base times.old }
    ensures { LatestTimes n wires.entry.count wires.entry.sources.now wires.entry.targets.now wires.entry.delays.now gate_delays.now base times.old times.new }
{
    for &gate in &order[..n] {
        let g = gate as usize;
        let latest = latest_into(g, n, wires, chains, &*times, base);
        times[g] = latest + gate_delays[g];
    }
}
