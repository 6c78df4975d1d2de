// The slack of each gate: what the longest path through it leaves of the deadline.
ghost use Rattle.std.specs.Prelude.{◌≡◌, ◌≤◌, length};
ghost use Rattle.lists.specs.Over.{build, over};
ghost use Rattle.model.specs.Limits.{max_gates};
ghost use Rattle.timing.specs.Slacks.{Reversed, Subtractable, Slackable, left_at, slack_in};

use crate::times::times_from;
use model::limits::MAX_GATES;
use ordering::wires::Wires;

// The first n elements of an order, the other way round.
fn reverse_order(n: usize, order: &[u32], back: &mut [u32])
    requires { (n ≤ max_gates) × (n ≤ length order.now) × (n ≤ length back.old) }
    ensures { Reversed n order.now back.new }
{
    back[..n].copy_from_slice(&order[..n]);
    back[..n].reverse();
}

// For each gate, what its latest time and the longest way on leave of the deadline. A gate's own delay stands in both times and counts once.
fn subtract_times(
    n: usize,
    times: &[u32],
    tails: &[u32],
    gate_delays: &[u32],
    deadline: u32,
    out: &mut [i32],
)
    requires { Subtractable n times.now tails.now gate_delays.now deadline out.old }
    ensures { out.new ≡ over (build n (left_at times.now tails.now gate_delays.now deadline)) out.old }
{
    for g in 0..n {
        let through = times[g] + (tails[g] - gate_delays[g]);
        out[g] = deadline as i32 - through as i32;
    }
}

// The slack of each of n gates, to the front of `out`.
pub fn write_slacks(
    n: usize,
    order: &[u32],
    wires: Wires,
    gate_delays: &[u32],
    arrival: u32,
    deadline: u32,
    out: &mut [i32],
)
    requires { Slackable n wires.count order.now wires.sources.now wires.targets.now wires.delays.now gate_delays.now arrival deadline out.old }
    ensures { out.new ≡ over (build n (slack_in n wires.entry.count wires.entry.sources.now wires.entry.targets.now wires.entry.delays.now gate_delays.now arrival deadline)) out.old }
{
    let mut times = [0u32; MAX_GATES];
    let mut tails = [0u32; MAX_GATES];
    let mut back = [0u32; MAX_GATES];
    reverse_order(n, order, &mut back);
    times_from(n, order, wires, gate_delays, arrival, &mut times);
    times_from(n, &back, wires.reversed(), gate_delays, 0, &mut tails);
    subtract_times(n, &times, &tails, gate_delays, deadline, out);
}
