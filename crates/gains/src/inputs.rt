// The input activity of each gate.
ghost use Rattle.std.specs.Prelude.{◌≡◌, ℕ, ◌≤◌, ◌<◌, length, get_or};
ghost use Rattle.lists.specs.Over.{build, over};
ghost use Rattle.gains.specs.Activities.{brought_by, Summable, InputActivities};

use ordering::wires::Wires;

// Adds the activity of each wire's source to the sum of its target, from 0 on.
fn add_wires(n: usize, wires: Wires, activities: &[u32], out: &mut [u32])
    requires { Summable n wires.count wires.sources.now wires.targets.now activities.now out.old × ((g : ℕ) → g < n → get_or out.old g 0 ≡ 0) }
    ensures { out.new ≡ over (build n (brought_by wires.entry.count wires.entry.sources.now wires.entry.targets.now activities.now)) out.old }
{
    for i in 0..wires.count {
        out[wires.targets[i] as usize] += activities[wires.sources[i] as usize];
    }
}

// The input activity of each of n gates, to the front of `out`: the sum over its wires in; for gate `first` it is `input`.
pub fn input_activities(
    n: usize,
    wires: Wires,
    activities: &[u32],
    first: usize,
    input: u32,
    out: &mut [u32],
)
    requires { Summable n wires.count wires.sources.now wires.targets.now activities.now out.old × (first < n) }
    ensures { InputActivities n wires.entry.count wires.entry.sources.now wires.entry.targets.now activities.now first input out.old out.new }
{
    out[..n].fill(0);
    add_wires(n, wires, activities, out);
    out[first] = input;
}
