// Increases as bytes, four each, the high byte first. Public for `laying` alone.
#![tactic(auto)]

ghost use Rattle.std.specs.Prelude.{◌≡◌, ◌*◌, ◌≤◌, length, take};
ghost use Rattle.lists.specs.Over.{over};
ghost use Rattle.model.specs.Limits.{max_gates};
ghost use Rattle.model.specs.Layout.{list_bytes, increase_bytes};

// Writes the first n increases to the front of `out`, four bytes each, the high byte first.
pub fn write_increases(n: usize, increases: &[u32], out: &mut [u8])
    requires { (n ≤ max_gates) × (n ≤ length increases.now) × (increase_bytes * n ≤ length out.old) }
    ensures { out.new ≡ over (list_bytes (take n increases.now)) out.old }
{
    for (i, increase) in increases[..n].iter().enumerate() {
        let at = 4 * i;
        out[at..at + 4].copy_from_slice(&increase.to_be_bytes());
    }
}
