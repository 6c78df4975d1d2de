// The fewest ticks, counted off the front of a curve, that reach a wanted saving.
ghost use Rattle.std.specs.Prelude.{ℕ, ◌*◌, ◌^◌, ◌≤◌, ◌<◌};
ghost use Rattle.lists.specs.Search.{Lowest};
ghost use Rattle.model.specs.Limits.{max_pairs};
ghost use Rattle.model.specs.Curve.{all_ticks, count_off};
ghost use Rattle.saving_curve.specs.Position.{pairs_of};
ghost use Rattle.saving_curve.specs.Reach.{Reaches};

use crate::position::{Curve, Position};

// The fewest ticks of one gain that earn `need`.
fn ticks_of(gain: u64, need: u64) -> u64
    requires { (1 ≤ gain) × (1 ≤ need) }
    ensures { Lowest (λ (k : ℕ). need ≤ k * gain) result }
{
    need.div_ceil(gain)
}

// The fewest ticks with which the saving at start and what the ticks earn, counted off the front of the curve, come to the wanted saving; none where the whole curve stays below it.
// Public for `reaching` alone: the pairs that it has are those of a curve, so that the ticks, and all that they earn, fit.
pub fn ticks_for(curve: Curve, at_start: u64, wanted: u64) -> Option<u64>
    requires { (curve.pairs ≤ max_pairs) × (count_off (pairs_of curve) (all_ticks (pairs_of curve)) < 2 ^ 64) }
    ensures { Reaches (pairs_of curve.entry) at_start wanted result }
{
    if wanted <= at_start {
        return Some(0);
    }
    let mut ticks: u64 = 0;
    let mut need = wanted - at_start;
    for pair in 0..curve.pairs {
        let front = Position { pair, used: 0 };
        let whole = front.rest(curve);
        let earned = whole.earned();
        if need <= earned {
            return Some(ticks + ticks_of(whole.gain, need));
        }
        need -= earned;
        ticks += u64::from(whole.ticks);
    }
    None
}
