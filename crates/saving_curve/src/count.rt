// What ticks counted off a curve earn.
ghost use Rattle.std.specs.Prelude.{◌≡◌, ◌^◌, ◌<◌};
ghost use Rattle.model.specs.Curve.{count_off};
ghost use Rattle.saving_curve.specs.Position.{pairs_of};

use crate::position::{Curve, Position};

// What `ticks` ticks earn, counted off the front of the curve; those beyond its end earn 0.
// Public for the crates above only: they have shown that it fits 64 bits.
pub fn count_off(curve: Curve, ticks: u32) -> u64
    requires { count_off (pairs_of curve) ticks < 2 ^ 64 }
    ensures { result ≡ count_off (pairs_of curve.entry) ticks }
{
    let mut next = Position::front();
    let mut left = ticks;
    let mut earned: u64 = 0;
    // A `while`: each taking says where the next one begins, and none follows the last tick that is wanted.
    while 0 < left && next.pair < curve.pairs {
        let taken = next.take(curve, left);
        next = taken.next;
        left -= taken.ticks;
        earned += taken.earned();
    }
    earned
}
