// The refusal of a block that is not series-parallel, for `?`.
ghost use Rattle.std.specs.Prelude.{◌≡◌};
ghost use Rattle.model.specs.declared.Refusal.TheVariants.{NotSeriesParallel};

use crate::NotSeriesParallel;
use model::Refusal;

impl From<NotSeriesParallel> for Refusal {
    ghost from_gives = { λ e r. r ≡ NotSeriesParallel e.gate };

    fn from(e: NotSeriesParallel) -> Refusal {
        Refusal::NotSeriesParallel { gate: e.gate }
    }
}
