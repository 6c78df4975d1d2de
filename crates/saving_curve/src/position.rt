// A position on a curve, by value: each taking of ticks hands back the next position, the ticks taken and the gain of each.
ghost use Rattle.std.specs.Prelude.{◌≡◌, ◌+◌, ◌*◌, ◌^◌, ◌<◌};
ghost use Rattle.saving_curve.specs.Position.{pairs_of, at_front, left_at, taken_at};

// A curve of so many pairs in front of two slices; what stands past a slice's end counts as 0.
#[derive(Clone, Copy)]
pub struct Curve<'a> {
    pub widths: &'a [u32],
    pub gains: &'a [u64],
    pub pairs: usize,
}

// A place on a curve: a pair, and how many of its ticks are used.
#[derive(Clone, Copy)]
pub struct Position {
    pub pair: usize,
    pub used: u32,
}

// What a taking hands back: the next position, how many ticks were taken, and the gain of each of them. Document 01's "gain taken" is the product of the last two, which need not fit 64 bits in slices that hold no curve.
#[derive(Clone, Copy)]
pub struct Taken {
    pub next: Position,
    pub ticks: u32,
    pub gain: u64,
}

impl Taken {
    // What the ticks taken earn, where it fits 64 bits.
    pub fn earned(self) -> u64
        requires { self.ticks * self.gain < 2 ^ 64 }
        ensures { result ≡ self.ticks * self.gain }
    {
        u64::from(self.ticks) * self.gain
    }
}

impl Position {
    // The front of a curve.
    pub fn front() -> Self
        ensures { result ≡ at_front }
    {
        Self { pair: 0, used: 0 }
    }

    // At most `ticks` ticks of the pair that the position stands in; none past the end.
    pub fn take(self, curve: Curve, ticks: u32) -> Taken
        ensures { result ≡ taken_at (pairs_of curve.entry) self ticks }
    {
        let rest = self.rest(curve);
        let taken = ticks.min(rest.ticks);
        if self.pair < curve.pairs && ticks <= rest.ticks {
            Taken {
                next: Position {
                    pair: self.pair,
                    used: self.used + ticks,
                },
                ticks: taken,
                gain: rest.gain,
            }
        } else {
            Taken {
                ticks: taken,
                ..rest
            }
        }
    }

    // All that is left of the pair that the position stands in, and on to the next pair: what one tick more than is left takes. None past the end.
    pub fn rest(self, curve: Curve) -> Taken
        ensures taken { result ≡ taken_at (pairs_of curve.entry) self (left_at (pairs_of curve.entry) self + 1) }
        ensures used_fits { self.used + result.ticks < 2 ^ 32 }
    {
        let pair = self.pair;
        if curve.pairs <= pair {
            return Taken {
                next: self,
                ticks: 0,
                gain: 0,
            };
        }
        let next = pair + 1;
        let width = curve.widths.get(pair).copied().unwrap_or(0);
        let gain = curve.gains.get(pair).copied().unwrap_or(0);
        Taken {
            next: Position {
                pair: next,
                used: 0,
            },
            ticks: width.saturating_sub(self.used),
            gain,
        }
    }
}
