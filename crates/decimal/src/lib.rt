// The decimal digits of a 64-bit number. The powers of ten are found by multiplication, each ten times the one before, as far as the number needs: not by `ilog10` and `pow`, nor left to the kit's `itoa`, since this formula is what was asked (docs/DECISIONS.md, "Powers of ten by multiplication").
#![tactic(auto)]

ghost use Rattle.std.specs.Prelude.{◌≡◌, ◌+◌, ◌-◌, ◌^◌, ◌<◌, length, MatchOption};
ghost use Rattle.model.specs.Printout.{digits};
ghost use Rattle.decimal.specs.Placed.{placed, behind};

// The leading digit of a number: the power of ten that it counts, and how many digits there are from it on.
#[derive(Clone, Copy)]
struct LeadingDigit {
    power: u64,
    count: usize,
}

// The leading digit of n. While the loop goes on, the next power is at most n, so that it fits 64 bits.
#[tactic(auto, using(crate::proofs::Digits::some_digit, crate::proofs::Digits::more_than, crate::proofs::Digits::at_most_twenty))]
fn leading_digit_of(n: u64) -> LeadingDigit
    ensures { (result.count ≡ length (digits n)) × (result.power ≡ 10 ^ (result.count - 1)) }
{
    let tenth = n / 10;
    let mut power: u64 = 1;
    let mut count = 1;
    while power <= tenth {
        power *= 10;
        count += 1;
    }
    LeadingDigit { power, count }
}

// How many digits n has: 1 for 0, at most 20.
pub fn digit_count(n: u64) -> usize
    ensures { result ≡ length (digits n) }
{
    leading_digit_of(n).count
}

// Writes the digits of n at place `at` of the slice and answers the place behind them; where they do not fit there, writes nothing and answers None.
#[tactic(auto, using(crate::proofs::Digits::some_digit, crate::proofs::Placed::behind_fits, crate::proofs::Placed::placed_not))]
pub fn write_digits(n: u64, out: &mut [u8], at: usize) -> Option<usize>
    ensures answer { MatchOption result (length out.old < at + length (digits n)) (λ next. (at < next) × (next ≡ behind (digits n) at out.old)) }
    ensures written { out.new ≡ placed (digits n) at out.old }
{
    let leading = leading_digit_of(n);
    if out.len().saturating_sub(at) < leading.count {
        return None;
    }
    let end = at + leading.count;
    let mut power = leading.power;
    for place in &mut out[at..end] {
        *place = b'0' + (n / power % 10) as u8;
        power /= 10;
    }
    Some(end)
}
