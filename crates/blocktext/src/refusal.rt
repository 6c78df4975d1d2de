// The line of a refusal.
ghost use Rattle.std.specs.Prelude.{◌≤◌, length};
ghost use Rattle.model.specs.Printout.{refusal_line};
ghost use Rattle.loading.specs.Loads.{number_of, place_of};
ghost use Rattle.text.specs.Written.{Written, refusal_room};

use loading::numbers::numbers_of;
use model::Refusal;
use text::lines::write_refusal;

// Writes the line of a refusal to the front of the slice and answers its length.
pub fn print_refusal(refusal: Refusal, out: &mut [u8]) -> usize
    requires { refusal_room ≤ length out.old }
    ensures { Written (refusal_line (number_of refusal) (place_of refusal)) 0 out.old out.new result }
{
    let numbers = numbers_of(refusal);
    write_refusal(numbers.number as u64, numbers.place as u64, out)
}
