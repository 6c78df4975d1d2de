// The pieces of a line: words and numbers, written at a place of a lent slice. The place is a parameter beside the slice, and not a cursor that holds both: in the contract of a struct with a `&mut` slice the caller's bytes have no `old` and `new`.
ghost use Rattle.std.specs.Prelude.{[], ◌∷◌, ◌++◌, ◌+◌, ◌≤◌, length};
ghost use Rattle.model.specs.Printout.{digits};
ghost use Rattle.text.specs.Written.{Written, number_room, word_room, named_room};

use decimal::write_digits;

// Bytes of a number, the byte behind it counted, at most.
pub const NUMBER_ROOM: usize = 20 + 1;

// Bytes of a word, a number and the byte behind it, at most.
pub const NAMED_ROOM: usize = 8 + NUMBER_ROOM;

// Writes the digits of n at place `at` and the byte `end` behind them, and answers the place behind that.
pub fn write_number(n: u64, end: u8, out: &mut [u8], at: usize) -> usize
    requires { at + number_room ≤ length out.old }
    ensures { (result ≤ at + number_room) × Written (digits n ++ end ∷ []) at out.old out.new result }
{
    let next = write_digits(n, out, at).unwrap();
    out[next] = end;
    next + 1
}

// Writes a word at place `at`, the digits of n behind it and the byte `end` behind them, and answers the place behind that.
pub fn write_named(word: &[u8], n: u64, end: u8, out: &mut [u8], at: usize) -> usize
    requires { (length word.now ≤ word_room) × (at + named_room ≤ length out.old) }
    ensures { (result ≤ at + named_room) × Written (word.now ++ digits n ++ end ∷ []) at out.old out.new result }
{
    let next = at + word.len();
    out[at..next].copy_from_slice(word);
    write_number(n, end, out, next)
}
