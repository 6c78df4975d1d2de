// The fields of a block file, on a slice and an offset: the core of the field reader, for any file and any offset. `wide` and `number_at` read numbers, and are public for the programs that run stored cases too.
ghost use Rattle.std.specs.Prelude.{◌≡◌, ◌+◌, ◌<◌, ◌≤◌, length};
ghost use Rattle.model.specs.Field.{number, field_at};

use model::Field;

// Bytes of a header: a tag and a two-byte length.
const HEADER_BYTES: usize = 3;

// A byte as a wider number.
pub fn wide(x: u8) -> u32
    ensures { (result ≡ x) × (result ≤ 255) }
{
    u32::from(x)
}

// The two-byte number whose high byte stands at place i.
pub fn number_at(s: &[u8], i: usize) -> u32
    requires { i + 1 < length s.now }
    ensures { result ≡ number s.now i }
{
    u32::from(u16::from_be_bytes([s[i], s[i + 1]]))
}

// The field at an offset, whatever the offset.
pub fn field_at(file: &[u8], offset: usize) -> Field
    ensures { result ≡ field_at file.now offset }
{
    if file.len().saturating_sub(offset) < HEADER_BYTES {
        return Field::NoHeader;
    }
    let tag = file[offset];
    let from = offset + HEADER_BYTES;
    let length = number_at(file, offset + 1) as usize;
    if file.len() - from < length {
        return Field::NoBody { tag, length };
    }
    Field::Whole {
        tag,
        from,
        to: from + length,
    }
}
