// The field reader: the file with the offset of the field that is due. It hands out the field and its body, and goes on behind it.
// `blockfile::read` takes every field, body and next offset of a file from it.
ghost use Rattle.std.specs.Prelude.{◌≡◌};
ghost use Rattle.model.specs.Field.{field_at};
ghost use Rattle.fields.specs.Behind.{offset_behind};
ghost use Rattle.fields.specs.Body.{BodyOf};

use crate::field::field_at;
use model::Field;

#[derive(Clone, Copy)]
pub struct FieldReader<'a> {
    pub file: &'a [u8],
    pub offset: usize,
}

impl<'a> FieldReader<'a> {
    // A reader of the file at an offset.
    pub fn new(file: &'a [u8], offset: usize) -> Self
        ensures { (result.file ≡ file.entry) × (result.offset ≡ offset) }
    {
        FieldReader { file, offset }
    }

    // The field that is due.
    pub fn field(self) -> Field
        ensures { result ≡ field_at self.entry.file.now self.entry.offset }
    {
        field_at(self.file, self.offset)
    }

    // The body of the field that is due, as the bytes of the reader's file: from where it begins to where it ends, and `&file[0..0]` where no whole field stands.
    pub fn body(self) -> &'a [u8]
        ensures { BodyOf self.entry.file self.entry.offset result }
    {
        match self.field() {
            Field::Whole { from, to, .. } => &self.file[from..to],
            Field::NoHeader | Field::NoBody { .. } => &self.file[..0],
        }
    }

    // The reader of the same file behind the field that is due: at the field's end, and where it was where no whole field stands.
    pub fn behind(self) -> Self
        ensures { (result.file ≡ self.entry.file) × (result.offset ≡ offset_behind self.entry.file.now self.entry.offset) }
    {
        match self.field() {
            Field::Whole { to, .. } => FieldReader::new(self.file, to),
            Field::NoHeader | Field::NoBody { .. } => self,
        }
    }
}
