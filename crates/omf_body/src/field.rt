//! Which bytes of a word a reference is to.

ghost use Rattle.std.specs.Prelude.{◌≡◌, ◌∷◌, Ok, Err, IfOk, IfErr};
ghost use Rattle.omf_body.specs.Fields.{field_byte, read_field};

use crate::cursor::Cursor;
use crate::fault::FieldFault;

/// Which bytes of its target's address a reference has: the low byte, the high byte, or both. (8080
/// Object Module Formats, relocation record; the numbers are this project's.)
#[derive(Clone, Copy, PartialEq, Eq, Debug)]
pub enum Field {
    /// The low byte alone.
    Low = 1,
    /// The high byte alone.
    High = 2,
    /// Both bytes, the low one first.
    Both = 3,
}

impl Field {
    /// The byte that a record has for this field: 1, 2 or 3.
    pub fn byte(self) -> u8
        ensures { result ≡ field_byte self }
    {
        self as u8
    }

    /// Reads a field byte from the cursor.
    ///
    /// # Errors
    /// `BadBody` if the body ends, or the byte isn't 1, 2 or 3.
    pub fn read(cursor: &mut Cursor) -> Result<Field, FieldFault>
        ensures read { IfOk result (λ field. read_field cursor.old ≡ Ok (field, cursor.new)) }
        ensures spelled { IfOk result (λ field. cursor.old ≡ field_byte field ∷ cursor.new) }
        ensures fault { IfErr result (λ fault. read_field cursor.old ≡ Err fault) }
    {
        match cursor.byte()? {
            1 => Ok(Field::Low),
            2 => Ok(Field::High),
            3 => Ok(Field::Both),
            _ => Err(FieldFault::BadBody),
        }
    }
}
