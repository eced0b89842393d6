//! The one way in which an entry is written, and read.

ghost use Rattle.std.specs.Prelude.{◌≡◌, ◌++◌, Ok, Err, IfOk, IfErr, OnOk, IsTrue};
ghost use Rattle.omf_body.specs.Layouts.{Layout, IsLayout};

use crate::cursor::Cursor;
use crate::fault::FieldFault;
use std::alloc::AllocError;

/// An entry that a body repeats, and the one way in which it is written.
pub trait Entry: Sized + Drop {
    /// The entry's bytes, and how they are read.
    ghost layout: { Layout Self };

    /// Appends the entry's bytes to `out`.
    ///
    /// # Errors
    /// `AllocError` only if memory runs out.
    fn write(&self, out: &mut Vec<u8>) -> Result<(), AllocError>
        ensures { OnOk result (out.new.items ≡ out.old.items ++ layout.bytes self.now) };

    ghost laws: { IsLayout Self layout };
}

/// An entry that a body repeats, borrowing from a file, and the one way in which it is read.
pub trait ReadEntry<'a>: Entry {
    /// Reads the entry at the front of the bytes that are left, its fields in order.
    ///
    /// # Errors
    /// The fault of the first field that can't be read, or `BadBody` if a field has no listed
    /// value.
    fn read(cursor: &mut Cursor<'a>) -> Result<Self, FieldFault>
        ensures read { IfOk result (λ e. Self.layout.read cursor.old ≡ Ok (e, cursor.new)) }
        ensures spelled { IfOk result (λ e. cursor.old ≡ Self.layout.bytes e ++ cursor.new) }
        ensures sound { IfOk result (λ e. IsTrue (Self.layout.is_sound e)) }
        ensures fault { IfErr result (λ f. Self.layout.read cursor.old ≡ Err f) };
}
