//! The entries that a body repeats, one after another.

use crate::cursor::Cursor;
use crate::entry::{Entry, ReadEntry};
use crate::fault::FieldFault;
use std::marker::{Model, PhantomData};

/// The entries that a body repeats, one after another up to its end. An iterator over them: a
/// contract sees the list of the entries that are left. It takes no memory.
#[derive(Drop)]
pub struct Row<'a, E: Entry> {
    /// The bytes of the entries that are left.
    bytes: &'a [u8],
    /// The type of the entries; no data.
    of: PhantomData<E>,
}

impl<'a, E: Entry> Model for Row<'a, E> {
    ghost use Rattle.std.specs.Prelude.{List};
    ghost use Rattle.omf_body.specs.Layouts.{SpellsRow, entries_of};

    ghost Value = { List E };

    ghost view = { λ row. entries_of E.layout row.bytes.now };

    ghost invariant = { λ row. SpellsRow E.layout row.bytes.now (entries_of E.layout row.bytes.now) };
}

impl<'a, E: ReadEntry<'a>> Row<'a, E> {
    ghost use Rattle.std.specs.Prelude.{◌≡◌, IfOk, IfErr};
    ghost use Rattle.omf_body.specs.Layouts.{SpellsRow, FaultsRow};

    /// Checks that `bytes` are entries up to their end, and returns the row of them.
    ///
    /// # Errors
    /// The fault of the first entry that can't be read.
    pub(crate) fn read(bytes: &'a [u8]) -> Result<Row<'a, E>, FieldFault>
        ensures spelled { IfOk result (λ row. SpellsRow E.layout bytes.now row) }
        ensures fault { IfErr result (λ f. FaultsRow E.layout bytes.now f) }
    {
        let mut cursor = Cursor::new(bytes);
        while !cursor.is_empty() {
            let _ = E::read(&mut cursor)?;
        }
        Ok(Row {
            bytes,
            of: PhantomData,
        })
    }

    /// A second row of the entries that are left; `self` stays as it is.
    pub fn copy(&self) -> Row<'a, E>
        ensures { result ≡ self.now }
    {
        Row {
            bytes: self.bytes,
            of: PhantomData,
        }
    }

    /// The bytes of the entries that are left.
    pub fn bytes(&self) -> &'a [u8]
        ensures { SpellsRow E.layout result.now self.now }
    {
        self.bytes
    }
}

impl<'a, E: ReadEntry<'a>> Iterator for Row<'a, E> {
    ghost use Rattle.std.specs.Array.{list_steps};
    ghost use Rattle.std.specs.Iterator.{item_count};

    type Item = E;

    ghost next_gives = { list_steps };

    ghost remaining = { item_count (λ entries. entries) };

    /// The next entry, which is then no longer in the row; `None` if no entry is left.
    fn next(&mut self) -> Option<E> {
        if self.bytes.is_empty() {
            return None;
        }
        let mut cursor = Cursor::new(self.bytes);
        match E::read(&mut cursor) {
            Ok(entry) => {
                self.bytes = cursor.rest().bytes;
                Some(entry)
            }
            Err(_) => unreachable!(),
        }
    }
}
