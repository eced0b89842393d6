//! Bytes of a content record, where they lie in a file.

use std::marker::Model;

/// Bytes of a record's body, borrowed from the file. A contract sees the list of them.
#[derive(Drop)]
pub struct Bytes<'a> {
    /// The bytes themselves.
    pub bytes: &'a [u8],
}

impl<'a> Model for Bytes<'a> {
    ghost use Rattle.std.specs.Prelude.{List, ℕ};

    ghost Value = { List ℕ };

    ghost view = { λ b. b.bytes.now };
}
