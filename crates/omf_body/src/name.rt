//! Names where they lie in a file.

use omf_core::Name;
use std::marker::Model;

/// A name where it lies in a file: 1 to 255 bytes, each 21h to 7Eh. A contract sees the list of its bytes.
#[derive(Drop)]
pub struct NameBytes<'a> {
    /// The bytes of the name, borrowed from the file.
    bytes: &'a [u8],
}

impl<'a> Model for NameBytes<'a> {
    ghost use Rattle.std.specs.Prelude.{List, ℕ, IsTrue};
    ghost use Rattle.omf_core.specs.Name.{is_name};

    ghost Value = { List ℕ };

    ghost view = { λ name. name.bytes.now };

    ghost invariant = { λ name. IsTrue (is_name name.bytes.now) };
}

impl<'a> NameBytes<'a> {
    ghost use Rattle.std.specs.Prelude.{◌≡◌, IsTrue};
    ghost use Rattle.omf_core.specs.Name.{is_name};

    /// The name of these bytes, which must be 1 to 255, each 21h to 7Eh.
    pub(crate) fn new(bytes: &'a [u8]) -> NameBytes<'a>
        requires { IsTrue (is_name bytes.now) }
        ensures { result ≡ bytes.now }
    {
        NameBytes { bytes }
    }

    /// The bytes of a [`Name`], borrowed from it.
    pub fn of(name: &'a Name) -> NameBytes<'a>
        ensures { result ≡ name.now }
    {
        NameBytes::new(name.bytes())
    }

    /// The name's bytes, 1 to 255 of them, each 21h to 7Eh. It takes no memory.
    pub fn bytes(&self) -> &'a [u8]
        ensures value { result.now ≡ self.now }
        ensures name { IsTrue (is_name self.now) }
    {
        self.bytes
    }
}
