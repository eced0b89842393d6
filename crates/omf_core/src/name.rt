//! Names that are kept.

ghost use Rattle.std.specs.Prelude.{◌≡◌, ◌↔◌, List, ℕ, Some, nat_eq, false, IsTrue, IfOk, OnOk, IsErrOf};
ghost use Rattle.std.specs.Cmp.{partial_equiv_from_equiv};
ghost use Rattle.std.specs.Cmp.Lexicographic.{pointwise, nat_list_eq_equiv, bytes_decides};
ghost use Rattle.std.specs.Hash as fed;
ghost use Rattle.std.specs.List.{list_all};
ghost use Rattle.std.proofs.Common.{ap};
ghost use Rattle.omf_core.specs.Name.{is_name, is_name_byte};

use crate::NameFault;
use std::alloc::{AllocError, Global};
use std::hash::{Hash, Hasher};
use std::marker::Model;
use std::{fmt, str};

/// The most bytes that a name has: its length byte counts them.
const LONGEST_NAME: usize = 255;

/// A name as an object file has it: 1 to 255 bytes, each 21h to 7Eh. A contract sees the list of its bytes.
/// (8080 Object Module Formats has names of a length byte and characters; the ranges are this project's.)
#[derive(Debug, Drop)]
pub struct Name {
    /// The bytes of the name.
    bytes: Vec<u8>,
}

impl Model for Name {
    ghost Value = { List ℕ };

    ghost view = { λ name. name.bytes.items };

    ghost invariant = { λ name. IsTrue (is_name name.bytes.items) };
}

impl Name {
    /// The name of these bytes, which are copied.
    ///
    /// # Errors
    /// `BadName` exactly if there are none or more than 255 of them, or one is outside 21h to 7Eh;
    /// `Memory` only if memory for the copy runs out.
    pub fn new(alloc: Global, bytes: &[u8]) -> Result<Name, NameFault>
        ensures ok { IfOk result (λ name. name ≡ bytes.now) }
        ensures taken { OnOk result (IsTrue (is_name bytes.now)) }
        ensures bad { IsErrOf result NameFault.BadName ↔ (is_name bytes.now ≡ false) }
    {
        if !is_name(bytes) {
            return Err(NameFault::BadName);
        }
        let bytes = Vec::from_slice(alloc, bytes).map_err(|_| NameFault::Memory)?;
        Ok(Name { bytes })
    }

    /// A copy of the name.
    ///
    /// # Errors
    /// `AllocError` only if memory runs out.
    pub fn copy(&self, alloc: Global) -> Result<Name, AllocError>
        ensures same { IfOk result (λ name. name ≡ self.now) }
        ensures name { OnOk result (IsTrue (is_name self.now)) }
    {
        let bytes = Vec::from_slice(alloc, self.bytes())?;
        Ok(Name { bytes })
    }

    /// The name's bytes, 1 to 255 of them, each 21h to 7Eh. It takes no memory.
    pub fn bytes(&self) -> &[u8]
        ensures value { result.now ≡ self.now }
        ensures name { IsTrue (is_name self.now) }
    {
        self.bytes.as_slice()
    }
}

impl PartialEq for Name {
    ghost eq = { pointwise nat_eq };

    ghost laws = { partial_equiv_from_equiv nat_list_eq_equiv };

    fn eq(&self, other: &Name) -> bool {
        self.bytes() == other.bytes()
    }
}

impl Eq for Name {
    ghost laws = { nat_list_eq_equiv };
}

impl Hash for Name {
    ghost hash_input = { fed.slice fed.u8 };

    ghost respects_eq = { λ x y same. ap (fed.slice fed.u8) ((bytes_decides x y).0 same) };

    fn hash<H: Hasher>(&self, state: &mut H) {
        self.bytes().hash(state);
    }
}

impl fmt::Display for Name {
    ghost output = { λ name. Some name };

    /// Writes the name's bytes, which are printable ASCII.
    fn fmt<W: fmt::Write>(&self, f: &mut fmt::Formatter<W>) -> fmt::Result {
        match str::from_utf8(self.bytes()) {
            Ok(text) => f.write_str(text),
            Err(_) => unreachable!(),
        }
    }
}

/// Whether `bytes` are a name: 1 to 255 bytes, each 21h to 7Eh.
pub(crate) fn is_name(bytes: &[u8]) -> bool
    ensures { result ≡ is_name bytes.now }
{
    1 <= bytes.len() && bytes.len() <= LONGEST_NAME && are_name_bytes(bytes)
}

/// Whether each byte is 21h to 7Eh.
fn are_name_bytes(bytes: &[u8]) -> bool
    ensures { result ≡ list_all is_name_byte bytes.now }
{
    bytes.iter().all(|byte| 0x21 <= *byte && *byte <= 0x7E)
}
