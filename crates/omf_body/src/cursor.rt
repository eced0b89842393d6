//! A body is read field by field.

use crate::bytes::Bytes;
use crate::fault::FieldFault;
use crate::name::NameBytes;
use omf_core::split_name;
use std::marker::Model;

/// Reads a body field by field, from its front. A contract sees the list of the bytes that are
/// left. After a fault the cursor is unchanged.
#[derive(Drop)]
pub struct Cursor<'a> {
    /// The bytes that are left.
    rest: &'a [u8],
}

impl<'a> Model for Cursor<'a> {
    ghost use Rattle.std.specs.Prelude.{List, ℕ};

    ghost Value = { List ℕ };

    ghost view = { λ cursor. cursor.rest.now };
}

impl<'a> Cursor<'a> {
    ghost use Rattle.std.specs.Prelude.{◌≡◌, ◌∷◌, [], ◌++◌, ◌↔◌, IfOk, IfErr, OnErr, IsTrue, Ok, Err};
    ghost use Rattle.omf_core.specs.Name.{is_name, name_spelling};
    ghost use Rattle.omf_body.specs.Fields.{read_byte, read_word, read_name, word_bytes};

    /// A cursor that reads these bytes from the first one on.
    pub fn new(bytes: &'a [u8]) -> Cursor<'a>
        ensures { result ≡ bytes.now }
    {
        Cursor { rest: bytes }
    }

    /// Whether no byte of the body is left to read.
    pub fn is_empty(&self) -> bool
        ensures { IsTrue result ↔ (self.now ≡ []) }
    {
        self.rest.is_empty()
    }

    /// The bytes that are left, all of them; they borrow from the body.
    pub fn rest(self) -> Bytes<'a>
        ensures { result ≡ self.entry }
    {
        Bytes { bytes: self.rest }
    }

    /// Reads a byte.
    ///
    /// # Errors
    /// `BadBody` if no byte is left; the cursor is then unchanged.
    pub fn byte(&mut self) -> Result<u8, FieldFault>
        ensures read { IfOk result (λ byte. read_byte self.old ≡ Ok (byte, self.new)) }
        ensures spelled { IfOk result (λ byte. self.old ≡ byte ∷ self.new) }
        ensures fault { IfErr result (λ fault. read_byte self.old ≡ Err fault) }
        ensures unchanged { OnErr result (self.new ≡ self.old) }
    {
        match self.rest {
            [] => Err(FieldFault::BadBody),
            [byte, rest @ ..] => {
                self.rest = rest;
                Ok(*byte)
            }
        }
    }

    /// Reads two bytes as a word, low byte first.
    ///
    /// # Errors
    /// `BadBody` if fewer than two bytes are left; the cursor is then unchanged.
    pub fn word(&mut self) -> Result<u16, FieldFault>
        ensures read { IfOk result (λ word. read_word self.old ≡ Ok (word, self.new)) }
        ensures spelled { IfOk result (λ word. self.old ≡ word_bytes word ++ self.new) }
        ensures fault { IfErr result (λ fault. read_word self.old ≡ Err fault) }
        ensures unchanged { OnErr result (self.new ≡ self.old) }
    {
        match self.rest {
            [] | [_] => Err(FieldFault::BadBody),
            [low, high, rest @ ..] => {
                self.rest = rest;
                Ok(*low as u16 + 256 * *high as u16)
            }
        }
    }

    /// Reads a name: a length byte, and as many bytes.
    ///
    /// # Errors
    /// `BadBody` if the body ends before the name does; `BadName` if the name has no bytes, or one
    /// outside 21h to 7Eh. The cursor is then unchanged.
    pub fn name(&mut self) -> Result<NameBytes<'a>, FieldFault>
        ensures read { IfOk result (λ name. read_name self.old ≡ Ok (name, self.new)) }
        ensures spelled { IfOk result (λ name. self.old ≡ name_spelling name ++ self.new) }
        ensures is_one { IfOk result (λ name. IsTrue (is_name name)) }
        ensures fault { IfErr result (λ fault. read_name self.old ≡ Err fault) }
        ensures unchanged { OnErr result (self.new ≡ self.old) }
    {
        let rest = self.rest;
        if rest.is_empty() || rest.len() <= rest[0] as usize {
            return Err(FieldFault::BadBody);
        }
        match split_name(rest, 0) {
            Some((name, after)) => {
                self.rest = &rest[after..];
                Ok(NameBytes::new(name))
            }
            None => Err(FieldFault::BadName),
        }
    }
}
