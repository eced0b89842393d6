//! Hexadecimal digits, read and written.
ghost use Rattle.std.specs.Prelude.{◌≡◌, IfOk, vec_items};
ghost use Rattle.std.specs.Option.{option_map};
ghost use Rattle.loader80.specs.HexText.{bytes_spelled};

use hex::FromHexError;
use std::alloc::{AllocError, Global};
use std::fmt;

/// The bytes that `digits` spell in hexadecimal, two digits of either case for each byte; `None`
/// if they aren't such digits, or an odd number of them.
pub fn bytes_of_digits(alloc: Global, digits: &[u8]) -> Result<Option<Vec<u8>>, AllocError>
    ensures { IfOk result (λ bytes. option_map vec_items bytes ≡ bytes_spelled digits.now) }
{
    match hex::decode(alloc, digits) {
        Ok(bytes) => Ok(Some(bytes)),
        Err(FromHexError::OutOfMemory) => Err(AllocError),
        Err(_) => Ok(None),
    }
}

/// A byte that is printed as two hexadecimal digits in upper case.
#[derive(Clone, Copy)]
pub struct ByteDigits(pub u8);

impl fmt::Display for ByteDigits {
    ghost use Rattle.std.specs.Prelude.{Some};
    ghost use Rattle.text80.specs.Digits.{byte_text};

    ghost output = { λ byte. Some (byte_text byte.0) };

    /// Writes the byte as two upper-case hexadecimal digits.
    fn fmt<W: fmt::Write>(&self, f: &mut fmt::Formatter<W>) -> fmt::Result {
        let byte = self.0;
        write!(f, "{byte:02X}")
    }
}

/// A word that is printed as four hexadecimal digits in upper case.
#[derive(Clone, Copy)]
pub struct WordDigits(pub u16);

impl fmt::Display for WordDigits {
    ghost use Rattle.std.specs.Prelude.{Some};
    ghost use Rattle.text80.specs.Digits.{word_text};

    ghost output = { λ word. Some (word_text word.0) };

    /// Writes the word as four upper-case hexadecimal digits.
    fn fmt<W: fmt::Write>(&self, f: &mut fmt::Formatter<W>) -> fmt::Result {
        let word = self.0;
        let high = ByteDigits((word / 256) as u8);
        let low = ByteDigits((word % 256) as u8);
        write!(f, "{high}{low}")
    }
}
