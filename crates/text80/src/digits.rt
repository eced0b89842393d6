//! Upper case hexadecimal digits.

ghost use Rattle.std.specs.Prelude.{◌≡◌, ◌≢◌, ℕ, ◌<◌, [], ◌∷◌, ◌++◌, IfSome, IfNone, OnOk};
ghost use Rattle.std.specs.List.{flat_map};
ghost use Rattle.text80.specs.Digits.{byte_text, digit_text, word_text};

use std::alloc::AllocError;

/// The upper case hexadecimal digits, by their values 0 to 15.
static DIGITS: [u8; 16] = *b"0123456789ABCDEF";

/// The upper case hexadecimal digit of `n`, which must be below 16, as text of one byte.
pub fn digit(n: u8) -> [u8; 1]
    requires { n < 16 }
    ensures { result ≡ digit_text n }
{
    [DIGITS[n as usize]]
}

/// `byte` as two upper case hexadecimal digits.
pub fn byte_digits(byte: u8) -> [u8; 2]
    ensures { result ≡ byte_text byte }
{
    let [high] = digit(byte / 16);
    let [low] = digit(byte % 16);
    [high, low]
}

/// Appends each byte to `out` as two upper case hexadecimal digits.
///
/// # Errors
/// `AllocError` only if memory runs out; the digits of the first bytes may then have been appended.
pub fn append_digits(bytes: &[u8], out: &mut Vec<u8>) -> Result<(), AllocError>
    ensures { OnOk result (out.new.items ≡ out.old.items ++ flat_map byte_text bytes.now) }
{
    for byte in bytes {
        out.extend_from_slice(&byte_digits(*byte))?;
    }
    Ok(())
}

/// `word` as four upper case hexadecimal digits, the high byte first.
pub fn word_digits(word: u16) -> [u8; 4]
    ensures { result ≡ word_text word }
{
    let [high, low] = word.to_be_bytes();
    let [first, second] = byte_digits(high);
    let [third, fourth] = byte_digits(low);
    [first, second, third, fourth]
}

/// The word that four upper case hexadecimal digits stand for, the high byte first; `None` if one
/// of the four bytes isn't such a digit.
pub fn word_of_digits(digits: [u8; 4]) -> Option<u16>
    ensures value { IfSome result (λ word. digits ≡ word_text word) }
    ensures none { IfNone result ((word : ℕ) → word < 65536 → digits ≢ word_text word) }
{
    let [first, second, third, fourth] = digits;
    let high = byte_of_digits([first, second])?;
    let low = byte_of_digits([third, fourth])?;
    Some(u16::from(high) * 256 + u16::from(low))
}

/// The byte that two upper case hexadecimal digits stand for; `None` if one of the two bytes isn't
/// such a digit.
fn byte_of_digits(digits: [u8; 2]) -> Option<u8>
    ensures value { IfSome result (λ byte. digits ≡ byte_text byte) }
    ensures none { IfNone result ((byte : ℕ) → byte < 256 → digits ≢ byte_text byte) }
{
    let [first, second] = digits;
    Some(value_of(first)? * 16 + value_of(second)?)
}

/// The value, 0 to 15, of an upper case hexadecimal digit; `None` for every other byte.
fn value_of(byte: u8) -> Option<u8>
    ensures value { IfSome result (λ value. (value < 16) × (byte ∷ [] ≡ digit_text value)) }
    ensures none { IfNone result ((value : ℕ) → value < 16 → byte ∷ [] ≢ digit_text value) }
{
    for value in 0..16u8 {
        if digit(value) == [byte] {
            return Some(value);
        }
    }
    None
}
