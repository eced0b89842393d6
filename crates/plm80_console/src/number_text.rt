//! Numbers from their texts, of digits alone.

ghost use Rattle.std.specs.Prelude.{◌≡◌, ◌==◌, IfSome, IfNone, slice_index};
ghost use Rattle.std.specs.{Char.is_ascii_hexdigit, List.list_all};
ghost use Rattle.plm80_console.specs.NumberText.{IsByteText, IsCountText, IsLengthText, IsWordText, count_value, word_value};

/// The word that one to four hexadecimal digits write, in either case; `None` exactly for every other text.
#[tactic(auto, using(crate::proofs::NumberLemmas::word_fits))]
pub fn word_of_digits(text: &str) -> Option<u16>
    ensures word { IfSome result (λ word. IsWordText text.now × (word ≡ word_value text.now)) }
    ensures none { IfNone result (IsWordText text.now → ⊥) }
{
    if text.len() > 4 || has_plus(text.as_bytes()) {
        return None;
    }
    u16::from_str_radix(text, 16).ok()
}

/// The number that one to five hexadecimal digits write, in either case, so that 10000 is all of memory; `None` exactly for every
/// other text.
#[tactic(auto, using(crate::proofs::NumberLemmas::length_fits))]
pub fn length_of_digits(text: &str) -> Option<u32>
    ensures length { IfSome result (λ number. IsLengthText text.now × (number ≡ word_value text.now)) }
    ensures none { IfNone result (IsLengthText text.now → ⊥) }
{
    if text.len() > 5 || has_plus(text.as_bytes()) {
        return None;
    }
    u32::from_str_radix(text, 16).ok()
}

/// The byte that two hexadecimal digits write, in either case; `None` exactly for every other text.
#[tactic(auto, using(crate::proofs::NumberLemmas::byte_fits))]
pub fn byte_of_digits(text: &str) -> Option<u8>
    ensures byte { IfSome result (λ byte. IsByteText text.now × (byte ≡ word_value text.now)) }
    ensures none { IfNone result (IsByteText text.now → ⊥) }
{
    if text.len() != 2 || has_plus(text.as_bytes()) {
        return None;
    }
    u8::from_str_radix(text, 16).ok()
}

/// The number that decimal digits write, which 64 bits hold; `None` exactly for every other text.
pub fn count_of_digits(text: &str) -> Option<u64>
    ensures count { IfSome result (λ count. IsCountText text.now × (count ≡ count_value text.now)) }
    ensures none { IfNone result (IsCountText text.now → ⊥) }
{
    if has_plus(text.as_bytes()) {
        return None;
    }
    u64::from_str_radix(text, 10).ok()
}

/// Whether the first byte is a plus sign, which std takes before digits.
fn has_plus(text: &[u8]) -> bool
    ensures { result ≡ (slice_index text.now 0 == 43) }
{
    !text.is_empty() && text[0] == b'+'
}

/// Whether all bytes are hexadecimal digits, in either case.
pub fn are_digits(bytes: &[u8]) -> bool
    ensures { result ≡ list_all is_ascii_hexdigit bytes.now }
{
    bytes.iter().all(|byte| is_digit(*byte))
}

/// Whether a byte is a hexadecimal digit.
fn is_digit(byte: u8) -> bool
    ensures { result ≡ is_ascii_hexdigit byte }
{
    byte.is_ascii_hexdigit()
}
