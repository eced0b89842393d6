//! Bytes, addresses and words at the beginning of a text.

ghost use Rattle.std.specs.Prelude.{◌≡◌, ◌≢◌, ◌<◌, ◌≤◌, ℕ, List, ◌++◌, length, ◌==◌, IfSome, IfNone};
ghost use Rattle.std.specs.List.{position_or_len};
ghost use Rattle.text80.specs.Digits.{byte_text, word_text};
ghost use Rattle.board80.specs.Reading.{IsAtEnd, IsWord};

use text80::word_of_digits;

/// Reads a byte, two upper-case hexadecimal digits, at the beginning of the text, and returns it and the text after it;
/// `None` if the text begins with anything else.
pub(crate) fn read_byte(text: &[u8]) -> Option<(u8, &[u8])>
    ensures found { IfSome result (λ (byte, rest). text.now ≡ byte_text byte ++ rest.now) }
    ensures byte { IfSome result (λ (byte, _). byte < 256) }
    ensures shorter { IfSome result (λ (_, rest). length rest.now < length text.now) }
    ensures none { IfNone result ((byte : ℕ) (rest : List ℕ) → byte < 256 → text.now ≢ byte_text byte ++ rest) }
{
    if text.len() < 2 {
        return None;
    }
    let Some(word) = word_of_digits([b'0', b'0', text[0], text[1]]) else {
        return None;
    };
    Some(((word % 256) as u8, &text[2..]))
}

/// Reads an address, four upper-case hexadecimal digits, at the beginning of the text, and returns it and the text after
/// it; `None` if the text begins with anything else.
pub(crate) fn read_address(text: &[u8]) -> Option<(u16, &[u8])>
    ensures found { IfSome result (λ (address, rest). text.now ≡ word_text address ++ rest.now) }
    ensures word { IfSome result (λ (address, _). address < 65536) }
    ensures none { IfNone result ((address : ℕ) (rest : List ℕ) → address < 65536 → text.now ≢ word_text address ++ rest) }
{
    if text.len() < 4 {
        return None;
    }
    let address = word_of_digits([text[0], text[1], text[2], text[3]])?;
    Some((address, &text[4..]))
}

/// Cuts the text at its first space, which stays with the rest; all of it is the word if it has none.
pub(crate) fn first_word(text: &[u8]) -> (&[u8], &[u8])
    ensures joined { text.now ≡ result.0.now ++ result.1.now }
    ensures word { IsWord result.0.now }
    ensures at_end { IsAtEnd result.1.now }
{
    let end = space(text);
    (&text[..end], &text[end..])
}

/// The place of the text's first space, or its end if it has none.
fn space(text: &[u8]) -> usize
    ensures place { result ≡ position_or_len (λ byte. byte == 32) text.now }
    ensures within { result ≤ length text.now }
{
    for (place, byte) in text.iter().enumerate() {
        if *byte == b' ' {
            return place;
        }
    }
    text.len()
}
