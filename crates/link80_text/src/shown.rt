//! Paths in lines.

ghost use Rattle.std.specs.Prelude.{◌≡◌, ◌++◌, slice_index_or, OnOk};
ghost use Rattle.link80_text.specs.ShownPaths.{hidden_from, hidden_length, is_hidden_byte, is_hidden_pair, is_hidden_triple, shown_byte, shown_path};

use std::alloc::AllocError;
use text80::byte_digits;

/// Stands for a missing byte: UTF-8 has no such one.
const MISSING: u8 = 0xFF;

/// Appends a path in which each byte of a control character is shown as `\x` and two hexadecimal digits, and so is each byte of a
/// character that isn't seen or changes the order of others. `Err` only if memory runs out.
pub(crate) fn append_path(text: &mut Vec<u8>, path: &[u8]) -> Result<(), AllocError>
    ensures { OnOk result (text.new.items ≡ text.old.items ++ shown_path path.now) }
{
    let mut left = 0;
    let mut rest = path;
    while let [byte, behind @ ..] = rest {
        let hidden = hidden_from(left, *byte, behind);
        append_shown_byte(text, hidden, *byte)?;
        left = hidden.saturating_sub(1);
        rest = behind;
    }
    Ok(())
}

/// Appends a byte of a path, as `\x` and two hexadecimal digits if it belongs to a hidden character: if `hidden` isn't 0. `Err` only if
/// memory runs out.
fn append_shown_byte(text: &mut Vec<u8>, hidden: u8, byte: u8) -> Result<(), AllocError>
    ensures { OnOk result (text.new.items ≡ text.old.items ++ shown_byte hidden byte) }
{
    if hidden == 0 {
        Ok(text.push(byte)?)
    } else {
        text.extend_from_slice(b"\\x".as_slice())?;
        text.extend_from_slice(&byte_digits(byte))
    }
}

/// How many bytes from `byte` on belong to a hidden character: `left`, or, if that is 0, those of the one that begins here. `behind` has
/// the bytes after it.
fn hidden_from(left: u8, byte: u8, behind: &[u8]) -> u8
    ensures { result ≡ hidden_from left byte behind.now }
{
    if left == 0 {
        hidden_length(byte, byte_at(behind, 0), byte_at(behind, 1))
    } else {
        left
    }
}

/// The byte with this index, or `MISSING`.
fn byte_at(bytes: &[u8], index: usize) -> u8
    ensures { result ≡ slice_index_or bytes.now index 255 }
{
    match bytes.get(index) {
        Some(byte) => *byte,
        None => MISSING,
    }
}

/// How many bytes the hidden character has that begins with these; 0 if none does.
fn hidden_length(first: u8, second: u8, third: u8) -> u8
    ensures { result ≡ hidden_length first second third }
{
    if is_hidden_byte(first) {
        1
    } else if is_hidden_pair(first, second) {
        2
    } else if is_hidden_triple(first, second, third) {
        3
    } else {
        0
    }
}

/// Whether a byte is an ASCII control character.
fn is_hidden_byte(first: u8) -> bool
    ensures { result ≡ is_hidden_byte first }
{
    first.is_ascii_control()
}

/// Whether two bytes are a control character from U+0080 to U+009F, the soft hyphen U+00AD or the Arabic letter mark U+061C.
fn is_hidden_pair(first: u8, second: u8) -> bool
    ensures { result ≡ is_hidden_pair first second }
{
    (first == 0xC2 && (second < 0xA0 || second == 0xAD)) || (first == 0xD8 && second == 0x9C)
}

/// Whether three bytes are a character from U+200B to U+200F, from U+2028 to U+202E or from U+2060 to U+206F, or the byte order mark U+FEFF.
fn is_hidden_triple(first: u8, second: u8, third: u8) -> bool
    ensures { result ≡ is_hidden_triple first second third }
{
    (first == 0xE2
        && second == 0x80
        && ((0x8B <= third && third <= 0x8F) || (0xA8 <= third && third <= 0xAE)))
        || ((first == 0xE2 && second == 0x81 && (0xA0 <= third && third <= 0xAF))
            || (first == 0xEF && second == 0xBB && third == 0xBF))
}
