//! An item of an argument for inputs: a byte, or a count, a star and a byte.

ghost use Rattle.std.specs.Prelude.{◌≡◌, ◌<◌, IfOk, IfSome};
ghost use Rattle.loader80_text.specs.Text.{IsRepeated};
ghost use Rattle.loader80_text.specs.Words.{count_spelled, item_of, times};

use crate::inputs::repeated::Repeated;
use loader80::digits::bytes_of_digits;
use std::alloc::{AllocError, Global};

/// Reads an item of an argument such as `02=03,5*07`, for its port: a byte `hh` in hexadecimal, or `n*hh` for a byte
/// that waits `n` times, `n` in decimal. `None` if it has another form, or if `n` is 0 or 64 bits don't hold it.
pub(crate) fn read_item(
    alloc: Global,
    port: u8,
    item: &[u8],
) -> Result<Option<Repeated>, AllocError>
    ensures read { IfOk result (λ read. read ≡ item_of port item.now) }
    ensures repeated { IfOk result (λ read. IfSome read IsRepeated) }
{
    let (before, digits) = item.split_at(item.len().saturating_sub(2));
    let Some(bytes) = bytes_of_digits(alloc, digits)? else {
        return Ok(None);
    };
    let Some(count) = times(before) else {
        return Ok(None);
    };
    if bytes.len() != 1 {
        return Ok(None);
    }
    let byte = bytes[0];
    Ok(Some(Repeated { port, count, byte }))
}

/// How many times an item's byte waits, from the text before its digits: once if that is empty, and the count before
/// a star. `None` if the text has another form.
fn times(before: &[u8]) -> Option<u64>
    ensures times { result ≡ times before.now }
    ensures some { IfSome result (λ count. 0 < count) }
{
    if before.is_empty() {
        return Some(1);
    }
    let last = before.len() - 1;
    if before[last] == b'*' {
        count_of_digits(&before[..last])
    } else {
        None
    }
}

/// The count that decimal digits spell; `None` for every other text, for 0, and for a number that 64 bits don't hold.
fn count_of_digits(digits: &[u8]) -> Option<u64>
    ensures count { result ≡ count_spelled digits.now }
    ensures some { IfSome result (λ count. 0 < count) }
{
    match str::from_utf8(digits) {
        Ok(text) => count_of_text(text),
        Err(_) => None,
    }
}

/// The count that a text of decimal digits spells; `None` for every other text, for 0, and for a number that 64 bits
/// don't hold.
fn count_of_text(text: &str) -> Option<u64>
    ensures count { result ≡ count_spelled text.now }
    ensures some { IfSome result (λ count. 0 < count) }
{
    let digits = text.as_bytes();
    if digits.is_empty() || digits[0] == b'+' {
        return None;
    }
    match u64::from_str_radix(text, 10) {
        Ok(0) => None,
        Ok(count) => Some(count),
        Err(_) => None,
    }
}
