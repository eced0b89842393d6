//! The value of a target at many addresses at once, as bytes that were found there say.

ghost use Rattle.std.specs.Prelude.{◌≡◌, ℕ, ◌+◌, ◌/◌, ◌<◌, ◌≤◌, ◌==◌, ◌&&◌, ◌%◌, max, slice_index_or};
ghost use Rattle.rom80_find.specs.Blocks.{high_sum, less, low_needed};

use crate::bytes::BLOCK;

/// Sets each byte to 0.
pub(crate) fn clear(bytes: &mut [u8; BLOCK])
    ensures { (k : ℕ) → k < 4096 → slice_index_or bytes.new k 0 ≡ 0 }
{
    for at in 0..BLOCK {
        bytes[at] = 0;
    }
}

/// Sets each low byte to the one whose sum with `addend` has the low byte that was found.
pub(crate) fn set_lows(lows: &mut [u8; BLOCK], found: &[u8; BLOCK], addend: u16)
    ensures { (k : ℕ) → k < 4096 → slice_index_or lows.new k 0 ≡ less (slice_index_or found.now k 0) (addend % 256) }
{
    for at in 0..BLOCK {
        lows[at] = less(found[at], (addend % 256) as u8);
    }
}

/// Sets each high byte to the one with which the sum of the value and `addend` has the high byte that was found.
pub(crate) fn set_highs(
    highs: &mut [u8; BLOCK],
    lows: &[u8; BLOCK],
    found: &[u8; BLOCK],
    addend: u16,
)
    ensures { (k : ℕ) → k < 4096 → slice_index_or highs.new k 0
        ≡ less (slice_index_or found.now k 0) (high_sum 0 (slice_index_or lows.now k 0) addend) }
{
    for at in 0..BLOCK {
        highs[at] = less(found[at], high_sum(0, lows[at], addend));
    }
}

/// Raises each low byte to the least with which a sum with `addend` carries, if the high byte that was found isn't that without a carry.
pub(crate) fn raise_lows(
    lows: &mut [u8; BLOCK],
    highs: &[u8; BLOCK],
    found: &[u8; BLOCK],
    addend: u16,
)
    ensures { (k : ℕ) → k < 4096 → slice_index_or lows.new k 0
        ≡ max (slice_index_or lows.old k 0) (low_needed (slice_index_or highs.now k 0) addend (slice_index_or found.now k 0)) }
{
    for at in 0..BLOCK {
        lows[at] = greater(lows[at], low_needed(highs[at], addend, found[at]));
    }
}

/// Sets each value to its address; the first is at `first`.
pub(crate) fn set_addresses(lows: &mut [u8; BLOCK], highs: &mut [u8; BLOCK], first: usize)
    requires { first + 4096 ≤ 65536 }
    ensures lows { (k : ℕ) → k < 4096 → slice_index_or lows.new k 0 ≡ (first + k) % 256 }
    ensures highs { (k : ℕ) → k < 4096 → slice_index_or highs.new k 0 ≡ (first + k) / 256 }
{
    for at in 0..BLOCK {
        lows[at] = ((first + at) % 256) as u8;
        highs[at] = ((first + at) / 256) as u8;
    }
}

/// Marks as wrong each address at which the low byte of the value plus `addend` isn't the byte that was found.
pub(crate) fn compare_lows(
    wrong: &mut [u8; BLOCK],
    lows: &[u8; BLOCK],
    found: &[u8; BLOCK],
    addend: u16,
)
    ensures { (k : ℕ) → k < 4096 → (slice_index_or wrong.new k 0 == 0)
        ≡ (slice_index_or wrong.old k 0 == 0 && (slice_index_or lows.now k 0 + addend % 256) % 256 == slice_index_or found.now k 0) }
{
    for at in 0..BLOCK {
        wrong[at] = marked(wrong[at], low_sum(lows[at], addend), found[at]);
    }
}

/// Marks as wrong each address at which the high byte of the value plus `addend` isn't the byte that was found.
pub(crate) fn compare_highs(
    wrong: &mut [u8; BLOCK],
    lows: &[u8; BLOCK],
    highs: &[u8; BLOCK],
    found: &[u8; BLOCK],
    addend: u16,
)
    ensures { (k : ℕ) → k < 4096 → (slice_index_or wrong.new k 0 == 0)
        ≡ (slice_index_or wrong.old k 0 == 0
        && high_sum (slice_index_or highs.now k 0) (slice_index_or lows.now k 0) addend == slice_index_or found.now k 0) }
{
    for at in 0..BLOCK {
        wrong[at] = marked(wrong[at], high_sum(highs[at], lows[at], addend), found[at]);
    }
}

/// A mark that is clear if it was and `sum` is the byte that was found.
fn marked(wrong: u8, sum: u8, found: u8) -> u8
    ensures { (result == 0) ≡ (wrong == 0 && sum == found) }
{
    if sum == found { wrong } else { 1 }
}

/// A byte less another one, modulo 256.
fn less(byte: u8, other: u8) -> u8
    ensures { result ≡ less byte other }
{
    byte.wrapping_sub(other)
}

/// The greater of two bytes.
fn greater(one: u8, other: u8) -> u8
    ensures { result ≡ max one other }
{
    if one < other { other } else { one }
}

/// The low byte of the sum of `addend` and a word with the low byte `low`.
fn low_sum(low: u8, addend: u16) -> u8
    ensures { result ≡ (low + addend % 256) % 256 }
{
    low.wrapping_add((addend % 256) as u8)
}

/// The high byte of the sum of `addend` and the word of two bytes.
fn high_sum(high: u8, low: u8, addend: u16) -> u8
    ensures { result ≡ high_sum high low addend }
{
    let carry = if low > 255 - (addend % 256) as u8 {
        1
    } else {
        0
    };
    high.wrapping_add((addend / 256) as u8).wrapping_add(carry)
}

/// The least low byte with which a sum with `addend` carries, if `high` gives the high byte `found` only with a carry; otherwise 0.
fn low_needed(high: u8, addend: u16, found: u8) -> u8
    ensures { result ≡ low_needed high addend found }
{
    if high.wrapping_add((addend / 256) as u8) == found {
        0
    } else {
        less(0, (addend % 256) as u8)
    }
}
