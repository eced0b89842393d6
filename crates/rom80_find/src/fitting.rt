//! The addresses at which a dump has the bytes of a module's code in fixups, with some values of its targets.

ghost use Rattle.std.specs.Prelude.{◌≡◌, ◌≢◌, ℕ, ◌+◌, ◌%◌, ◌<◌, ◌≤◌, ◌==◌, ◌&&◌, length, take, drop, slice_index_or, true, IfSome, IfNone};
ghost use Rattle.std.specs.List.{AllByRecursion, Contains};
ghost use Rattle.rom80_pattern.specs.declared.code_byte.Half.TheVariants as kind;
ghost use Rattle.rom80_find.specs.Blocks.{AreFound, IsBest, IsFitted, IsNarrowed, word_at};
ghost use Rattle.rom80_find.specs.Fixups.{AreApart, AreOf, AreSorted, are_there, first_number};
ghost use Rattle.rom80_find.specs.Marks.{has_row};
ghost use Rattle.rom80_find.specs.Places.{fits};

use crate::bytes::BLOCK;
use crate::indexed_dump::IndexedDump;
use crate::values::{
    clear, compare_highs, compare_lows, raise_lows, set_addresses, set_highs, set_lows,
};
use rom80_pattern::{CodeByte, Half, number_of};

/// Marks as wrong each address of a block at which there are no values of targets with which the dump has all `fixups` with CODE there.
/// They are sorted by the numbers of their targets. Addresses at which the dump lacks a byte in place of one may be marked or not.
pub(crate) fn fit_fixups(
    wrong: &mut [u8; BLOCK],
    dump: &IndexedDump<'_>,
    first: usize,
    fixups: &[CodeByte],
)
    requires sorted { AreSorted fixups.now }
    requires first { first + 4096 ≤ 65536 }
    ensures { (k : ℕ) → k < 4096 → are_there dump.now (first + k) fixups.now ≡ true
        → IsFitted dump.now fixups.now (first + k) (slice_index_or wrong.old k 0) (slice_index_or wrong.new k 0) }
{
    let mut lows = [0; BLOCK];
    let mut highs = [0; BLOCK];
    let mut rest = fixups;
    for _ in 0..fixups.len() {
        if rest.is_empty() {
            return;
        }
        let (bytes, others) = rest.split_at(count_of_value(rest));
        fit_value(wrong, &mut lows, &mut highs, dump, first, bytes);
        rest = others;
    }
}

/// Returns how many of the first bytes of a list are of one target.
fn count_of_value(bytes: &[CodeByte]) -> usize
    requires some { 0 < length bytes.now }
    requires sorted { AreSorted bytes.now }
    ensures some { 0 < result }
    ensures few { result ≤ length bytes.now }
    ensures same { AreOf (first_number bytes.now) (take result bytes.now) }
    ensures others { AreApart (take result bytes.now) (drop result bytes.now) }
{
    let number = number_of(bytes[0].target);
    for (index, byte) in bytes.iter().enumerate() {
        if number_of(byte.target) != number {
            return index;
        }
    }
    bytes.len()
}

/// Marks as wrong each address of a block at which no word as a target's value gives all `bytes`, which are of that target.
fn fit_value(
    wrong: &mut [u8; BLOCK],
    lows: &mut [u8; BLOCK],
    highs: &mut [u8; BLOCK],
    dump: &IndexedDump<'_>,
    first: usize,
    bytes: &[CodeByte],
)
    requires some { 0 < length bytes.now }
    requires same { AreOf (first_number bytes.now) bytes.now }
    requires first { first + 4096 ≤ 65536 }
    ensures { (k : ℕ) → k < 4096 → are_there dump.now (first + k) bytes.now ≡ true
        → IsNarrowed dump.now (first + k) (first_number bytes.now) bytes.now (slice_index_or wrong.old k 0) (slice_index_or wrong.new k 0) }
{
    set_value(lows, highs, dump, first, bytes);
    for byte in bytes {
        compare(wrong, lows, highs, dump, first, *byte);
    }
}

/// Sets the value of a target at each address of a block to a word with which the dump has its `bytes`, if any word that it may have is one.
fn set_value(
    lows: &mut [u8; BLOCK],
    highs: &mut [u8; BLOCK],
    dump: &IndexedDump<'_>,
    first: usize,
    bytes: &[CodeByte],
)
    requires some { 0 < length bytes.now }
    requires first { first + 4096 ≤ 65536 }
    ensures { (k : ℕ) → k < 4096 → are_there dump.now (first + k) bytes.now ≡ true
        → IsBest dump.now (first + k) (first_number bytes.now) bytes.now (word_at lows.new highs.new k) }
{
    let number = number_of(bytes[0].target);
    if number == 0 {
        clear(lows);
        clear(highs);
        return;
    }
    if number == 1 {
        set_addresses(lows, highs, first);
        return;
    }
    match first_of(bytes, Half::Low) {
        Some(low) => set_by_low(lows, highs, dump, first, bytes, low),
        None => set_by_highs(lows, highs, dump, first, bytes),
    }
}

/// Sets the value of a target at each address of a block to a word with which the dump has its `bytes`, of which `low` is a low one, if any
/// word is one.
fn set_by_low(
    lows: &mut [u8; BLOCK],
    highs: &mut [u8; BLOCK],
    dump: &IndexedDump<'_>,
    first: usize,
    bytes: &[CodeByte],
    low: CodeByte,
)
    requires has { Contains bytes.now low }
    requires low { low.half ≡ kind.Low }
    requires free { 2 ≤ first_number bytes.now }
    requires first { first + 4096 ≤ 65536 }
    ensures { (k : ℕ) → k < 4096 → are_there dump.now (first + k) bytes.now ≡ true
        → IsBest dump.now (first + k) (first_number bytes.now) bytes.now (word_at lows.new highs.new k) }
{
    set_lows(lows, found_at(dump, first, low), low.addend);
    match first_of(bytes, Half::High) {
        Some(high) => set_highs(highs, lows, found_at(dump, first, high), high.addend),
        None => clear(highs),
    }
}

/// Sets the value of a target at each address of a block to the least word with which the dump has its `bytes`, which are all high ones, if
/// any word is one.
fn set_by_highs(
    lows: &mut [u8; BLOCK],
    highs: &mut [u8; BLOCK],
    dump: &IndexedDump<'_>,
    first: usize,
    bytes: &[CodeByte],
)
    requires some { 0 < length bytes.now }
    requires high { AllByRecursion (λ b. b.half ≢ kind.Low) bytes.now }
    requires free { 2 ≤ first_number bytes.now }
    requires first { first + 4096 ≤ 65536 }
    ensures { (k : ℕ) → k < 4096 → are_there dump.now (first + k) bytes.now ≡ true
        → IsBest dump.now (first + k) (first_number bytes.now) bytes.now (word_at lows.new highs.new k) }
{
    let least = least_of(bytes);
    clear(lows);
    set_highs(highs, lows, found_at(dump, first, least), least.addend);
    for byte in bytes {
        raise_lows(lows, highs, found_at(dump, first, *byte), byte.addend);
    }
}

/// The byte whose addend has the least low byte; the first of them.
fn least_of(bytes: &[CodeByte]) -> CodeByte
    requires { 0 < length bytes.now }
    ensures has { Contains bytes.now result }
    ensures least { AllByRecursion (λ b. result.addend % 256 ≤ b.addend % 256) bytes.now }
{
    let mut least = bytes[0];
    for byte in bytes {
        if byte.addend % 256 < least.addend % 256 {
            least = *byte;
        }
    }
    least
}

/// Marks as wrong each address of a block at which the dump doesn't have a byte of the code with this value.
fn compare(
    wrong: &mut [u8; BLOCK],
    lows: &[u8; BLOCK],
    highs: &[u8; BLOCK],
    dump: &IndexedDump<'_>,
    first: usize,
    byte: CodeByte,
)
    requires first { first + 4096 ≤ 65536 }
    ensures { (k : ℕ) → k < 4096 → has_row dump.now 256 ((first + k + byte.offset) % 65536) ≡ true
        → (slice_index_or wrong.new k 0 == 0) ≡ (slice_index_or wrong.old k 0 == 0 && fits dump.now (first + k) byte (word_at lows.now highs.now k)) }
{
    let found = found_at(dump, first, byte);
    match byte.half {
        Half::Low => compare_lows(wrong, lows, found, byte.addend),
        Half::High => compare_highs(wrong, lows, highs, found, byte.addend),
    }
}

/// Returns the bytes of the dump in place of a byte of code that begins at each address of a block.
fn found_at<'a>(dump: &'a IndexedDump<'_>, first: usize, byte: CodeByte) -> &'a [u8; BLOCK]
    requires { first + 4096 ≤ 65536 }
    ensures { AreFound dump.now (first + byte.offset) result.now }
{
    dump.block_from(first + usize::from(byte.offset))
}

/// The first byte with this half; `None` if there is none.
fn first_of(bytes: &[CodeByte], half: Half) -> Option<CodeByte>
    ensures some { IfSome result (λ byte. Contains bytes.now byte) }
    ensures half { IfSome result (λ byte. byte.half ≡ half) }
    ensures none { IfNone result (AllByRecursion (λ b. b.half ≢ half) bytes.now) }
{
    for byte in bytes {
        if byte.half == half {
            return Some(*byte);
        }
    }
    None
}
