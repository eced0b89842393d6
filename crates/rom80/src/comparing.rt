//! Where an image and a dump differ.

ghost use Rattle.std.specs.Prelude.{◌≡◌, ℕ, ◌≤◌, ◌+◌, ◌-◌, ◌<◌, ◌↔◌, ◌++◌, length, IfOk, OnOk, IsErrOf};
ghost use Rattle.std.specs.List.{AllByRecursion};
ghost use Rattle.rom80.specs.Rom.{bytes_over};
ghost use Rattle.rom80.specs.Compare.{AreDifferences, LieWithin, run_of, same_count, shown_bytes, length_text, range_text, difference_line, same_line, comparison_text};

use crate::extracting::bytes_over;
use crate::fault::RomFault;
use image80::Image;
use std::alloc::{AllocError, Global};
use text80::{append_digits, word_digits};

/// Consecutive addresses at which the bytes of an image and of a dump differ.
#[derive(Clone, Copy, PartialEq, Eq)]
pub struct Difference {
    /// The first of the addresses.
    pub first: u16,
    /// The number of the addresses, 1 to 65536.
    pub length: u32,
}

/// Where an image and a dump differ: the ranges of addresses, and a text with a line for each.
#[derive(Drop)]
pub struct Comparison {
    /// The ranges of addresses at which the bytes differ, ascending and not adjacent.
    pub ranges: Vec<Difference>,
    /// A line such as `DIFFERS 0123 0002 3E05 3E07` for each range, and a last one such as `SAME 2046 OF 2048`.
    pub text: Vec<u8>,
}

/// The number of bytes that a line shows at most, of the image and of the dump each.
const SHOWN: usize = 8;

/// Compares the image's memory with a dump whose first byte has the address `first`; at an address that no chunk
/// covers, the image has `fill`. An address is in one of the ranges exactly if the bytes differ; the ranges ascend,
/// and no two of them touch. The text has a line for each, such as `DIFFERS 0123 0002 3E05 3E07` with up to eight
/// bytes of the image and of the dump, and then one such as `SAME 2046 OF 2048`.
///
/// # Errors
/// `EmptyFile` exactly if the dump has no bytes, `PastMemory` exactly if it goes past FFFF; `Memory` only if memory
/// ran out.
pub fn compare(
    alloc: Global,
    image: &Image,
    first: u16,
    dump: &[u8],
    fill: u8,
) -> Result<Comparison, RomFault>
    ensures ranges { IfOk result (λ c.
        AreDifferences (bytes_over fill image.now.chunks first (length dump.now)) dump.now first c.ranges.items) }
    ensures text { IfOk result (λ c. c.text.items
        ≡ comparison_text (bytes_over fill image.now.chunks first (length dump.now)) dump.now first c.ranges.items) }
    ensures empty { IsErrOf result RomFault.EmptyFile ↔ (length dump.now ≡ 0) }
    ensures past { IsErrOf result RomFault.PastMemory ↔ (65536 < first + length dump.now) }
    ensures alone { IsErrOf result RomFault.DumpsOverlap → ⊥ }
{
    if dump.is_empty() {
        return Err(RomFault::EmptyFile);
    }
    if dump.len() > 65536 - usize::from(first) {
        return Err(RomFault::PastMemory);
    }
    match compare_in_memory(alloc, image, first, dump, fill) {
        Ok(comparison) => Ok(comparison),
        Err(_) => Err(RomFault::Memory),
    }
}

/// Compares the image's memory, with `fill` at the addresses that no chunk covers, with a dump from `first` on, which
/// must end in memory. The only fault is `Memory`.
fn compare_in_memory(
    alloc: Global,
    image: &Image,
    first: u16,
    dump: &[u8],
    fill: u8,
) -> Result<Comparison, RomFault>
    requires { first + length dump.now ≤ 65536 }
    ensures ranges { IfOk result (λ c.
        AreDifferences (bytes_over fill image.now.chunks first (length dump.now)) dump.now first c.ranges.items) }
    ensures text { IfOk result (λ c. c.text.items
        ≡ comparison_text (bytes_over fill image.now.chunks first (length dump.now)) dump.now first c.ranges.items) }
{
    let bytes = bytes_over(alloc, image, first, dump.len() as u32, fill)?;
    Ok(compare_bytes(alloc, first, &bytes, dump)?)
}

/// Compares an image's bytes from `first` on with a dump, which must have the same length and end in memory, and makes
/// the ranges and the text.
fn compare_bytes(
    alloc: Global,
    first: u16,
    bytes: &[u8],
    dump: &[u8],
) -> Result<Comparison, AllocError>
    requires same { length bytes.now ≡ length dump.now }
    requires in_memory { first + length dump.now ≤ 65536 }
    ensures ranges { IfOk result (λ c. AreDifferences bytes.now dump.now first c.ranges.items) }
    ensures text { IfOk result (λ c. c.text.items ≡ comparison_text bytes.now dump.now first c.ranges.items) }
{
    let ranges = differences(alloc, first, bytes, dump)?;
    let text = text_of(alloc, first, bytes, dump, &ranges)?;
    Ok(Comparison { ranges, text })
}

/// The ranges of addresses, from `first` on, at which two lists of bytes differ. Both must have the same length and end
/// in memory.
fn differences(
    alloc: Global,
    first: u16,
    bytes: &[u8],
    dump: &[u8],
) -> Result<Vec<Difference>, AllocError>
    requires same { length bytes.now ≡ length dump.now }
    requires in_memory { first + length dump.now ≤ 65536 }
    ensures ranges { IfOk result (λ ranges. AreDifferences bytes.now dump.now first ranges.items) }
    ensures within { IfOk result (λ ranges. AllByRecursion (LieWithin first (length dump.now)) ranges.items) }
{
    let mut ranges = Vec::new(alloc);
    // The number of differing bytes right before this one, without a gap.
    let mut run: u32 = 0;
    for at in 0..dump.len() {
        if bytes[at] == dump[at] {
            push_run(&mut ranges, u32::from(first) + at as u32, run)?;
            run = 0;
        } else {
            run += 1;
        }
    }
    push_run(&mut ranges, u32::from(first) + dump.len() as u32, run)?;
    Ok(ranges)
}

/// Appends the range of the `run` addresses right before `end`; nothing if `run` is 0. `run` must be at most `end`, and
/// `end` at most 65536.
fn push_run(ranges: &mut Vec<Difference>, end: u32, run: u32) -> Result<(), AllocError>
    requires run { run ≤ «end» }
    requires in_memory { «end» ≤ 65536 }
    ensures { OnOk result (ranges.new.items ≡ ranges.old.items ++ run_of «end» run) }
{
    if run > 0 {
        ranges.push(Difference {
            first: (end - run) as u16,
            length: run,
        })?;
    }
    Ok(())
}

/// The text of a comparison: a `DIFFERS` line for each of these ranges, and the `SAME` line. `bytes` and `dump` must
/// have the same length and end in memory, and each range must lie among their addresses.
fn text_of(
    alloc: Global,
    first: u16,
    bytes: &[u8],
    dump: &[u8],
    ranges: &[Difference],
) -> Result<Vec<u8>, AllocError>
    requires same { length bytes.now ≡ length dump.now }
    requires in_memory { first + length dump.now ≤ 65536 }
    requires within { AllByRecursion (LieWithin first (length dump.now)) ranges.now }
    ensures { IfOk result (λ text. text.items ≡ comparison_text bytes.now dump.now first ranges.now) }
{
    let mut text = Vec::new(alloc);
    for range in ranges {
        append_difference(&mut text, first, bytes, dump, *range)?;
    }
    append_same(alloc, &mut text, count_same(bytes, dump), dump.len())?;
    Ok(text)
}

/// Appends the `DIFFERS` line of a range, with its first bytes in the image and in the dump, whose addresses begin at
/// `first`. `bytes` and `dump` must have the same length and end in memory, and the range must lie among their
/// addresses.
fn append_difference(
    text: &mut Vec<u8>,
    first: u16,
    bytes: &[u8],
    dump: &[u8],
    range: Difference,
) -> Result<(), AllocError>
    requires same { length bytes.now ≡ length dump.now }
    requires in_memory { first + length dump.now ≤ 65536 }
    requires within { LieWithin first (length dump.now) range }
    ensures { OnOk result (text.new.items ≡ text.old.items ++ difference_line bytes.now dump.now first range) }
{
    append_range(text, range)?;
    text.push(b' ')?;
    append_shown(text, first, bytes, range)?;
    text.push(b' ')?;
    append_shown(text, first, dump, range)?;
    text.push(b'\n')?;
    Ok(())
}

/// Appends the beginning of a range's line: `DIFFERS`, its first address and its length. The length must be at most
/// 65536.
fn append_range(text: &mut Vec<u8>, range: Difference) -> Result<(), AllocError>
    requires { range.length ≤ 65536 }
    ensures { OnOk result (text.new.items ≡ text.old.items ++ range_text range) }
{
    text.extend_from_slice(b"DIFFERS ".as_slice())?;
    text.extend_from_slice(&word_digits(range.first))?;
    text.push(b' ')?;
    append_length(text, range.length)
}

/// Appends a length, which must be at most 65536, in four hexadecimal digits, or as `10000` if it is 65536.
fn append_length(text: &mut Vec<u8>, length: u32) -> Result<(), AllocError>
    requires { length ≤ 65536 }
    ensures { OnOk result (text.new.items ≡ text.old.items ++ length_text length) }
{
    if length == 65536 {
        text.extend_from_slice(b"10000".as_slice())
    } else {
        text.extend_from_slice(&word_digits(length as u16))
    }
}

/// Appends the digits of a range's bytes, of the first eight at most; the first of `bytes` has the address `first`. The
/// range must lie among the addresses of `bytes`.
fn append_shown(
    text: &mut Vec<u8>,
    first: u16,
    bytes: &[u8],
    range: Difference,
) -> Result<(), AllocError>
    requires { LieWithin first (length bytes.now) range }
    ensures { OnOk result (text.new.items ≡ text.old.items ++ shown_bytes first range bytes.now) }
{
    let begin = usize::from(range.first - first);
    let count = SHOWN.min(range.length as usize);
    append_digits(&bytes[begin..begin + count], text)
}

/// The number of places at which two lists, which must have the same length, have the same byte.
fn count_same(bytes: &[u8], dump: &[u8]) -> usize
    requires { length bytes.now ≡ length dump.now }
    ensures { result ≡ same_count bytes.now dump.now }
{
    let mut same: usize = 0;
    for at in 0..bytes.len() {
        if bytes[at] == dump[at] {
            same += 1;
        }
    }
    same
}

/// Appends the last line, as `SAME 2046 OF 2048`: the number of equal bytes, and of all.
fn append_same(
    alloc: Global,
    text: &mut Vec<u8>,
    same: usize,
    count: usize,
) -> Result<(), AllocError>
    ensures { OnOk result (text.new.items ≡ text.old.items ++ same_line same count) }
{
    let line = format!(in alloc; "SAME {same} OF {count}\n")?;
    text.extend_from_slice(line.as_bytes())
}
