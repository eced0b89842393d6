//! Ranges of addresses that options name.

ghost use Rattle.std.specs.Prelude.{◌≡◌, List, map, IfErr, IfNone, IfOk, IfSome};
ghost use Rattle.plm80_console.specs.{Journal.Blames, Ranges.AreRangesOf, Ranges.IsRangeText};

use crate::console::Console;
use crate::number_text::{count_of_digits, word_of_digits};
use crate::options::OptionText;
use crate::reported::Reported;
use image80::Range;

/// The ranges that the values of the option of this name write, in order: each a first address, a colon and a length. `BadNumber` is
/// reported of the first one that writes none, and `Memory` if memory runs out.
pub fn ranges_of<C: Console>(
    console: &mut C,
    name: &str,
    values: &[&str],
) -> Result<Vec<Range>, Reported>
    ensures ranges { IfOk result (λ ranges. AreRangesOf (map (λ value. value.now) values.now) ranges.items) }
    ensures unchanged { IfOk result (λ _. C.journal console.new ≡ C.journal console.old) }
    ensures fault { let texts = map (λ value. value.now) values.now in
        IfErr result (λ _. Blames ((ranges : List Range) → AreRangesOf texts ranges → ⊥) (C.journal console.old) (C.journal console.new)) }
{
    let mut ranges = Vec::new(console.alloc());
    for value in values {
        let Some(range) = range_of(value) else {
            let wanted =
                "a first address, a colon and a length, of one to four hexadecimal digits each, up to FFFF";
            return Err(OptionText::new(name, value).blame_number(console, wanted));
        };
        if ranges.push(range).is_err() {
            return Err(console.report_memory());
        }
    }
    Ok(ranges)
}

/// The range that a text writes as a first address, a colon and a length; `None` exactly for any other text, and if the range would end
/// behind FFFF.
fn range_of(text: &str) -> Option<Range>
    ensures range { IfSome result (IsRangeText text.now) }
    ensures none { IfNone result ((range : Range) → IsRangeText text.now range → ⊥) }
{
    let (first, length) = text.split_once(':')?;
    let first = word_of_digits(first)?;
    let length = word_of_digits(length)?;
    if u32::from(first) + u32::from(length) > 65_536 {
        return None;
    }
    Some(Range { first, length })
}

/// An option that names ranges of a board's memory, and its values.
#[derive(Clone, Copy)]
pub struct RangeTexts<'a> {
    pub name: &'a str,
    pub values: &'a [&'a str],
}

/// How many ranges of a board's ROM, and how many of its RAM, are compared with each other: more than a board has.
const MOST_COMPARED: usize = 64;

/// Says which values of the two options that name a board's ROM and RAM may have been meant otherwise, and which of ROM overlap which of
/// RAM, of the first 64 of each.
pub fn explain_board<C: Console>(console: &C, rom: RangeTexts<'_>, ram: RangeTexts<'_>) {
    explain_ranges(console, rom);
    explain_ranges(console, ram);
    for first in rom.values.iter().take(MOST_COMPARED) {
        for second in ram.values.iter().take(MOST_COMPARED) {
            if overlap(first, second) {
                let (rom, ram) = (rom.name, ram.name);
                console.explain(format_args!("--{rom} {first} and --{ram} {second} overlap"));
            }
        }
    }
}

/// Says which of these values may have been meant otherwise: one whose length seems to be a last address, or is a size of a memory in
/// decimal.
fn explain_ranges<C: Console>(console: &C, texts: RangeTexts<'_>) {
    for value in texts.values {
        let name = texts.name;
        if let Some(length) = length_to_end(value) {
            console.explain(format_args!(
                "--{name} {value} is a first address and a length; the length up to that address is {length:04X}"
            ));
        }
        if let Some((text, number)) = decimal_length(value) {
            console.explain(format_args!(
                "--{name} {value} is hexadecimal: {text} in decimal is {number:X}"
            ));
        }
    }
}

/// The length of the range from the first address of a text up to its length taken for an address, if that is the last byte of a page and
/// isn't below the first address; else `None`.
fn length_to_end(text: &str) -> Option<u32> {
    let range = range_of(text)?;
    let (first, last) = (u32::from(range.first), u32::from(range.length));
    if last % 256 == 255 {
        last.checked_sub(first)?.checked_add(1)
    } else {
        None
    }
}

/// The length of a text and its value in decimal, if that is a power of two, as sizes of memories are; else `None`.
fn decimal_length(text: &str) -> Option<(&str, u64)> {
    let (_, length) = text.split_once(':')?;
    let number = count_of_digits(length)?;
    if number >= 16 && number.count_ones() == 1 {
        Some((length, number))
    } else {
        None
    }
}

/// Whether the ranges that two texts write have an address in common; `false` if one writes none.
fn overlap(first: &str, second: &str) -> bool {
    let (Some(first), Some(second)) = (range_of(first), range_of(second)) else {
        return false;
    };
    let (low, high) = if first.first <= second.first {
        (first, second)
    } else {
        (second, first)
    };
    match high.first.checked_sub(low.first) {
        Some(offset) => high.length > 0 && offset < low.length,
        None => false,
    }
}
