//! The memory of an image: its ranges, and the sums of its ROMs.

ghost use Rattle.std.specs.Prelude.{◌≡◌, ◌++◌, IfOk, OnOk, codes};
ghost use Rattle.std.specs.List.{flat_map};
ghost use Rattle.page80.specs.Pictures.{IsWithin};
ghost use Rattle.rom80.specs.Rom.{bytes_over, sum_line};
ghost use Rattle.report80.specs.MemoryText.{fill_text, map_text, range_label, range_line, rom_line, sums_text};

use image80::{Image, Range, Regions};
use page80::{Area, Frame, Page, Paint};
use rom80::{bytes_over, sum_text};
use std::alloc::{AllocError, Global};
use text80::{byte_digits, word_digits};

/// The most ranges of code with sums: as many as PROMs of 1,024 bytes fill memory.
const MOST_ROMS: usize = 64;

/// The picture of memory, in units of 16 addresses.
const MEMORY: Frame = Frame {
    width: 4096,
    height: 100,
};

/// Appends the picture of memory.
pub(crate) fn append_map(
    alloc: Global,
    page: &mut Page,
    regions: &Regions,
) -> Result<(), AllocError>
    ensures { OnOk result (page.new ≡ page.old ++ map_text regions.now) }
{
    page.begin_strip(alloc, MEMORY)?;
    append_code(alloc, page, regions)?;
    append_stack(alloc, page, regions)?;
    append_data(alloc, page, regions)?;
    page.end_strip()
}

/// Appends the ranges of the code.
fn append_code(alloc: Global, page: &mut Page, regions: &Regions) -> Result<(), AllocError>
    ensures { OnOk result (page.new ≡ page.old ++ flat_map (range_label (codes "CODE ")) regions.now.code) }
{
    append_ranges(
        alloc,
        page,
        b"CODE ".as_slice(),
        Paint::Code,
        regions.code(),
    )
}

/// Appends the stack.
fn append_stack(alloc: Global, page: &mut Page, regions: &Regions) -> Result<(), AllocError>
    ensures { OnOk result (page.new ≡ page.old ++ range_label (codes "STACK ") regions.now.stack) }
{
    append_range(
        alloc,
        page,
        b"STACK ".as_slice(),
        Paint::Stack,
        regions.stack(),
    )
}

/// Appends the ranges of the data.
fn append_data(alloc: Global, page: &mut Page, regions: &Regions) -> Result<(), AllocError>
    ensures { OnOk result (page.new ≡ page.old ++ flat_map (range_label (codes "DATA ")) regions.now.data_ranges) }
{
    append_ranges(
        alloc,
        page,
        b"DATA ".as_slice(),
        Paint::Data,
        regions.data_ranges(),
    )
}

/// Appends a shape for each range.
fn append_ranges(
    alloc: Global,
    page: &mut Page,
    word: &[u8],
    paint: Paint,
    ranges: &[Range],
) -> Result<(), AllocError>
    ensures { OnOk result (page.new ≡ page.old ++ flat_map (range_label word.now) ranges.now) }
{
    for range in ranges {
        append_range(alloc, page, word, paint, *range)?;
    }
    Ok(())
}

/// Appends the shape of a range, with its text.
fn append_range(
    alloc: Global,
    page: &mut Page,
    word: &[u8],
    paint: Paint,
    range: Range,
) -> Result<(), AllocError>
    ensures { OnOk result (page.new ≡ page.old ++ range_label word.now range) }
{
    let text = range_line(alloc, word, range)?;
    page.titled_shape(alloc, MEMORY, area_of(range), paint, &text)
}

/// Where a range is in the picture: what it has of each 16 addresses counts as all of them.
fn area_of(range: Range) -> Area
    ensures { IsWithin MEMORY result }
{
    let x = range.first / 16;
    let end = (u32::from(range.first) + u32::from(range.length)).div_ceil(16);
    let width = end.min(4096).saturating_sub(u32::from(x));
    Area {
        x,
        y: 0,
        width: width as u16,
        height: 100,
    }
}

/// A word, and a range behind it.
fn range_line(alloc: Global, word: &[u8], range: Range) -> Result<Vec<u8>, AllocError>
    ensures { IfOk result (λ text. text.items ≡ range_line word.now range) }
{
    let mut text = Vec::from_slice(alloc, word)?;
    text.extend_from_slice(&word_digits(range.first))?;
    text.push(b' ')?;
    text.extend_from_slice(&word_digits(range.length))?;
    Ok(text)
}

/// Appends the sums of each range of an image's code, if there aren't too many: with FF for a byte that the image lacks, and with 00.
pub(crate) fn append_sums(alloc: Global, page: &mut Page, image: &Image) -> Result<(), AllocError>
    ensures { OnOk result (page.new ≡ page.old ++ sums_text image.now.chunks image.now.regions.code) }
{
    let code = image.regions.code();
    if code.len() > MOST_ROMS {
        return Ok(());
    }
    let erased = sums_of(alloc, image, code, 0xFF)?;
    page.table(&erased)?;
    let zeroed = sums_of(alloc, image, code, 0)?;
    page.table(&zeroed)
}

/// The lines of the sums of these ranges, with `fill` for a byte that the image lacks.
fn sums_of(alloc: Global, image: &Image, code: &[Range], fill: u8) -> Result<Vec<u8>, AllocError>
    ensures { IfOk result (λ text. text.items ≡ flat_map (rom_line image.now.chunks fill) code.now) }
{
    let mut text = Vec::new(alloc);
    for range in code {
        append_sum(alloc, &mut text, image, fill, *range)?;
    }
    Ok(text)
}

/// Appends the line of the sum of a range, with `fill` for a byte that the image lacks. `AllocError` also if the range goes past
/// memory, which no range of an image's regions does.
fn append_sum(
    alloc: Global,
    text: &mut Vec<u8>,
    image: &Image,
    fill: u8,
    range: Range,
) -> Result<(), AllocError>
    ensures { OnOk result (text.new.items ≡ text.old.items ++ rom_line image.now.chunks fill range) }
{
    append_rom(alloc, text, range)?;
    append_fill(text, fill)?;
    append_sum_over(alloc, text, image, fill, range)?;
    Ok(())
}

/// Appends the range of a ROM.
fn append_rom(alloc: Global, text: &mut Vec<u8>, range: Range) -> Result<(), AllocError>
    ensures { OnOk result (text.new.items ≡ text.old.items ++ range_line (codes "ROM ") range) }
{
    let line = range_line(alloc, b"ROM ".as_slice(), range)?;
    text.extend_from_slice(&line)
}

/// Appends the sum of the bytes over a range, as a line. `AllocError` also if the range goes past memory.
fn append_sum_over(
    alloc: Global,
    text: &mut Vec<u8>,
    image: &Image,
    fill: u8,
    range: Range,
) -> Result<(), AllocError>
    ensures { OnOk result (text.new.items
        ≡ text.old.items ++ sum_line (bytes_over fill image.now.chunks range.first range.length)) }
{
    let sum = sum_over(alloc, image, fill, range)?;
    text.extend_from_slice(&sum)
}

/// Appends which byte stands where an image has none.
fn append_fill(text: &mut Vec<u8>, fill: u8) -> Result<(), AllocError>
    ensures { OnOk result (text.new.items ≡ text.old.items ++ fill_text fill) }
{
    text.extend_from_slice(b" FILL ".as_slice())?;
    text.extend_from_slice(&byte_digits(fill))?;
    text.push(b' ')?;
    Ok(())
}

/// The sum of the bytes over a range, as a line. `AllocError` also if the range goes past memory.
fn sum_over(alloc: Global, image: &Image, fill: u8, range: Range) -> Result<Vec<u8>, AllocError>
    ensures { IfOk result (λ sum. sum.items ≡ sum_line (bytes_over fill image.now.chunks range.first range.length)) }
{
    match bytes_over(alloc, image, range.first, u32::from(range.length), fill) {
        Ok(bytes) => sum_text(alloc, &bytes),
        Err(_) => Err(AllocError),
    }
}
