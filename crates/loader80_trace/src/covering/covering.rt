//! The lines of an image's code.

ghost use Rattle.std.specs.Prelude.{◌≡◌, ◌<◌, ◌≤◌, ◌++◌, false, [], IfOk, OnOk, length, slice_index, slice_index_or, true, if◌then◌else◌};
ghost use Rattle.image80.specs.Image.{memory_of};
ghost use Rattle.loader80_trace.specs.Cover.{CoversReached, ListsReached, cover_lines, data_before, is_begun, is_data, is_instruction, line_of, mark_if, mark_line, marked_lines, sums_line, tally};
ghost use Rattle.verify80.specs.Reached.{found_at};

use crate::covering::line::{append_data, append_instruction};
use crate::covering::places::{Layout, data_behind, is_data, reached_at};
use decode80::Fetched;
use image80::Image;
use loader80::Vouched;
use machine80::FlatBus;
use std::alloc::{AllocError, Global};
use std::fmt::Write;
use text80::word_digits;
use verify80::find_reached;

/// The lines of a vouched image's code, by address: one for each instruction that walks reach, as a listing has it,
/// and the bytes of code that are in no such instruction as data, eight a line at most. Adjacent ranges of code count
/// as one; instructions that overlap have a line each.
///
/// # Errors
/// `AllocError` only if memory runs out.
pub fn list_reached(alloc: Global, vouched: &Vouched) -> Result<Vec<u8>, AllocError>
    ensures { IfOk result (λ listed. ListsReached vouched.now.image listed.items) }
{
    let reached = find_reached(alloc, vouched)?;
    list_instructions(alloc, vouched.image(), reached.instructions())
}

/// The lines of an image's code by the instructions that `reached` has, by address, as [`list_reached`] has them.
///
/// # Errors
/// `AllocError` only if memory runs out.
pub fn list_instructions(
    alloc: Global,
    image: &Image,
    reached: &[Option<Fetched>],
) -> Result<Vec<u8>, AllocError>
    ensures { IfOk result (λ listed. listed.items ≡ cover_lines false [] image.now.regions (memory_of image.now.chunks) reached.now) }
{
    lines_of(alloc, image, reached, false, &[])
}

/// The lines of [`list_instructions`], with a line `REFUSED AT aaaa` before that of each address that is marked. An address without an
/// entry isn't.
///
/// # Errors
/// `AllocError` only if memory runs out.
pub fn list_marked(
    alloc: Global,
    image: &Image,
    reached: &[Option<Fetched>],
    marks: &[bool],
) -> Result<Vec<u8>, AllocError>
    ensures { IfOk result (λ listed. listed.items ≡ marked_lines marks.now image.now.regions (memory_of image.now.chunks) reached.now) }
{
    let memory = FlatBus::new(alloc, image)?;
    let layout = Layout {
        regions: &image.regions,
        memory: &memory,
        reached,
    };
    let mut lines = Vec::new(alloc);
    append_marked(alloc, &layout, marks, &mut lines)?;
    Ok(lines)
}

/// Appends the lines that begin at all addresses, in order, with a line before each address that is marked.
fn append_marked(
    alloc: Global,
    layout: &Layout<'_>,
    marks: &[bool],
    lines: &mut Vec<u8>,
) -> Result<(), AllocError>
    ensures { OnOk result (lines.new.items ≡ lines.old.items
        ++ marked_lines marks.now layout.now.regions.now layout.now.memory.now layout.now.reached.now) }
{
    let mut before = 0;
    for at in 0..65536usize {
        append_mark(marks, at, lines)?;
        append_line(alloc, layout, false, 0, at as u16, before, lines)?;
        before = data_behind(layout, at, before);
    }
    Ok(())
}

/// Appends the line before an address that is marked; nothing if it isn't. `at` must be below 65536.
fn append_mark(marks: &[bool], at: usize, lines: &mut Vec<u8>) -> Result<(), AllocError>
    requires { at < 65536 }
    ensures { OnOk result (lines.new.items ≡ lines.old.items ++ mark_if (slice_index_or marks.now at false) at) }
{
    if is_marked(marks, at) {
        return append_mark_line(at as u16, lines);
    }
    Ok(())
}

/// Whether an address is marked.
fn is_marked(marks: &[bool], at: usize) -> bool
    ensures { result ≡ slice_index_or marks.now at false }
{
    marks.get(at).copied().unwrap_or(false)
}

/// Appends the line before a marked address.
fn append_mark_line(at: u16, lines: &mut Vec<u8>) -> Result<(), AllocError>
    ensures { OnOk result (lines.new.items ≡ lines.old.items ++ mark_line at) }
{
    lines.extend_from_slice(b"REFUSED AT ".as_slice())?;
    lines.extend_from_slice(&word_digits(at))?;
    lines.push(b'\n')?;
    Ok(())
}

/// The lines of [`list_reached`], each instruction with how often a run began it by `counts`, or `-` if it didn't; and
/// a last line `REACHED n OF m`: how many of the instructions were begun. `counts` must have 65536 entries, one for
/// each address.
///
/// # Errors
/// `AllocError` only if memory runs out.
pub fn cover(alloc: Global, vouched: &Vouched, counts: &[u64]) -> Result<Vec<u8>, AllocError>
    requires { length counts.now ≡ 65536 }
    ensures { IfOk result (λ listed. CoversReached vouched.now.image counts.now listed.items) }
{
    let reached = find_reached(alloc, vouched)?;
    cover_instructions(alloc, vouched.image(), reached.instructions(), counts)
}

/// The lines of [`list_instructions`], each instruction with its count in `counts`, or `-` if that is 0; and a last line
/// `REACHED n OF m`: how many of the instructions have a count above 0. `counts` must have 65536 entries, one for each
/// address.
///
/// # Errors
/// `AllocError` only if memory runs out.
pub fn cover_instructions(
    alloc: Global,
    image: &Image,
    reached: &[Option<Fetched>],
    counts: &[u64],
) -> Result<Vec<u8>, AllocError>
    requires { length counts.now ≡ 65536 }
    ensures { IfOk result (λ listed. listed.items
        ≡ cover_lines true counts.now image.now.regions (memory_of image.now.chunks) reached.now ++ sums_line counts.now reached.now) }
{
    let mut lines = lines_of(alloc, image, reached, true, counts)?;
    append_sums(alloc, reached, counts, &mut lines)?;
    Ok(lines)
}

/// The lines of an image's code, by the instructions that are reached; with counts if `shown`. If `shown`, `counts`
/// must have 65536 entries.
fn lines_of(
    alloc: Global,
    image: &Image,
    reached: &[Option<Fetched>],
    shown: bool,
    counts: &[u64],
) -> Result<Vec<u8>, AllocError>
    requires { shown ≡ true → length counts.now ≡ 65536 }
    ensures { IfOk result (λ lines. lines.items
        ≡ cover_lines shown counts.now image.now.regions (memory_of image.now.chunks) reached.now) }
{
    let memory = FlatBus::new(alloc, image)?;
    let layout = Layout {
        regions: &image.regions,
        memory: &memory,
        reached,
    };
    let mut lines = Vec::new(alloc);
    append_lines(alloc, &layout, shown, counts, &mut lines)?;
    Ok(lines)
}

/// Appends the lines that begin at all addresses, in order, with their counts if `shown`. If `shown`, `counts` must
/// have 65536 entries.
fn append_lines(
    alloc: Global,
    layout: &Layout<'_>,
    shown: bool,
    counts: &[u64],
    lines: &mut Vec<u8>,
) -> Result<(), AllocError>
    requires { shown ≡ true → length counts.now ≡ 65536 }
    ensures { OnOk result (lines.new.items ≡ lines.old.items
        ++ cover_lines shown counts.now layout.now.regions.now layout.now.memory.now layout.now.reached.now) }
{
    let mut before = 0;
    for at in 0..65536usize {
        let count = count_shown(shown, counts, at);
        append_line(alloc, layout, shown, count, at as u16, before, lines)?;
        before = data_behind(layout, at, before);
    }
    Ok(())
}

/// The count of an address if `shown`, otherwise 0. `at` must be below 65536 and, if `shown`, `counts` must have 65536
/// entries.
fn count_shown(shown: bool, counts: &[u64], at: usize) -> u64
    requires whole { shown ≡ true → length counts.now ≡ 65536 }
    requires inside { at < 65536 }
    ensures { shown ≡ true → result ≡ slice_index counts.now at }
{
    if shown {
        return counts[at];
    }
    0
}

/// Appends the line that begins at an address: that of a reached instruction, or that of up to eight bytes of data if
/// the address is the first of a run of data or a multiple of eight bytes behind it. Nothing is appended if no line
/// begins there. `before` must be the number of bytes of data right before the address.
fn append_line(
    alloc: Global,
    layout: &Layout<'_>,
    shown: bool,
    count: u64,
    at: u16,
    before: usize,
    lines: &mut Vec<u8>,
) -> Result<(), AllocError>
    requires { before ≡ data_before (is_data layout.now.regions.now layout.now.reached.now) at }
    ensures { OnOk result (lines.new.items ≡ lines.old.items
        ++ line_of shown count (is_data layout.now.regions.now layout.now.reached.now) layout.now.memory.now at
        (found_at layout.now.reached.now at)) }
{
    if let Some(found) = reached_at(layout.reached, at) {
        return append_instruction(alloc, shown, count, at, found.instr, lines);
    }
    if is_data(layout, usize::from(at)) && before % 8 == 0 {
        return append_data(layout, at, lines);
    }
    Ok(())
}

/// Appends the last line, `REACHED n OF m`: how many of the reached instructions a run began, and how many there are.
/// `counts` must have 65536 entries.
fn append_sums(
    alloc: Global,
    reached: &[Option<Fetched>],
    counts: &[u64],
    lines: &mut Vec<u8>,
) -> Result<(), AllocError>
    requires { length counts.now ≡ 65536 }
    ensures { OnOk result (lines.new.items ≡ lines.old.items ++ sums_line counts.now reached.now) }
{
    let begun = count_begun(reached, counts);
    let all = count_all(reached);
    let mut text = String::new(alloc);
    writeln!(text, "REACHED {begun} OF {all}")?;
    lines.extend_from_slice(text.as_bytes())?;
    Ok(())
}

/// How many instructions are reached.
fn count_all(reached: &[Option<Fetched>]) -> u64
    ensures { result ≡ tally (is_instruction reached.now) 0 65536 }
{
    let mut count = 0;
    for at in 0..65536usize {
        count += one_if(reached_at(reached, at as u16).is_some());
    }
    count
}

/// How many of the instructions that are reached have a count above 0. `counts` must have 65536 entries.
fn count_begun(reached: &[Option<Fetched>], counts: &[u64]) -> u64
    requires { length counts.now ≡ 65536 }
    ensures { result ≡ tally (is_begun counts.now reached.now) 0 65536 }
{
    let mut count = 0;
    for at in 0..65536usize {
        count += one_if(is_begun(reached, counts, at));
    }
    count
}

/// Whether an instruction is reached at the address, and its count is above 0. `at` must be below 65536, and `counts`
/// must have 65536 entries.
fn is_begun(reached: &[Option<Fetched>], counts: &[u64], at: usize) -> bool
    requires whole { length counts.now ≡ 65536 }
    requires inside { at < 65536 }
    ensures { result ≡ is_begun counts.now reached.now at }
{
    reached_at(reached, at as u16).is_some() && counts[at] > 0
}

/// 1 for true, 0 for false.
fn one_if(passed: bool) -> u64
    ensures value { result ≡ (if passed then 1 else 0) }
    ensures few { result ≤ 1 }
{
    if passed {
        return 1;
    }
    0
}
