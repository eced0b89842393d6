//! The reader of regions texts.

ghost use Rattle.std.specs.Prelude.{◌≡◌, ◌∷◌, ℕ, List, [], true, false, ◌==◌, map, IfOk, IfErr, OnOk, IfSome, IfNone, slice_get};
ghost use Rattle.std.specs.List.{IsDistinct};
ghost use Rattle.image80.specs.Lines.{parts};
ghost use Rattle.image80.specs.Reading.{AreCasesOf, is_seen};
ghost use Rattle.image80.specs.RegionsText.{heading, code_ranges, data_ranges, stack_ranges, case_lines, entry_text, GoodText, IsProper, Spells, Refuses};
ghost use Rattle.image80.specs.declared.fault.RegionsFault.TheVariants.{BadVersion};

use crate::case::Case;
use crate::case_line::case_of;
use crate::entry::{Entry, read_entry};
use crate::fault::RegionsFault;
use crate::lines::first_line;
use crate::range::Range;
use crate::regions::Regions;
use crate::seen::Seen;
use crate::version::Version;
use std::alloc::{AllocError, Global};

/// The regions that a text of version 1 or 2 spells.
///
/// The first line is `REGIONS 1` or `REGIONS 2`. Each further line is `CODE ffff llll`,
/// `DATA ffff llll` or `STACK ffff llll`, the first address and the length of a range in upper case
/// hexadecimal, in any order, and each line ends with its line feed. Code and data of length 0 are
/// left out. In version 2 a line may also be `CASE aaaa tttt ..`, the address of a PCHL and at least
/// one target; there is one for an address at most, and a target may stand in it more than once. The
/// faults are looked for in the order `BadVersion`, `BadLine` with the first such line, `NoStack`,
/// `RegionsOverlap`; `Memory` comes only if memory ran out, and never in place of `BadVersion`.
pub fn read_regions(alloc: Global, bytes: &[u8]) -> Result<Regions, RegionsFault>
    ensures spelled { IfOk result (Spells bytes.now) }
    ensures refused { IfErr result (Refuses bytes.now) }
    ensures version { IfErr result (λ fault. Refuses bytes.now BadVersion → fault ≡ BadVersion) }
{
    let (version, lines) = after_heading(bytes)?;
    let entries = read_entries(alloc, version, lines)?;
    let Some(stack) = stack_of(&entries) else {
        return Err(RegionsFault::NoStack);
    };
    let code = code_of(alloc, &entries)?;
    let data_ranges = data_of(alloc, &entries)?;
    let Some(regions) = Regions::from_ranges(alloc, code, stack, data_ranges)? else {
        return Err(RegionsFault::RegionsOverlap);
    };
    Ok(regions.with_cases(cases_of(alloc, &entries)?))
}

/// Reads the first line of a regions text, and returns the text's version and what follows the line. The fault is
/// `BadVersion` if the line is no heading, `BadLine(1)` if it is one without a line feed.
fn after_heading(text: &[u8]) -> Result<(Version, &[u8]), RegionsFault>
    ensures after { IfOk result (λ (version, after). parts text.now ≡ heading version ∷ parts after.now) }
    ensures refused { IfErr result (Refuses text.now) }
    ensures version { IfErr result (λ fault. Refuses text.now BadVersion → fault ≡ BadVersion) }
{
    match first_line(text) {
        Some((line, after)) => match Version::of_heading(line) {
            Some(version) => Ok((version, after)),
            None => Err(RegionsFault::BadVersion),
        },
        None => match Version::of_heading(text) {
            Some(_) => Err(RegionsFault::BadLine(1)),
            None => Err(RegionsFault::BadVersion),
        },
    }
}

/// Reads all lines after the heading of a text of the version. The first bad line is reported as `BadLine`, with the
/// heading counted as line 1.
fn read_entries(alloc: Global, version: Version, lines: &[u8]) -> Result<Vec<Entry>, RegionsFault>
    ensures good { IfOk result (λ entries. (text : List ℕ) → parts text ≡ heading version ∷ parts lines.now →
        GoodText version text entries.items) }
    ensures refused { IfErr result (λ fault. (text : List ℕ) → parts text ≡ heading version ∷ parts lines.now →
        Refuses text fault) }
{
    let mut entries = Vec::new(alloc);
    put_entries(alloc, version, lines, &mut entries)?;
    Ok(entries)
}

/// Fills a list, which must be empty, with all lines after the heading of a text of the version. The first bad line is
/// reported as `BadLine`, with the heading counted as line 1.
fn put_entries(
    alloc: Global,
    version: Version,
    lines: &[u8],
    entries: &mut Vec<Entry>,
) -> Result<(), RegionsFault>
    requires { entries.old.items ≡ [] }
    ensures good { OnOk result ((text : List ℕ) → parts text ≡ heading version ∷ parts lines.now →
        GoodText version text entries.new.items) }
    ensures refused { IfErr result (λ fault. (text : List ℕ) → parts text ≡ heading version ∷ parts lines.now →
        Refuses text fault) }
{
    let mut seen = Seen::new(alloc)?;
    let mut rest = lines;
    while let Some((line, after)) = first_line(rest) {
        let Some(entry) = next_entry(alloc, version, line, &seen)? else {
            return Err(RegionsFault::BadLine(entries.len() + 2));
        };
        seen.add(&entry);
        entries.push(entry)?;
        rest = after;
    }
    if !rest.is_empty() {
        return Err(RegionsFault::BadLine(entries.len() + 2));
    }
    Ok(())
}

/// Reads a line of a text of the version. `None` if it is malformed, or if it is a second STACK line, or a second
/// CASE line for an address, after the lines in `seen`.
fn next_entry(
    alloc: Global,
    version: Version,
    line: &[u8],
    seen: &Seen,
) -> Result<Option<Entry>, AllocError>
    ensures spelled { IfOk result (λ read. IfSome read (λ entry. line.now ≡ entry_text entry)) }
    ensures proper { IfOk result (λ read. IfSome read (λ entry. IsProper version entry)) }
    ensures new { IfOk result (λ read. IfSome read (λ entry. is_seen seen.now entry ≡ false)) }
    ensures none { IfOk result (λ read. IfNone read ((entry : Entry) → IsProper version entry → line.now ≡ entry_text entry →
        is_seen seen.now entry ≡ true)) }
{
    let Some(entry) = read_entry(alloc, version, line)? else {
        return Ok(None);
    };
    if seen.has(&entry) {
        return Ok(None);
    }
    Ok(Some(entry))
}

/// The range of the first STACK line, `None` if there is no such line.
fn stack_of(entries: &[Entry]) -> Option<Range>
    ensures { result ≡ slice_get (stack_ranges entries.now) 0 }
{
    for entry in entries {
        if let Some(range) = entry.stack() {
            return Some(range);
        }
    }
    None
}

/// The ranges of the CODE lines, in order, without the empty ones.
fn code_of(alloc: Global, entries: &[Entry]) -> Result<Vec<Range>, AllocError>
    ensures { IfOk result (λ ranges. ranges.items ≡ code_ranges entries.now) }
{
    entries
        .iter()
        .filter_map(|entry| entry.code())
        .filter(|range| range.length > 0)
        .collect(alloc)
}

/// The ranges of the DATA lines, in order, without the empty ones.
fn data_of(alloc: Global, entries: &[Entry]) -> Result<Vec<Range>, AllocError>
    ensures { IfOk result (λ ranges. ranges.items ≡ data_ranges entries.now) }
{
    entries
        .iter()
        .filter_map(|entry| entry.data())
        .filter(|range| range.length > 0)
        .collect(alloc)
}

/// The cases that the CASE lines declare, sorted by address. Each line must have an address of its own.
fn cases_of(alloc: Global, entries: &[Entry]) -> Result<Vec<Case>, AllocError>
    requires { IsDistinct (λ a b. a == b) (map (λ case. case.at) (case_lines entries.now)) }
    ensures { IfOk result (λ cases. AreCasesOf (case_lines entries.now) cases.items) }
{
    let mut cases = Vec::new(alloc);
    for entry in entries {
        if let Some(line) = entry.case() {
            cases.push(case_of(alloc, line)?)?;
        }
    }
    cases.sort_unstable_by_key(|case| case.at);
    Ok(cases)
}
