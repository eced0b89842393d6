//! The writers of regions texts.

ghost use Rattle.std.specs.Prelude.{◌≡◌, codes, ◌∷◌, ◌++◌, [], IfOk, OnOk, OnErr};
ghost use Rattle.std.specs.List.{flat_map};
ghost use Rattle.image80.specs.Regions.{AreRegions};
ghost use Rattle.image80.specs.RegionsText.{Spells, case_text, cases_text, range_text, regions_text, targets_text, text_in};
ghost use Rattle.image80.specs.declared.version.Version.TheVariants.{Two};

use crate::case::Case;
use crate::laws::text_of_regions_is_read_as_itself;
use crate::range::Range;
use crate::regions::Regions;
use crate::version::Version;
use std::alloc::{AllocError, Global};
use text80::word_digits;

/// Appends the text of the regions, of version 2 if they have a case and of version 1 if they have none: the line
/// `REGIONS 1` or `REGIONS 2`, the code lines by address, the stack line, the data lines by address, the case lines
/// by address with their targets ascending. [`read_regions`](crate::read_regions) reads it as the same regions. When
/// memory runs out, `out` is unchanged.
pub fn write_regions(alloc: Global, regions: &Regions, out: &mut Vec<u8>) -> Result<(), AllocError>
    ensures ok { OnOk result (out.new.items ≡ out.old.items ++ regions_text regions.now) }
    ensures read { OnOk result (Spells (regions_text regions.now) regions.now) }
    ensures err { OnErr result (out.new.items ≡ out.old.items) }
{
    text_of_regions_is_read_as_itself();
    let version = match regions.cases() {
        [] => Version::One,
        _ => Version::Two,
    };
    append_text(alloc, version, regions, out)
}

/// Appends the text of the regions in version 2, whether they have a case or not, with the lines in the order of
/// [`write_regions`]. [`read_regions`](crate::read_regions) reads it as the same regions. When memory runs out, `out`
/// is unchanged.
pub fn write_regions2(alloc: Global, regions: &Regions, out: &mut Vec<u8>) -> Result<(), AllocError>
    ensures ok { OnOk result (out.new.items ≡ out.old.items ++ text_in Two regions.now) }
    ensures read { OnOk result (Spells (text_in Two regions.now) regions.now) }
    ensures err { OnErr result (out.new.items ≡ out.old.items) }
{
    text_of_regions_is_read_as_itself();
    append_text(alloc, Version::Two, regions, out)
}

/// The CASE lines of the cases, in order, as a regions text of version 2 has them.
///
/// # Errors
/// `AllocError` only if memory runs out.
pub fn case_lines(alloc: Global, cases: &[Case]) -> Result<Vec<u8>, AllocError>
    ensures { IfOk result (λ text. text.items ≡ cases_text cases.now) }
{
    let mut text = Vec::new(alloc);
    put_cases(&mut text, cases)?;
    Ok(text)
}

/// Appends the text of the regions in the version. When memory runs out, `out` is unchanged.
fn append_text(
    alloc: Global,
    version: Version,
    regions: &Regions,
    out: &mut Vec<u8>,
) -> Result<(), AllocError>
    ensures ok { OnOk result (out.new.items ≡ out.old.items ++ text_in version regions.now) }
    ensures rules { OnOk result (AreRegions regions.now) }
    ensures err { OnErr result (out.new.items ≡ out.old.items) }
{
    let text = text_in(alloc, version, regions)?;
    out.extend_from_slice(&text)
}

/// The whole regions text of the regions, in the version.
fn text_in(alloc: Global, version: Version, regions: &Regions) -> Result<Vec<u8>, AllocError>
    ensures text { IfOk result (λ text. text.items ≡ text_in version regions.now) }
    ensures rules { OnOk result (AreRegions regions.now) }
{
    let mut text = Vec::from_slice(alloc, version.heading())?;
    text.push(b'\n')?;
    put_lines(&mut text, b"CODE ".as_slice(), regions.code())?;
    put_line(&mut text, b"STACK ".as_slice(), regions.stack())?;
    put_lines(&mut text, b"DATA ".as_slice(), regions.data_ranges())?;
    put_cases(&mut text, regions.cases())?;
    Ok(text)
}

/// Appends a line for each range: the keyword, the first address and the length.
fn put_lines(text: &mut Vec<u8>, keyword: &[u8], ranges: &[Range]) -> Result<(), AllocError>
    ensures { OnOk result (text.new.items ≡ text.old.items
        ++ flat_map (λ range. (keyword.now ++ range_text range) ++ 10 ∷ []) ranges.now) }
{
    for range in ranges {
        put_line(text, keyword, *range)?;
    }
    Ok(())
}

/// Appends the line of a range: the keyword, the first address, a space, the length and a line feed.
fn put_line(text: &mut Vec<u8>, keyword: &[u8], range: Range) -> Result<(), AllocError>
    ensures { OnOk result (text.new.items ≡ text.old.items
        ++ ((keyword.now ++ range_text range) ++ 10 ∷ [])) }
{
    text.extend_from_slice(keyword)?;
    text.extend_from_slice(&word_digits(range.first))?;
    text.push(b' ')?;
    text.extend_from_slice(&word_digits(range.length))?;
    text.push(b'\n')?;
    Ok(())
}

/// Appends the CASE line of each case, in order.
fn put_cases(text: &mut Vec<u8>, cases: &[Case]) -> Result<(), AllocError>
    ensures { OnOk result (text.new.items ≡ text.old.items ++ cases_text cases.now) }
{
    for case in cases {
        put_case(text, case)?;
    }
    Ok(())
}

/// Appends the CASE line of a case, with its line feed.
fn put_case(text: &mut Vec<u8>, case: &Case) -> Result<(), AllocError>
    ensures { OnOk result (text.new.items ≡ text.old.items ++ ((codes "CASE " ++ case_text case.now) ++ 10 ∷ [])) }
{
    text.extend_from_slice(b"CASE ".as_slice())?;
    text.extend_from_slice(&word_digits(case.at))?;
    put_targets(text, &case.targets)?;
    text.push(b'\n')?;
    Ok(())
}

/// Appends the targets, each as a space and four hexadecimal digits.
fn put_targets(text: &mut Vec<u8>, targets: &[u16]) -> Result<(), AllocError>
    ensures { OnOk result (text.new.items ≡ text.old.items ++ targets_text targets.now) }
{
    for target in targets {
        text.push(b' ')?;
        text.extend_from_slice(&word_digits(*target))?;
    }
    Ok(())
}
