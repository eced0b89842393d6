//! Regions with cases added.

ghost use Rattle.std.specs.Prelude.{◌≡◌, ◌++◌, [], IsPermutation, IfOk, OnOk, map};
ghost use Rattle.std.specs.List.Sorted.{IsNonDecreasingBy};
ghost use Rattle.image80.specs.RegionsText.{cases_text};
ghost use Rattle.verify80_cases.specs.Added.{AddsCases, CanBeAdded, second_text};

use image80::laws::text_of_regions_is_read_as_itself;
use image80::{Case, Regions, case_lines, write_regions2};
use std::alloc::{AllocError, Global};
use std::slice;

/// The text of version 2 of these regions with these cases added to theirs. The cases must be by
/// address, one for an address at most, each with ascending targets, at least one, and the regions
/// must have none of their addresses.
///
/// # Errors
/// `AllocError` only if memory runs out.
pub fn regions_with_cases(
    alloc: Global,
    regions: &Regions,
    cases: &[Case],
) -> Result<Vec<u8>, AllocError>
    requires { CanBeAdded regions.now cases.now }
    ensures { IfOk result (λ text. AddsCases regions.now cases.now text.items) }
{
    text_of_regions_is_read_as_itself();
    let joined = by_address(alloc, regions.cases(), cases)?;
    let mut text = text_without_cases(alloc, regions)?;
    add_lines(alloc, &mut text, &joined)?;
    Ok(text)
}

/// References to all these cases, sorted by address.
fn by_address<'a>(
    alloc: Global,
    first: &'a [Case],
    second: &'a [Case],
) -> Result<Vec<&'a Case>, AllocError>
    ensures same { IfOk result (λ cases. IsPermutation (first.now ++ second.now) (map (λ case. case.now) cases.items)) }
    ensures sorted { IfOk result (λ cases. IsNonDecreasingBy (λ case. case.at) (map (λ case. case.now) cases.items)) }
{
    let mut cases = Vec::new(alloc);
    add_references(&mut cases, first)?;
    add_references(&mut cases, second)?;
    cases.sort_unstable_by_key(|case| case.at);
    Ok(cases)
}

/// Appends a reference to each of these cases.
fn add_references<'a>(all: &mut Vec<&'a Case>, cases: &'a [Case]) -> Result<(), AllocError>
    ensures { OnOk result (map (λ case. case.now) all.new.items ≡ map (λ case. case.now) all.old.items ++ cases.now) }
{
    for case in cases {
        all.push(case)?;
    }
    Ok(())
}

/// The text of version 2 of the regions without the lines of their cases.
fn text_without_cases(alloc: Global, regions: &Regions) -> Result<Vec<u8>, AllocError>
    ensures { IfOk result (λ text. text.items ≡ second_text (record regions.now { cases = [] })) }
{
    let mut text = Vec::new(alloc);
    write_regions2(alloc, regions, &mut text)?;
    let lines = case_lines(alloc, regions.cases())?;
    text.truncate(text.len() - lines.len());
    Ok(text)
}

/// Appends the line of each of these cases.
fn add_lines(alloc: Global, text: &mut Vec<u8>, cases: &[&Case]) -> Result<(), AllocError>
    ensures { OnOk result (text.new.items ≡ text.old.items ++ cases_text (map (λ case. case.now) cases.now)) }
{
    for case in cases {
        let line = case_lines(alloc, slice::from_ref(*case))?;
        text.extend_from_slice(&line)?;
    }
    Ok(())
}
