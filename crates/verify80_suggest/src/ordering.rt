//! Cases by address.

ghost use Rattle.std.specs.Prelude.{◌≡◌, ◌≢◌, ◌++◌, AllPairs, IfNone, IfOk, IfSome, IsPermutation, OnOk};
ghost use Rattle.std.specs.List.Sorted.{IsNonDecreasingBy};
ghost use Rattle.image80.specs.Case.{AreByAddress};

use image80::Case;
use std::alloc::{AllocError, Global};

/// Sorts cases by address. Returns an address that two of them have; `None` if each has its own.
pub fn sort_cases(cases: &mut Vec<Case>) -> Option<u16>
    ensures permutation { IsPermutation cases.old.items cases.new.items }
    ensures by_address { IfNone result (AreByAddress cases.new.items) }
    ensures twice { IfSome result (λ _. AllPairs (λ one other. one.at ≢ other.at) cases.new.items → ⊥) }
{
    cases.sort_unstable_by_key(|case| case.at);
    repeated_address(cases)
}

/// The address of the first case that isn't above those before, so that two cases have it if they ascend; `None` if there is none.
fn repeated_address(cases: &[Case]) -> Option<u16>
    ensures by_address { IfNone result (AreByAddress cases.now) }
    ensures twice { IsNonDecreasingBy (λ case. case.at) cases.now
        → IfSome result (λ _. AllPairs (λ one other. one.at ≢ other.at) cases.now → ⊥) }
{
    let mut limit = 0_u32;
    for case in cases {
        if u32::from(case.at) < limit {
            return Some(case.at);
        }
        limit = u32::from(case.at) + 1;
    }
    None
}

/// The cases that are given and those that are found, by address. Each must have an address of its own.
///
/// # Errors
/// `AllocError` only if memory runs out.
pub(crate) fn joined(alloc: Global, given: &[Case], found: &[Case]) -> Result<Vec<Case>, AllocError>
    requires { AllPairs (λ one other. one.at ≢ other.at) (given.now ++ found.now) }
    ensures permutation { IfOk result (λ cases. IsPermutation (given.now ++ found.now) cases.items) }
    ensures by_address { IfOk result (λ cases. AreByAddress cases.items) }
{
    let mut cases = Vec::new(alloc);
    add_copies(alloc, &mut cases, given)?;
    add_copies(alloc, &mut cases, found)?;
    match sort_cases(&mut cases) {
        None => Ok(cases),
        // Each case has an address of its own.
        Some(_) => unreachable!(),
    }
}

/// Appends copies of these cases. `AllocError` if memory runs out.
fn add_copies(alloc: Global, all: &mut Vec<Case>, cases: &[Case]) -> Result<(), AllocError>
    ensures { OnOk result (all.new.items ≡ all.old.items ++ cases.now) }
{
    for case in cases {
        let copy = copy_of(alloc, case)?;
        all.push(copy)?;
    }
    Ok(())
}

/// A copy of a case. `AllocError` if memory runs out.
fn copy_of(alloc: Global, case: &Case) -> Result<Case, AllocError>
    ensures { IfOk result (λ copy. copy ≡ case.now) }
{
    let targets = Vec::from_slice(alloc, &case.targets)?;
    Ok(Case {
        at: case.at,
        targets,
    })
}
