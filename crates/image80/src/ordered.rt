//! Ranges by address, and whether an address lies in two of them.

ghost use Rattle.std.specs.Prelude.{◌≡◌, ◌+◌, ◌<◌, ◌↔◌, ◌∷◌, ◌++◌, nat_le, IsTrue, IfOk, All, IsPermutation};
ghost use Rattle.std.specs.List.{IsAllAdjacentAnswer};
ghost use Rattle.std.specs.List.Sorted.{IsNonDecreasingBy};
ghost use Rattle.image80.specs.Regions.{AreDisjoint};

use crate::range::Range;
use std::alloc::{AllocError, Global};

/// Sorts the ranges by their first addresses.
pub(crate) fn sort(ranges: &mut Vec<Range>)
    ensures same { IsPermutation ranges.old.items ranges.new.items }
    ensures by_first { IsNonDecreasingBy (λ range. range.first) ranges.new.items }
{
    ranges.sort_unstable_by_key(|range| range.first);
}

/// Whether no address lies in two of the ranges of code, stack and data. Those of code and data
/// must not be empty; the stack's may be.
pub(crate) fn are_disjoint(
    alloc: Global,
    code: &[Range],
    stack: Range,
    data_ranges: &[Range],
) -> Result<bool, AllocError>
    requires code_filled { All (λ range. 0 < range.length) code.now }
    requires data_filled { All (λ range. 0 < range.length) data_ranges.now }
    ensures { IfOk result (λ disjoint. IsTrue disjoint ↔ AreDisjoint (code.now ++ stack ∷ data_ranges.now)) }
{
    let mut ranges = Vec::from_slice(alloc, code)?;
    if stack.length != 0 {
        ranges.push(stack)?;
    }
    ranges.extend_from_slice(data_ranges)?;
    sort(&mut ranges);
    Ok(each_ends_by_the_next(&ranges))
}

/// Whether each range ends at or below the first address of the next.
fn each_ends_by_the_next(ranges: &[Range]) -> bool
    ensures { IsAllAdjacentAnswer (λ a b r. r ≡ nat_le (a.first + a.length) b.first) ranges.now result }
{
    ranges.is_sorted_by(|range, next| {
        u32::from(range.first) + u32::from(range.length) <= u32::from(next.first)
    })
}
