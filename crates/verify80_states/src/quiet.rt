//! Which addresses are quiet.

ghost use Rattle.std.specs.Prelude.{◌≡◌, ◌<◌, ℕ, None, IfOk, IfSome, map, true, false};
ghost use Rattle.std.specs.List.{range_with_len};
ghost use Rattle.image80.specs.{Range.in_range, Range.in_ranges, Regions.in_data};
ghost use Rattle.verify80_states.specs.QuietBoards.{is_quiet};
ghost use Rattle.verify80_states.specs.Marks.{is_marked};

use image80::{Range, Regions};
use std::alloc::{AllocError, Global};

/// A mark for each address of data that is in one of the ranges.
///
/// # Errors
/// `AllocError` if memory runs out.
pub fn mark_quiet(
    alloc: Global,
    regions: &Regions,
    ranges: &[Range],
) -> Result<Vec<bool>, AllocError>
    ensures { IfOk result (λ marks. (at : ℕ) → is_marked marks.items at ≡ true → is_quiet regions.now ranges.now at ≡ true) }
{
    let marks = quiet_marks(alloc, regions, ranges)?;
    Ok(marks)
}

/// By address whether it is one of data and of one of the ranges.
fn quiet_marks(alloc: Global, regions: &Regions, ranges: &[Range]) -> Result<Vec<bool>, AllocError>
    ensures { IfOk result (λ marks. marks.items ≡ map (is_quiet regions.now ranges.now) (range_with_len 0 65536)) }
{
    (0..65_536_u32)
        .map(|at| is_quiet(regions, ranges, at as u16))
        .collect(alloc)
}

/// Whether an address is one of data and of one of the ranges.
pub fn is_quiet(regions: &Regions, ranges: &[Range], at: u16) -> bool
    ensures { result ≡ is_quiet regions.now ranges.now at }
{
    regions.in_data(at) && are_around(ranges, at)
}

/// Whether an address is in one of the ranges.
fn are_around(ranges: &[Range], at: u16) -> bool
    ensures { result ≡ in_ranges ranges.now at }
{
    ranges.iter().any(|range| range.contains(at))
}

/// The first address of a range that is no data, if there is one: such a range isn't quiet as a whole.
pub fn first_outside_data(regions: &Regions, range: Range) -> Option<u16>
    ensures some { IfSome result (λ at. (in_range range at ≡ true) × (in_data regions.now at ≡ false)) }
    ensures none { result ≡ None → (at : ℕ) → at < 65536 → in_range range at ≡ true → in_data regions.now at ≡ true }
{
    for place in 0..65_536_usize {
        let at = place as u16;
        if range.contains(at) && !regions.in_data(at) {
            return Some(at);
        }
    }
    None
}
