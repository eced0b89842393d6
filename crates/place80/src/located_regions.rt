//! The regions of a located program.

ghost use Rattle.std.specs.Prelude.{◌≡◌, ◌<◌, [], ◌∷◌, ◌++◌, IfOk, OnOk};
ghost use Rattle.image80.specs.RegionsText.{filled};
ghost use Rattle.std.specs.List.{AllByRecursion};
ghost use Rattle.image80.specs.Regions.{Arranges};
ghost use Rattle.place80.specs.Locating.{Fit, is_data, range_at, located_code, located_stack, located_data};

use crate::placed_segments::{Placed, placed_in};
use image80::{Range, Regions};
use omf_core::segment_id::{CODE, STACK};
use std::alloc::{AllocError, Global};

/// The regions of the segments: code is CODE, data are DATA, MEMORY and all commons, the stack is STACK. The segments
/// must be in memory and apart, each with a length below 65536.
pub(crate) fn located_regions(alloc: Global, segments: &[Placed]) -> Result<Regions, AllocError>
    requires { Fit segments.now }
    ensures { IfOk result (Arranges (located_code segments.now) (located_stack segments.now) (located_data segments.now)) }
{
    let code = code_ranges(alloc, segments)?;
    let stack = stack_range(segments);
    let data_ranges = data_ranges(alloc, segments)?;
    Ok(Regions::from_disjoint(alloc, code, stack, data_ranges))
}

/// The range of CODE, in a list that is empty if CODE has no bytes. Each segment's length must be below 65536.
pub(crate) fn code_ranges(alloc: Global, segments: &[Placed]) -> Result<Vec<Range>, AllocError>
    requires { AllByRecursion (λ p. p.length < 65536) segments.now }
    ensures { IfOk result (λ ranges. ranges.items ≡ located_code segments.now) }
{
    let mut ranges = Vec::new(alloc);
    for placed in segments {
        if placed.id == CODE {
            push_filled(&mut ranges, range_at(*placed))?;
        }
    }
    Ok(ranges)
}

/// The ranges of DATA, MEMORY and all commons, without the empty ones. Each segment's length must be below 65536.
pub(crate) fn data_ranges(alloc: Global, segments: &[Placed]) -> Result<Vec<Range>, AllocError>
    requires { AllByRecursion (λ p. p.length < 65536) segments.now }
    ensures { IfOk result (λ ranges. ranges.items ≡ located_data segments.now) }
{
    let mut ranges = Vec::new(alloc);
    for placed in segments {
        if is_data(placed.id) {
            push_filled(&mut ranges, range_at(*placed))?;
        }
    }
    Ok(ranges)
}

/// Whether a segment with this id belongs to data: any but CODE and STACK.
fn is_data(id: u8) -> bool
    ensures { result ≡ is_data id }
{
    !(id == CODE || id == STACK)
}

/// Appends the range, if it isn't empty.
fn push_filled(ranges: &mut Vec<Range>, range: Range) -> Result<(), AllocError>
    ensures { OnOk result (ranges.new.items ≡ ranges.old.items ++ filled (range ∷ [])) }
{
    if range.length > 0 {
        ranges.push(range)?;
    }
    Ok(())
}

/// The range of STACK, which may be empty. Each segment's length must be below 65536.
pub(crate) fn stack_range(segments: &[Placed]) -> Range
    requires { AllByRecursion (λ p. p.length < 65536) segments.now }
    ensures { result ≡ located_stack segments.now }
{
    range_at(placed_in(segments, STACK))
}

/// The range of a placed segment; an empty one at the end of memory begins at 0. The segment's length must be below
/// 65536.
fn range_at(placed: Placed) -> Range
    requires { placed.length < 65536 }
    ensures { result ≡ range_at placed }
{
    Range {
        first: (placed.base % 65536) as u16,
        length: placed.length as u16,
    }
}
