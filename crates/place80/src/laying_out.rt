//! The places of a program's segments.

ghost use Rattle.std.specs.Prelude.{◌≡◌, ◌⊎◌, ◌≤◌, ◌<◌, ◌+◌, None, Some, length, IfOk, IfErr, OnOk};
ghost use Rattle.std.specs.List.{AllByRecursion};
ghost use Rattle.omf_model.specs.Place.{rounded};
ghost use Rattle.place80.specs.Layout.{common_ids, order_of, placed_after, layout_of};
ghost use Rattle.place80.specs.PlaceFault.{layout_fault};
ghost use Rattle.place80.specs.declared.place_fault.PlaceFault.TheVariants.{Memory};

use crate::options::Options;
use crate::outside::first_outside;
use crate::overlap::first_overlap;
use crate::place_fault::PlaceFault;
use crate::placed_segments::{Layout, Placed};
use omf_core::segment_id::{CODE, DATA, FIRST_COMMON, MEMORY, STACK, UNNAMED_COMMON};
use omf_model::has_common_id;
use omf_module::{Common, Module, Segment};
use std::alloc::{AllocError, Global};

/// The base of CODE if no option gives one.
const DEFAULT_BASE: u32 = 0x3000;

/// Places the program's segments.
///
/// A segment with a given base stands there. Any other stands at the end of the one before it, CODE at 3000h; a paged
/// one at the next multiple of 256. A given size of STACK or MEMORY replaces its length. Empty segments take their
/// place like others and overlap nothing. (ISIS-II User's Guide, LOCATE.)
///
/// # Errors
/// The first that holds of `OutsideMemory` and `Overlap`; `Memory` only if memory ran out.
pub fn layout(alloc: Global, program: &Module, options: &Options) -> Result<Layout, PlaceFault>
    ensures places { IfOk result (λ layout. layout.segments.items ≡ layout_of options.now program.now) }
    ensures lengths { IfOk result (λ layout. AllByRecursion (λ p. p.length < 65536) layout.segments.items) }
    ensures none { OnOk result (layout_fault options.now program.now ≡ None) }
    ensures fault { IfErr result (λ fault. (fault ≡ Memory) ⊎ (layout_fault options.now program.now ≡ Some fault)) }
{
    let segments = place_all(alloc, program, options)?;
    if let Some(placed) = first_outside(program, &segments) {
        return Err(PlaceFault::OutsideMemory(placed.id));
    }
    if let Some((first, second)) = first_overlap(program, &segments) {
        return Err(PlaceFault::Overlap(first.id, second.id));
    }
    Ok(Layout { segments })
}

/// The ids of the named commons, in ascending order.
fn common_ids(alloc: Global, commons: &[Common]) -> Result<Vec<u8>, AllocError>
    ensures ids { IfOk result (λ ids. ids.items ≡ common_ids commons.now) }
    ensures few { IfOk result (λ ids. length ids.items ≤ 249) }
{
    let mut ids = Vec::new(alloc);
    for id in FIRST_COMMON..UNNAMED_COMMON {
        if has_common_id(commons, id) {
            ids.push(id)?;
        }
    }
    Ok(ids)
}

/// The ids of a program's segments in the order in which they are placed: CODE, STACK, the named commons by id, the
/// unnamed common, DATA, MEMORY.
fn order(alloc: Global, commons: &[Common]) -> Result<Vec<u8>, AllocError>
    ensures order { IfOk result (λ ids. ids.items ≡ order_of commons.now) }
    ensures few { IfOk result (λ ids. length ids.items ≤ 254) }
{
    let mut ids = Vec::from_slice(alloc, [CODE, STACK].as_slice())?;
    let commons = common_ids(alloc, commons)?;
    ids.extend_from_slice(&commons)?;
    ids.extend_from_slice([UNNAMED_COMMON, DATA, MEMORY].as_slice())?;
    Ok(ids)
}

/// Places all segments of a program by the options, without checking that they fit in memory and don't overlap.
pub(crate) fn place_all(
    alloc: Global,
    program: &Module,
    options: &Options,
) -> Result<Vec<Placed>, AllocError>
    ensures places { IfOk result (λ segments. segments.items ≡ layout_of options.now program.now) }
    ensures lengths { IfOk result (λ segments. AllByRecursion (λ p. p.length < 65536) segments.items) }
{
    let ids = order(alloc, program.commons())?;
    let mut segments = Vec::new(alloc);
    let mut before = DEFAULT_BASE;
    for id in &ids {
        let placed = place_after(program, options, before, *id);
        before = placed.base + placed.length;
        segments.push(placed)?;
    }
    Ok(segments)
}

/// Places the segment with this id: at the base that the options give, or else at `before`, the end of the segment
/// before it, or the next multiple of 256 if it is paged. A segment that the program doesn't have is empty. `before`
/// must be at most 4,000,000,000; the base is then at most 65535 greater.
fn place_after(program: &Module, options: &Options, before: u32, id: u8) -> Placed
    requires { before ≤ 4000000000 }
    ensures place { result ≡ placed_after options.now program.now before id }
    ensures near { result.base ≤ before + 65535 }
    ensures length { result.length < 65536 }
{
    let segment = program.segment(id).unwrap_or(Segment {
        length: 0,
        paged: false,
    });
    let base = match options.base(id) {
        Some(base) => u32::from(base),
        None => round_up(segment.paged, before),
    };
    let length = options.length(id).unwrap_or(segment.length);
    Placed {
        id,
        base,
        length: u32::from(length),
    }
}

/// The address itself, or for a paged segment the next multiple of 256 if it isn't one. The address must be at most
/// 4,000,000,000.
fn round_up(paged: bool, place: u32) -> u32
    requires { place ≤ 4000000000 }
    ensures rounded { result ≡ rounded paged place }
    ensures near { result ≤ place + 255 }
{
    if paged {
        (place + 255) / 256 * 256
    } else {
        place
    }
}
