//! A program at its places with a jump to its start at address 0.

ghost use Rattle.std.specs.Prelude.{◌≡◌, ◌⊎◌, ◌∷◌, ◌++◌, [], find, None, Some, IfOk, IfErr, OnOk};
ghost use Rattle.place80.specs.Layout.{layout_of};
ghost use Rattle.place80.specs.Locating.{Fit};
ghost use Rattle.place80.specs.PlaceFault.{overlaps, first_sharing};
ghost use Rattle.place80.specs.Restart.{restart_place, restart_pairs, restart_chunk, restart_fault, RestartsAt, ArrangesWithRestart};
ghost use Rattle.place80.specs.declared.place_fault.PlaceFault.TheVariants.{Memory};

use crate::laying_out::layout;
use crate::located_regions::{code_ranges, data_ranges, stack_range};
use crate::locating::locate;
use crate::options::Options;
use crate::overlap::{Pair, first_beside, first_of_contents};
use crate::place_fault::PlaceFault;
use crate::placed_segments::Placed;
use image80::{Chunk, Image, Range, Regions};
use omf_core::segment_id::ABSOLUTE;
use omf_module::Module;
use std::alloc::{AllocError, Global};

/// The opcode of JMP.
const JMP: u8 = 0xC3;

/// Locates a program as `locate` does, with a JMP to its start at address 0, where the processor begins: the control
/// RESTART0 of LOCATE. The image's memory is that of `locate` but for these three bytes, which are code, too. The
/// image starts at 0, as the board does.
///
/// # Errors
/// The faults of `locate`; and then `Overlap` of 0 and the first segment that has one of the addresses 0 to 2, or of
/// 0 and 0 if an absolute content has one. `Memory` only if memory ran out.
pub fn locate_with_restart(
    alloc: Global,
    program: &Module,
    options: &Options,
) -> Result<Image, PlaceFault>
    ensures name { IfOk result (λ image. image.name ≡ program.now.name) }
    ensures restart { IfOk result (λ image. RestartsAt options.now program.now image.chunks) }
    ensures regions { IfOk result (λ image. ArrangesWithRestart (layout_of options.now program.now) image.regions) }
    ensures start { IfOk result (λ image. image.start ≡ 0) }
    ensures none { OnOk result (restart_fault options.now program.now ≡ None) }
    ensures fault { IfErr result (λ fault. (fault ≡ Memory) ⊎ (restart_fault options.now program.now ≡ Some fault)) }
{
    let image = locate(alloc, program, options)?;
    // The layout has no fault but `Memory`, since the program can be located.
    let Ok(layout) = layout(alloc, program, options) else {
        return Err(PlaceFault::Memory);
    };
    match first_over_restart(program, &layout.segments) {
        Some((first, second)) => Err(PlaceFault::Overlap(first.id, second.id)),
        None => Ok(with_restart(alloc, image, &layout.segments)?),
    }
}

/// The restart, as absolute content at 0 to 2, and the first segment that shares an address with it; or else the
/// first absolute content that does, and the restart. `None` if there is none.
#[tactic(auto, using(crate::proofs::PairLemmas::found_first, crate::proofs::PairLemmas::found_among_others))]
pub(crate) fn first_over_restart(program: &Module, segments: &[Placed]) -> Option<Pair>
    ensures { result ≡ first_sharing (restart_pairs program.now segments.now) }
{
    let restart = Placed {
        id: ABSOLUTE,
        base: 0,
        length: 3,
    };
    match first_beside(restart, segments) {
        Some(pair) => Some(pair),
        None => first_of_contents(program, [restart].as_slice()),
    }
}

/// The located image with the restart: one more chunk, a JMP to the image's start; 0 as the start; and regions made
/// anew from `segments`, with 0 to 2 as code. `segments` must be the image's own, in memory and apart, and none may
/// have one of the addresses 0 to 2.
fn with_restart(alloc: Global, image: Image, segments: &[Placed]) -> Result<Image, AllocError>
    requires fit { Fit segments.now }
    requires apart { find (overlaps restart_place) segments.now ≡ None }
    ensures name { IfOk result (λ made. made.name ≡ image.name) }
    ensures chunks { IfOk result (λ made. made.chunks ≡ image.chunks ++ restart_chunk image.start ∷ []) }
    ensures regions { IfOk result (λ made. ArrangesWithRestart segments.now made.regions) }
    ensures start { IfOk result (λ made. made.start ≡ 0) }
{
    let regions = regions_with_restart(alloc, segments)?;
    let Image {
        name,
        mut chunks,
        regions: _,
        start,
    } = image;
    chunks.push(chunk_of_restart(alloc, start)?)?;
    Ok(Image {
        name,
        chunks,
        regions,
        start: 0,
    })
}

/// The chunk of the restart: a JMP to the start, at address 0.
fn chunk_of_restart(alloc: Global, start: u16) -> Result<Chunk, AllocError>
    ensures { IfOk result (λ chunk. chunk ≡ restart_chunk start) }
{
    let [low, high] = start.to_le_bytes();
    Ok(Chunk {
        address: 0,
        bytes: Vec::from_slice(alloc, &[JMP, low, high])?,
    })
}

/// The regions of the segments, with the restart's addresses 0 to 2 as code, too. The segments must be in memory and
/// apart, and none may have one of these addresses.
fn regions_with_restart(alloc: Global, segments: &[Placed]) -> Result<Regions, AllocError>
    requires fit { Fit segments.now }
    requires apart { find (overlaps restart_place) segments.now ≡ None }
    ensures { IfOk result (ArrangesWithRestart segments.now) }
{
    let mut code = code_ranges(alloc, segments)?;
    code.push(Range {
        first: 0,
        length: 3,
    })?;
    let stack = stack_range(segments);
    let data_ranges = data_ranges(alloc, segments)?;
    Ok(Regions::from_disjoint(alloc, code, stack, data_ranges))
}
