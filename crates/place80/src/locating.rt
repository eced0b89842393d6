//! A program at its places.

ghost use Rattle.std.specs.Prelude.{◌≡◌, ◌⊎◌, false, None, Some, [], ◌∷◌, map, IfOk, IfErr, OnOk};
ghost use Rattle.std.specs.List.{AllByRecursion};
ghost use Rattle.omf_model.specs.HighReferences.{any_loses_low_byte};
ghost use Rattle.place80.specs.Layout.{layout_of, program_bases};
ghost use Rattle.place80.specs.Locating.{CanBePlaced, Fit, HoldsProgram, ArrangesSegments, chunk_among, located_chunks, program_start};
ghost use Rattle.place80.specs.PlaceFault.{locate_fault};
ghost use Rattle.place80.specs.declared.place_fault.PlaceFault.TheVariants.{Memory, NoStart, Unresolved};

use crate::addresses::{is_in_placed, place_of};
use crate::laying_out::layout;
use crate::located_chunks::{any_loses_its_low_byte, located_chunks};
use crate::located_regions::located_regions;
use crate::options::Options;
use crate::place_fault::PlaceFault;
use crate::placed_segments::{Placed, placed_in};
use image80::Image;
use omf_core::Name;
use omf_core::segment_id::CODE;
use omf_model::relocation_laws::{
    commons_are_found_by_name, parts_of_one_start_at_zero, sound_modules_keep_rules,
};
use omf_module::Module;
use std::alloc::{AllocError, Global};

/// Locates a program: makes its image, with the segments placed by the options.
///
/// The image's memory has at each address the byte that the module defines under those places: that of the last
/// content over it, with its fixups applied, and 0 if none covers it. There is one chunk for each content, in order.
/// Code is CODE, data are DATA, MEMORY and all commons, and the stack is STACK. No fixup lost the low byte of its
/// word.
///
/// # Example
/// ```
/// let image = locate(rt.alloc(), &module, &Options::default())?;
/// assert_eq!(rt; image.start, 0x3000);
/// assert_eq!(rt; image.byte(0x3000), 0x76);
/// ```
///
/// # Errors
/// The first that holds of `Unresolved`, `NoStart`, `OutsideMemory`, `Overlap`, `HighNotPaged` and `StartNotCode`;
/// `Memory` only if memory ran out, and never of a module without externals that is no main program.
pub fn locate(alloc: Global, program: &Module, options: &Options) -> Result<Image, PlaceFault>
    ensures name { IfOk result (λ image. image.name ≡ program.now.name) }
    ensures chunks { IfOk result (λ image. image.chunks ≡ located_chunks options.now program.now) }
    ensures memory { IfOk result (λ image. HoldsProgram options.now program.now image.chunks) }
    ensures regions { IfOk result (λ image. ArrangesSegments (layout_of options.now program.now) image.regions) }
    ensures start { IfOk result (λ image. Some image.start ≡ program_start options.now program.now) }
    ensures high { OnOk result (any_loses_low_byte (program_bases options.now program.now) (program.now ∷ []) ≡ false) }
    ensures none { OnOk result (locate_fault options.now program.now ≡ None) }
    ensures fault { IfErr result (λ fault. (fault ≡ Memory) ⊎ (locate_fault options.now program.now ≡ Some fault)) }
    ensures no_main { IfErr result (λ fault. program.now.externals ≡ [] → program.now.start ≡ None → fault ≡ NoStart) }
{
    sound_modules_keep_rules();
    commons_are_found_by_name();
    parts_of_one_start_at_zero();
    if let Some(name) = program.externals().first() {
        return Err(unresolved_fault(alloc, name));
    }
    let Some((segment, offset)) = program.start() else {
        return Err(PlaceFault::NoStart);
    };
    let segments = layout(alloc, program, options)?.segments;
    if any_loses_its_low_byte(&segments, program.contents()) {
        return Err(PlaceFault::HighNotPaged);
    }
    let start = place_of(&segments, segment, offset);
    if !is_in_placed(placed_in(&segments, CODE), start) {
        return Err(PlaceFault::StartNotCode);
    }
    Ok(image_of(alloc, program, &segments, start)?)
}

/// Makes the image of a program with its segments at these places and its start at this address. The segments must be
/// in memory and apart, each with a length below 65536. Each content must have 65531 bytes at most and end in memory,
/// and its fixups lie inside it and apart.
fn image_of(
    alloc: Global,
    program: &Module,
    segments: &[Placed],
    start: u16,
) -> Result<Image, AllocError>
    requires fit { Fit segments.now }
    requires contents { AllByRecursion (CanBePlaced segments.now) program.now.contents }
    ensures name { IfOk result (λ image. image.name ≡ program.now.name) }
    ensures chunks { IfOk result (λ image. image.chunks ≡ map (chunk_among segments.now) program.now.contents) }
    ensures regions { IfOk result (λ image. ArrangesSegments segments.now image.regions) }
    ensures start { IfOk result (λ image. image.start ≡ start) }
{
    let name = program.name().copy(alloc)?;
    let regions = located_regions(alloc, segments)?;
    let chunks = located_chunks(alloc, segments, program.contents())?;
    Ok(Image {
        name,
        chunks,
        regions,
        start,
    })
}

/// The fault `Unresolved` with a copy of the external's name, or `Memory` if there is no memory for the copy.
fn unresolved_fault(alloc: Global, name: &Name) -> PlaceFault
    ensures { (result ≡ Memory) ⊎ (result ≡ Unresolved name.now) }
{
    match name.copy(alloc) {
        Ok(name) => PlaceFault::Unresolved(name),
        Err(_) => PlaceFault::Memory,
    }
}
