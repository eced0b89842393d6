//! An image as an object file with its publics.

ghost use Rattle.std.specs.Prelude.{◌≡◌, ◌++◌, [], ◌∷◌, IfOk, OnOk, OnErr};
ghost use Rattle.omf_module.specs.Spelled.{SpellsFile};
ghost use Rattle.omf_module.specs.Writing.{file_bytes};
ghost use Rattle.image80_file.specs.ImageFile.{SpellsImage, named_module, without_regions};
ghost use Rattle.place80_text.specs.ImagePublics.{absolute_public, publics_at};

use image80::Image;
use image80_file::image_module;
use image80_file::laws::written_image_is_spelled;
use omf_core::segment_id::ABSOLUTE;
use omf_module::{Public, write_file};
use place80::{Placed, place_of};
use std::alloc::{AllocError, Global};

/// Appends the object file of the image to `out`, as `image80_file::write_image` does, but with a public of segment 0
/// for each of these publics, in order: the same name, at the address that it has with the segments placed so.
/// Intel's LOCATE keeps publics in this form unless the control PURGE is given. (ISIS-II User's Guide, LOCATE; 8080
/// Object Module Formats, public declarations record.)
///
/// The file is read as the same image as one without publics.
///
/// # Errors
/// `AllocError` only if memory runs out; `out` is then unchanged.
pub fn write_image_with_publics(
    alloc: Global,
    image: &Image,
    publics: &[Public],
    segments: &[Placed],
    out: &mut Vec<u8>,
) -> Result<(), AllocError>
    ensures written { OnOk result (let named = named_module image.now (publics_at segments.now publics.now) in
        out.new.items ≡ out.old.items ++ file_bytes (named ∷ [])) }
    ensures file { OnOk result (let named = named_module image.now (publics_at segments.now publics.now) in
        SpellsFile (file_bytes (named ∷ [])) (named ∷ [])) }
    ensures image { OnOk result (let named = named_module image.now (publics_at segments.now publics.now) in
        SpellsImage (file_bytes (named ∷ [])) (without_regions image.now)) }
    ensures refused { OnErr result (out.new.items ≡ out.old.items) }
{
    written_image_is_spelled();
    let named = image_module(alloc, image, placed_publics(alloc, publics, segments)?)?;
    write_file(alloc, &[named], out)
}

/// Converts each public to one of segment 0 at its address, in order.
fn placed_publics(
    alloc: Global,
    publics: &[Public],
    segments: &[Placed],
) -> Result<Vec<Public>, AllocError>
    ensures { IfOk result (λ placed. placed.items ≡ publics_at segments.now publics.now) }
{
    let mut placed = Vec::new(alloc);
    for public in publics {
        placed.push(placed_public(alloc, public, segments)?)?;
    }
    Ok(placed)
}

/// Converts a public to one of segment 0 with the same name, at its address by the placed segments.
fn placed_public(alloc: Global, public: &Public, segments: &[Placed]) -> Result<Public, AllocError>
    ensures { IfOk result (λ placed. placed ≡ absolute_public segments.now public.now) }
{
    Ok(Public {
        name: public.name.copy(alloc)?,
        segment: ABSOLUTE,
        offset: place_of(segments, public.segment, public.offset),
    })
}
