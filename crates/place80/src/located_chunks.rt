//! The chunks of an image: contents at their places, with their fixups applied.

ghost use Rattle.std.specs.Prelude.{◌≡◌, ◌≤◌, map, IfOk};
ghost use Rattle.std.specs.List.{AllByRecursion, list_any};
ghost use Rattle.omf_model.specs.ImageByte.{patch_with};
ghost use Rattle.omf_model.specs.HighReferences.{loses_with};
ghost use Rattle.place80.specs.Locating.{word_among, chunk_among, CanBePlaced};

use crate::addresses::place_of;
use crate::placed_segments::Placed;
use image80::Chunk;
use omf_model::{Patch, apply_patches};
use omf_module::{Content, Field, Fixup, Target};
use std::alloc::{AllocError, Global};

/// Whether a fixup of the contents takes the high byte of a word that isn't a multiple of 256.
pub(crate) fn any_loses_its_low_byte(segments: &[Placed], contents: &[Content]) -> bool
    ensures { result ≡ list_any (λ c. list_any (loses_with (word_among segments.now)) c.fixups) contents.now }
{
    contents
        .iter()
        .any(|content| content_loses_a_low_byte(segments, content))
}

/// Whether a fixup of the content takes the high byte of a word that isn't a multiple of 256.
fn content_loses_a_low_byte(segments: &[Placed], content: &Content) -> bool
    ensures { result ≡ list_any (loses_with (word_among segments.now)) content.now.fixups }
{
    content
        .fixups
        .iter()
        .any(|fixup| loses_its_low_byte(segments, *fixup))
}

/// Whether the fixup takes the high byte of a word that isn't a multiple of 256.
fn loses_its_low_byte(segments: &[Placed], fixup: Fixup) -> bool
    ensures { result ≡ loses_with (word_among segments.now) fixup }
{
    match fixup.field {
        Field::High => target_word(segments, fixup.target) % 256 != 0,
        Field::Low | Field::Both => false,
    }
}

/// The word that a fixup to this target adds: the address of offset 0 in the target's segment. It is 0 for an
/// external, which a program that is located doesn't have.
fn target_word(segments: &[Placed], target: Target) -> u16
    ensures { result ≡ word_among segments.now target }
{
    match target {
        Target::Segment(id) => place_of(segments, id, 0),
        Target::External(_) => 0,
    }
}

/// Makes a chunk of each content, in order: its bytes at their address, with its fixups applied. Each content must have
/// 65531 bytes at most and end in memory, and its fixups lie inside it and apart.
pub(crate) fn located_chunks(
    alloc: Global,
    segments: &[Placed],
    contents: &[Content],
) -> Result<Vec<Chunk>, AllocError>
    requires { AllByRecursion (CanBePlaced segments.now) contents.now }
    ensures { IfOk result (λ chunks. chunks.items ≡ map (chunk_among segments.now) contents.now) }
{
    let mut chunks = Vec::new(alloc);
    for content in contents {
        chunks.push(located_chunk(alloc, segments, content)?)?;
    }
    Ok(chunks)
}

/// Makes the chunk of a content: its bytes at their address, with its fixups applied. The content must have 65531 bytes
/// at most and end in memory, and its fixups lie inside it and apart.
fn located_chunk(alloc: Global, segments: &[Placed], content: &Content) -> Result<Chunk, AllocError>
    requires { CanBePlaced segments.now content.now }
    ensures { IfOk result (λ chunk. chunk ≡ chunk_among segments.now content.now) }
{
    let mut bytes = Vec::from_slice(alloc, &content.bytes)?;
    let patches = patches_of(alloc, segments, content.offset, &content.fixups)?;
    apply_patches(&mut bytes, &patches);
    Ok(Chunk {
        address: place_of(segments, content.segment, content.offset),
        bytes,
    })
}

/// Converts the fixups of a content, whose first byte has the offset `first`, to patches of its bytes. The offset of
/// each fixup must be at least `first`.
fn patches_of(
    alloc: Global,
    segments: &[Placed],
    first: u16,
    fixups: &[Fixup],
) -> Result<Vec<Patch>, AllocError>
    requires { AllByRecursion (λ f. first ≤ f.offset) fixups.now }
    ensures { IfOk result (λ patches. patches.items ≡ map (patch_with (word_among segments.now) first) fixups.now) }
{
    let mut patches = Vec::new(alloc);
    for fixup in fixups {
        patches.push(Patch {
            at: usize::from(fixup.offset - first),
            field: fixup.field,
            word: target_word(segments, fixup.target),
        })?;
    }
    Ok(patches)
}
