//! Images as object files: a file of one absolute module.

ghost use Rattle.std.specs.Prelude.{◌≡◌, ◌≢◌, ◌++◌, Ok, Err, map, IfOk, IfErr, OnOk, OnErr, IsTrue};
ghost use Rattle.std.specs.List.{AllByRecursion, list_all};
ghost use Rattle.omf_core.specs.Name.{is_name};
ghost use Rattle.image80.specs.Image.{IsChunk};
ghost use Rattle.image80_file.specs.ImageFile.{named_module, image_bytes, SpellsImage, FaultsImage, chunk_content, content_chunk};
ghost use Rattle.image80_file.specs.ImageFile.{is_absolute, is_absolute_content, is_absolute_start, program_of, without_regions};

use crate::absolute::AbsoluteProgram;
use crate::image_fault::ImageFault;
use crate::laws::written_image_is_spelled;
use image80::{Chunk, Image, Regions};
use omf_core::segment_id::ABSOLUTE;
use omf_module::{Content, Module, Parts, Public, read_file, write_file};
use std::alloc::{AllocError, Global};

/// Appends the object file of the image to `out`, which grows by its own allocator: one module of the image's name
/// that has no segments, with one content record in segment 0 for each chunk, in order, and a start in segment 0.
/// [`read_image`] reads these bytes as the same image, but for its regions, which an object file doesn't hold. (8080
/// Object Module Formats, absolute segment.)
///
/// # Errors
/// `AllocError` only if memory ran out; `out` is then unchanged.
pub fn write_image(alloc: Global, image: &Image, out: &mut Vec<u8>) -> Result<(), AllocError>
    ensures written { OnOk result (out.new.items ≡ out.old.items ++ image_bytes image.now) }
    ensures read { OnOk result (SpellsImage (image_bytes image.now) (without_regions image.now)) }
    ensures refused { OnErr result (out.new.items ≡ out.old.items) }
{
    written_image_is_spelled();
    let module = image_module(alloc, image, Vec::new(alloc))?;
    write_file(alloc, &[module], out)
}

/// The absolute module that an image is written as, with these publics, which must be in segment 0.
///
/// # Errors
/// `AllocError` only if memory ran out.
pub fn image_module(
    alloc: Global,
    image: &Image,
    publics: Vec<Public>,
) -> Result<Module, AllocError>
    requires { AllByRecursion (λ public. public.segment ≡ 0) publics.items }
    ensures made { IfOk result (λ made. made ≡ named_module image.now publics.items) }
    ensures name { OnOk result (IsTrue (is_name image.now.name)) }
    ensures rules { OnOk result (AllByRecursion IsChunk image.now.chunks) }
{
    // Chunks keep the rules of contents, and absolute publics are in a segment that every module has.
    let parts = parts_of(alloc, image, publics)?;
    Module::from_sound_parts(alloc, parts)
}

/// The parts of the absolute module that an image is written as: its name, these publics, a content for each chunk,
/// the start in segment 0, and no segments, commons or externals.
fn parts_of(alloc: Global, image: &Image, publics: Vec<Public>) -> Result<Parts, AllocError>
    ensures parts { IfOk result (λ parts. parts ≡ named_module image.now publics.items) }
    ensures name { OnOk result (IsTrue (is_name image.now.name)) }
    ensures rules { OnOk result (AllByRecursion IsChunk image.now.chunks) }
{
    let name = image.name.copy(alloc)?;
    let contents = contents_of(alloc, &image.chunks)?;
    Ok(Parts {
        name,
        segments: Vec::new(alloc),
        commons: Vec::new(alloc),
        publics,
        externals: Vec::new(alloc),
        contents,
        start: Some((ABSOLUTE, image.start)),
    })
}

/// The contents that chunks are written as, one for each chunk, in order.
fn contents_of(alloc: Global, chunks: &[Chunk]) -> Result<Vec<Content>, AllocError>
    ensures contents { IfOk result (λ contents. contents.items ≡ map chunk_content chunks.now) }
    ensures rules { OnOk result (AllByRecursion IsChunk chunks.now) }
{
    let mut contents = Vec::new(alloc);
    for chunk in chunks {
        contents.push(content_of(alloc, chunk)?)?;
    }
    Ok(contents)
}

/// The content that a chunk is written as: its bytes in segment 0 at its address, without fixups.
fn content_of(alloc: Global, chunk: &Chunk) -> Result<Content, AllocError>
    ensures content { IfOk result (λ content. content ≡ chunk_content chunk.now) }
    ensures rule { IsChunk chunk.now }
{
    Ok(Content {
        segment: ABSOLUTE,
        offset: chunk.address,
        bytes: Vec::from_slice(alloc, &chunk.bytes)?,
        fixups: Vec::new(alloc),
    })
}

/// The image that an object file holds, with these regions. The file must have one module, which has a start and no
/// external names, and whose contents and start are in segment 0 and have no fixups. Its publics, its commons and the
/// segments of its header aren't read.
///
/// # Errors
/// The regions that were passed in, and the first of: `Module` if the bytes are no object file, `NotOneModule`,
/// `NotAbsolute`, `NoStart`; or `Memory`, only if memory ran out.
pub fn read_image(
    alloc: Global,
    bytes: &[u8],
    regions: Regions,
) -> Result<Image, (Regions, ImageFault)>
    ensures read { IfOk result (λ image. SpellsImage bytes.now (without_regions image)) }
    ensures regions { IfOk result (λ image. image.regions ≡ regions) }
    ensures back { IfErr result (λ refused. refused.0 ≡ regions) }
    ensures fault { IfErr result (λ refused. refused.1 ≢ ImageFault.Memory → FaultsImage bytes.now refused.1) }
{
    match read_program(alloc, bytes) {
        Ok(program) => Ok(Image {
            name: program.name,
            chunks: program.chunks,
            regions,
            start: program.start,
        }),
        Err(fault) => Err((regions, fault)),
    }
}

/// Reads an object file of one absolute module with a start as a program. The fault is the first of `Module`,
/// `NotOneModule`, `NotAbsolute` and `NoStart` that holds, or `Memory`.
fn read_program(alloc: Global, bytes: &[u8]) -> Result<AbsoluteProgram, ImageFault>
    ensures read { IfOk result (λ program. SpellsImage bytes.now program) }
    ensures fault { IfErr result (λ fault. fault ≢ ImageFault.Memory → FaultsImage bytes.now fault) }
{
    let modules = read_file(alloc, bytes)?;
    match modules.as_slice() {
        [module] => program_of(alloc, module),
        _ => Err(ImageFault::NotOneModule),
    }
}

/// Converts a module to an absolute program. The fault is `NotAbsolute` if it has externals or fixups, or content or
/// its start outside segment 0; else `NoStart` if it has no start; or `Memory`.
fn program_of(alloc: Global, program: &Module) -> Result<AbsoluteProgram, ImageFault>
    ensures read { IfOk result (λ read. program_of program.now ≡ Ok read) }
    ensures fault { IfErr result (λ fault. fault ≢ ImageFault.Memory → program_of program.now ≡ Err fault) }
    ensures reported { IfErr result (λ fault. (cause : ImageFault) → program_of program.now ≡ Err cause → fault ≡ cause) }
{
    if !is_absolute(program) {
        return Err(ImageFault::NotAbsolute);
    }
    let Some((_, start)) = program.start() else {
        return Err(ImageFault::NoStart);
    };
    let name = program.name().copy(alloc)?;
    let chunks = chunks_of(alloc, program.contents())?;
    Ok(AbsoluteProgram {
        name,
        chunks,
        start,
    })
}

/// Whether the module has no externals and no fixups, and its contents and its start, if it has one, are in segment 0.
fn is_absolute(program: &Module) -> bool
    ensures { result ≡ is_absolute program.now }
{
    program.externals().is_empty()
        && are_absolute(program.contents())
        && starts_absolute(program.start())
}

/// Whether every content is in segment 0 and has no fixups.
fn are_absolute(contents: &[Content]) -> bool
    ensures { result ≡ list_all is_absolute_content contents.now }
{
    contents.iter().all(|content| content.segment == ABSOLUTE && content.fixups.is_empty())
}

/// Whether the start, a segment and an offset, is in segment 0; also true if there is no start.
fn starts_absolute(start: Option<(u8, u16)>) -> bool
    ensures { result ≡ is_absolute_start start }
{
    match start {
        Some((segment, _)) => segment == ABSOLUTE,
        None => true,
    }
}

/// Converts each content to a chunk, in order. The contents must be absolute, of at most 65531 bytes each, and end in
/// memory.
fn chunks_of(alloc: Global, contents: &[Content]) -> Result<Vec<Chunk>, AllocError>
    requires { AllByRecursion (λ content. IsChunk (content_chunk content)) contents.now }
    ensures { IfOk result (λ chunks. chunks.items ≡ map content_chunk contents.now) }
{
    let mut chunks = Vec::new(alloc);
    for content in contents {
        chunks.push(chunk_of(alloc, content)?)?;
    }
    Ok(chunks)
}

/// Converts an absolute content to a chunk: its offset is the address, and its bytes are copied. There must be 65531
/// bytes at most, and they must end in memory.
fn chunk_of(alloc: Global, content: &Content) -> Result<Chunk, AllocError>
    requires { IsChunk (content_chunk content.now) }
    ensures { IfOk result (λ chunk. chunk ≡ content_chunk content.now) }
{
    Ok(Chunk {
        address: content.offset,
        bytes: Vec::from_slice(alloc, &content.bytes)?,
    })
}
