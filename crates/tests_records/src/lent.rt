//! If memory runs out, output arguments are unchanged, and values that were given away come back. With memory each of
//! these tests shows the call that succeeds; with each allocation refused in turn (`make faults`) the one that fails.

use image80::{
    Image, Regions, RegionsFault, migrate_regions, read_regions, write_regions, write_regions2,
};
use image80_file::{ImageFault, read_image, write_image};
use omf_core::{Name, put_record};
use omf_library::{Library, read_library, write_library};
use omf_module::{
    Content, Module, Parts, PartsFault, Segment, read_file, write_file, write_module,
};
use std::alloc::{AllocError, Global};
use std::test::Fail;

/// What each output holds before a call.
const BEFORE: &[u8] = b"BEFORE";

/// A main program `A` with one byte of code, and nothing else.
static HALT: [u8; 32] = [
    0x02, 0x09, 0x00, 0x01, 0x41, 0x00, 0x00, 0x01, 0x01, 0x00, 0x03, 0xAE, // module header
    0x06, 0x05, 0x00, 0x01, 0x00, 0x00, 0x76, 0x7E, // content
    0x04, 0x05, 0x00, 0x01, 0x01, 0x00, 0x00, 0xF5, // module end
    0x0E, 0x01, 0x00, 0xF1, // end of file
];

/// A library of one module `A`, a main program with one byte of code.
static ONE: [u8; 61] = [
    0x2C, 0x07, 0x00, 0x01, 0x00, 0x00, 0x00, 0x26, 0x00, 0xA6, // library header
    0x02, 0x09, 0x00, 0x01, 0x41, 0x00, 0x00, 0x01, 0x01, 0x00, 0x03, 0xAE, // module header
    0x06, 0x05, 0x00, 0x01, 0x00, 0x00, 0x76, 0x7E, // content
    0x04, 0x05, 0x00, 0x01, 0x01, 0x00, 0x00, 0xF5, // module end
    0x28, 0x03, 0x00, 0x01, 0x41, 0x93, // library module names
    0x26, 0x05, 0x00, 0x00, 0x00, 0x0A, 0x00, 0xCB, // library module locations
    0x2A, 0x02, 0x00, 0x00, 0xD4, // library dictionary
    0x0E, 0x01, 0x00, 0xF1, // end of file
];

/// The file of the image with that byte at 3000.
static IMAGE: [u8; 28] = [
    0x02, 0x05, 0x00, 0x01, 0x41, 0x00, 0x00, 0xB7, // module header
    0x06, 0x05, 0x00, 0x00, 0x00, 0x30, 0x76, 0x4F, // content at 3000
    0x04, 0x05, 0x00, 0x01, 0x00, 0x00, 0x30, 0xC6, // module end
    0x0E, 0x01, 0x00, 0xF1, // end of file
];

/// The text of version 1 of the image's regions.
const REGIONS: &[u8] = b"REGIONS 1\nCODE 3000 0001\nSTACK 3001 0000\n";

/// The text of version 2 of the image's regions.
const REGIONS2: &[u8] = b"REGIONS 2\nCODE 3000 0001\nSTACK 3001 0000\n";

/// Whether `out` is `BEFORE` with `bytes` appended if the call was done, and else `BEFORE` alone.
fn is_all_or_nothing(done: bool, out: &[u8], bytes: &[u8]) -> bool {
    match out.strip_prefix(BEFORE) {
        Some(rest) if done => rest == bytes,
        Some(rest) => rest.is_empty(),
        None => false,
    }
}

/// Whether `put_record` appends an end of file, or fails and leaves its output unchanged.
fn writes_record_or_nothing(alloc: Global) -> Result<bool, AllocError> {
    let mut out = BEFORE.to_vec(alloc)?;
    let done = put_record(alloc, 0x0E, &[], &mut out).is_ok();
    Ok(is_all_or_nothing(done, &out, &HALT[28..]))
}

/// Whether `write_module` appends the program's module, or fails and leaves its output unchanged.
fn writes_module_or_nothing(alloc: Global, module: &Module) -> Result<bool, AllocError> {
    let mut out = BEFORE.to_vec(alloc)?;
    let done = write_module(alloc, module, &mut out).is_ok();
    Ok(is_all_or_nothing(done, &out, &HALT[..28]))
}

/// Whether `write_file` appends the program's file, or fails and leaves its output unchanged; the
/// same of `write_module` for its first module. False if there are no modules.
fn writes_file_or_nothing(alloc: Global, modules: &[Module]) -> Result<bool, AllocError> {
    let [module, ..] = modules else {
        return Ok(false);
    };
    let mut out = BEFORE.to_vec(alloc)?;
    let done = write_file(alloc, modules, &mut out).is_ok();
    Ok(is_all_or_nothing(done, &out, &HALT) && writes_module_or_nothing(alloc, module)?)
}

#[test]
fn records_and_files_are_written_whole_or_not_at_all(rt: HostRuntime) -> Result<(), Fail> {
    assert!(rt; writes_record_or_nothing(rt.alloc())?);
    let modules = read_file(rt.alloc(), &HALT)?;
    assert!(rt; writes_file_or_nothing(rt.alloc(), &modules)?);
    Ok(())
}

/// Whether `write_library` appends the library, or fails and leaves its output unchanged.
fn writes_library_or_nothing(alloc: Global, library: &Library) -> Result<bool, AllocError> {
    let mut out = BEFORE.to_vec(alloc)?;
    let done = write_library(alloc, &library.modules, &mut out).is_ok();
    Ok(is_all_or_nothing(done, &out, &ONE))
}

#[test]
fn libraries_are_written_whole_or_not_at_all(rt: HostRuntime) -> Result<(), Fail> {
    let library = read_library(rt.alloc(), &ONE)?;
    assert!(rt; writes_library_or_nothing(rt.alloc(), &library)?);
    Ok(())
}

/// Whether `write_regions` and `write_regions2` append the texts of the regions, or fail and leave
/// their outputs unchanged.
fn writes_regions_or_nothing(alloc: Global, regions: &Regions) -> Result<bool, AllocError> {
    let mut out = BEFORE.to_vec(alloc)?;
    let done = write_regions(alloc, regions, &mut out).is_ok();
    let first = is_all_or_nothing(done, &out, REGIONS);
    let mut out = BEFORE.to_vec(alloc)?;
    let done = write_regions2(alloc, regions, &mut out).is_ok();
    Ok(first && is_all_or_nothing(done, &out, REGIONS2))
}

/// Whether `migrate_regions` appends the text of version 2, or runs out of memory and leaves its
/// output unchanged.
fn migrates_text_or_nothing(alloc: Global) -> Result<bool, AllocError> {
    let mut out = BEFORE.to_vec(alloc)?;
    let answer = migrate_regions(alloc, REGIONS, &mut out);
    let known = matches!(answer, Ok(()) | Err(RegionsFault::Memory));
    Ok(known && is_all_or_nothing(answer.is_ok(), &out, REGIONS2))
}

#[test]
fn texts_of_regions_are_written_whole_or_not_at_all(rt: HostRuntime) -> Result<(), Fail> {
    let regions = read_regions(rt.alloc(), REGIONS)?;
    assert!(rt; writes_regions_or_nothing(rt.alloc(), &regions)?);
    assert!(rt; migrates_text_or_nothing(rt.alloc())?);
    Ok(())
}

/// Whether `write_image` appends the image's file, or fails and leaves its output unchanged.
fn writes_image_or_nothing(alloc: Global, image: &Image) -> Result<bool, AllocError> {
    let mut out = BEFORE.to_vec(alloc)?;
    let done = write_image(alloc, image, &mut out).is_ok();
    Ok(is_all_or_nothing(done, &out, &IMAGE))
}

/// Whether the image is read, and written as its file has it, or memory runs out and its regions
/// come back whole.
fn reads_image_or_returns_regions(alloc: Global, regions: Regions) -> Result<bool, AllocError> {
    match read_image(alloc, &IMAGE, regions) {
        Ok(image) => writes_image_or_nothing(alloc, &image),
        Err((back, ImageFault::Memory)) => writes_regions_or_nothing(alloc, &back),
        Err((_, _)) => Ok(false),
    }
}

#[test]
fn an_image_is_read_or_its_regions_come_back(rt: HostRuntime) -> Result<(), Fail> {
    let regions = read_regions(rt.alloc(), REGIONS)?;
    assert!(rt; reads_image_or_returns_regions(rt.alloc(), regions)?);
    Ok(())
}

/// The parts of the main program `A` with one byte of code.
fn parts_of_program(alloc: Global) -> Result<Parts, Fail> {
    let code = Segment {
        length: 1,
        paged: false,
    };
    let content = Content {
        segment: 1,
        offset: 0,
        bytes: Vec::from_slice(alloc, &[0x76])?,
        fixups: Vec::new(alloc),
    };
    Ok(Parts {
        name: Name::new(alloc, b"A")?,
        segments: vec![in alloc; (1, code)]?,
        commons: Vec::new(alloc),
        publics: Vec::new(alloc),
        externals: Vec::new(alloc),
        contents: vec![in alloc; content]?,
        start: Some((1, 0)),
    })
}

/// Whether these parts have the program's byte, its one segment and its start.
fn are_parts_of_program(parts: &Parts) -> bool {
    let [content] = parts.contents.as_slice() else {
        return false;
    };
    let bytes = content.bytes.as_slice() == [0x76].as_slice();
    bytes && parts.segments.len() == 1 && parts.start == Some((1, 0))
}

/// Whether a module is made of the program's parts, and written as its file has it, or memory runs
/// out and the parts come back.
fn makes_module_or_returns_parts(alloc: Global, parts: Parts) -> Result<bool, AllocError> {
    match Module::from_parts(alloc, parts) {
        Ok(module) => writes_module_or_nothing(alloc, &module),
        Err((back, fault)) => Ok(fault == PartsFault::Memory && are_parts_of_program(&back)),
    }
}

#[test]
fn a_module_is_made_or_its_parts_come_back(rt: HostRuntime) -> Result<(), Fail> {
    assert!(rt; makes_module_or_returns_parts(rt.alloc(), parts_of_program(rt.alloc())?)?);
    Ok(())
}
