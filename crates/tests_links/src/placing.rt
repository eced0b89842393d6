//! Worked texts of regions, and an image. Texts that are migrated, the bytes of images, and texts and files that are refused are rows
//! of the program's tests.

use image80::{Image, RegionMap, Regions, read_regions, write_regions};
use place80::{read_image, write_image};
use std::alloc::{AllocError, Global};
use std::test::Fail;

mod locating;

/// Regions whose lines are in no order, with an empty code line and a stack that ends with memory.
const REGIONS: &[u8] =
    b"REGIONS 1\nDATA 3002 0001\nSTACK FF00 0100\nCODE 3000 0000\nCODE 3000 0002\nDATA 0000 0001\n";

/// The text that is written for these regions.
static IN_ORDER: &[u8] =
    b"REGIONS 1\nCODE 3000 0002\nSTACK FF00 0100\nDATA 0000 0001\nDATA 3002 0001\n";

/// Whether regions have the code, the data and the stack that `REGIONS` declares.
fn has_declared_parts(regions: &Regions) -> bool {
    regions.code().len() == 1
        && regions.data_ranges().len() == 2
        && regions.stack().first == 0xFF00
        && regions.top() == 0
        && regions.in_code(0x3001)
        && regions.in_data(0x3002)
}

/// Whether this text is written for regions.
fn is_written_as(alloc: Global, regions: &Regions, text: &[u8]) -> Result<bool, AllocError> {
    let mut out = Vec::new(alloc);
    write_regions(alloc, regions, &mut out)?;
    Ok(out.as_slice() == text)
}

/// Addresses, and whether each is code and data in the regions of `REGIONS`.
static MAP: [(u16, bool, bool); 8] = [
    (0x0000, false, true),
    (0x0001, false, false),
    (0x2FFF, false, false),
    (0x3000, true, false),
    (0x3001, true, false),
    (0x3002, false, true),
    (0x3003, false, false),
    (0xFFFF, false, false),
];

/// Whether the map of regions agrees with `MAP`.
fn has_listed_map(alloc: Global, regions: &Regions) -> Result<bool, AllocError> {
    let map = RegionMap::new(alloc, regions)?;
    let mut all = true;
    for (address, code, data) in &MAP {
        all = all && map.is_code(*address) == *code && map.is_data(*address) == *data;
    }
    Ok(all)
}

/// Whether regions are those of `REGIONS`, by their parts, their text and their map.
fn are_declared(alloc: Global, regions: &Regions) -> Result<bool, AllocError> {
    let declared = has_declared_parts(regions) && is_written_as(alloc, regions, IN_ORDER)?;
    Ok(declared && has_listed_map(alloc, regions)?)
}

#[test]
fn lines_in_any_order_are_read(rt: HostRuntime) -> Result<(), Fail> {
    let regions = read_regions(rt.alloc(), REGIONS)?;
    assert!(rt; are_declared(rt.alloc(), &regions)?);
    Ok(())
}

/// A text of version 2 whose lines are in no order, with a target that is named twice.
const CASES: &[u8] =
    b"REGIONS 2\nCASE 3001 3001 3000 3001\nSTACK FF00 0100\nCASE 3000 0000\nCODE 3000 0002\n";

/// The text of version 2 that is written for the regions of `CASES`.
static CASES_IN_ORDER: &[u8] =
    b"REGIONS 2\nCODE 3000 0002\nSTACK FF00 0100\nCASE 3000 0000\nCASE 3001 3000 3001\n";

/// Whether regions have the cases that `CASES` declares.
fn has_declared_cases(regions: &Regions) -> bool {
    let declared = matches!(regions.targets(0x3001), Some([0x3000, 0x3001]));
    declared && regions.cases().len() == 2 && regions.targets(0x3002).is_none()
}

/// Whether regions are those of `CASES`, by their cases and their text.
fn are_declared_cases(alloc: Global, regions: &Regions) -> Result<bool, AllocError> {
    Ok(has_declared_cases(regions) && is_written_as(alloc, regions, CASES_IN_ORDER)?)
}

#[test]
fn cases_in_any_order_are_read(rt: HostRuntime) -> Result<(), Fail> {
    let regions = read_regions(rt.alloc(), CASES)?;
    assert!(rt; are_declared_cases(rt.alloc(), &regions)?);
    Ok(())
}

/// An image of three contents, of which the second overlaps the first.
static THREE: [u8; 50] = [
    0x02, 0x05, 0x00, 0x01, 0x41, 0x00, 0x00, 0xB7, // module header
    0x06, 0x07, 0x00, 0x00, 0x00, 0x30, 0x11, 0x22, 0x33, 0x5D, // content at 3000
    0x06, 0x07, 0x00, 0x00, 0x01, 0x30, 0xC3, 0x34, 0x12, 0xB9, // content at 3001
    0x06, 0x07, 0x00, 0x00, 0xFC, 0xFF, 0x55, 0x66, 0x77, 0xC6, // content at FFFC
    0x04, 0x05, 0x00, 0x01, 0x00, 0x00, 0x30, 0xC6, // module end
    0x0E, 0x01, 0x00, 0xF1, // end of file
];

/// Whether the image starts at 3000, and the file of `THREE` is written for it.
fn is_written_as_read(alloc: Global, image: &Image) -> Result<bool, AllocError> {
    let mut out = Vec::new(alloc);
    write_image(alloc, image, &mut out)?;
    Ok(out.as_slice() == THREE.as_slice() && image.start == 0x3000)
}

/// Whether `THREE` is read, with these regions, as an image that is written as the same file.
fn is_image(alloc: Global, regions: Regions) -> Result<bool, Fail> {
    match read_image(alloc, &THREE, regions) {
        Ok(image) => Ok(is_written_as_read(alloc, &image)?),
        Err((_, fault)) => Err(fault.into()),
    }
}

#[test]
fn an_image_is_read_and_written(rt: HostRuntime) -> Result<(), Fail> {
    assert!(rt; is_image(rt.alloc(), read_regions(rt.alloc(), REGIONS)?)?);
    Ok(())
}
