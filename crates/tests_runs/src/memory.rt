//! Memories for the tests of steps.

use image80::{Image, read_regions};
use image80_file::read_image;
use machine80::{FlatBus, PagedBus};
use std::alloc::Global;
use std::test::Fail;

/// An image without a byte, which starts at 3000.
static EMPTY: [u8; 20] = [
    0x02, 0x05, 0x00, 0x01, 0x41, 0x00, 0x00, 0xB7, // module header
    0x04, 0x05, 0x00, 0x01, 0x00, 0x00, 0x30, 0xC6, // module end
    0x0E, 0x01, 0x00, 0xF1, // end of file
];

/// An image whose memory holds 00 everywhere.
fn empty_image(alloc: Global) -> Result<Image, Fail> {
    let regions = read_regions(alloc, b"REGIONS 1\nSTACK 3100 0100\n")?;
    match read_image(alloc, &EMPTY, regions) {
        Ok(image) => Ok(image),
        Err((_, fault)) => Err(fault.into()),
    }
}

/// A memory in one piece that holds 00 everywhere.
pub fn empty_memory(alloc: Global) -> Result<FlatBus, Fail> {
    let image = empty_image(alloc)?;
    FlatBus::new(alloc, &image).map_err(Fail::from)
}

/// A memory in pages that holds 00 everywhere.
pub fn empty_pages(alloc: Global) -> Result<PagedBus, Fail> {
    let image = empty_image(alloc)?;
    PagedBus::new(alloc, &image).map_err(Fail::from)
}
