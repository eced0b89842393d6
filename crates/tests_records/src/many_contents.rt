//! Memories of images of many contents.

use image80::{Image, read_regions};
use image80_file::read_image;
use machine80::{Bus, FlatBus, PagedBus};
use omf_core::{PutFault, put_record};
use std::alloc::{AllocError, Global};
use std::test::Fail;

/// The regions of the images; contents may lie outside them.
static REGIONS: &[u8] = b"REGIONS 1\nCODE 3000 0001\nSTACK FF00 0100\n";

/// Writes the file of an image with `count` contents of one byte, at the addresses from 0 on. Each
/// byte is the low byte of its address.
fn put_image(alloc: Global, count: u32, out: &mut Vec<u8>) -> Result<(), PutFault> {
    put_record(alloc, 0x02, &[0x01, 0x41, 0x00, 0x00], out)?;
    for number in 0..count {
        let [low, high, _, _] = number.to_le_bytes();
        put_record(alloc, 0x06, &[0x00, low, high, low], out)?;
    }
    put_record(alloc, 0x04, &[0x01, 0x00, 0x00, 0x30], out)?;
    put_record(alloc, 0x0E, &[], out)
}

/// The file of an image with `count` contents of one byte, as [`put_image`] writes it.
fn image_file(alloc: Global, count: u32) -> Result<Vec<u8>, PutFault> {
    let mut file = Vec::new(alloc);
    put_image(alloc, count, &mut file)?;
    Ok(file)
}

/// Whether a memory has the bytes of `count` contents, and 0 at the other addresses.
fn has_contents<B: Bus>(bus: &B, count: u32) -> bool {
    for address in 0..65_536_u32 {
        let at = address as u16;
        let [low, _] = at.to_le_bytes();
        let expected = if address < count { low } else { 0 };
        if bus.load(at) != expected {
            return false;
        }
    }
    true
}

/// Whether a memory of the image in one piece has the bytes of `count` contents.
fn one_piece_has_contents(alloc: Global, image: &Image, count: u32) -> Result<bool, AllocError> {
    let bus = FlatBus::new(alloc, image)?;
    Ok(has_contents(&bus, count))
}

/// Whether a memory of the image in pages has the bytes of `count` contents.
fn pages_have_contents(alloc: Global, image: &Image, count: u32) -> Result<bool, AllocError> {
    let bus = PagedBus::new(alloc, image)?;
    Ok(has_contents(&bus, count))
}

/// Whether memories of the image, in one piece and in pages, have the bytes of `count` contents.
fn memories_have_contents(alloc: Global, image: &Image, count: u32) -> Result<bool, AllocError> {
    Ok(one_piece_has_contents(alloc, image, count)? && pages_have_contents(alloc, image, count)?)
}

/// Whether an image of `count` contents is read, and its memories have their bytes.
fn image_has_contents(alloc: Global, count: u32) -> Result<bool, Fail> {
    let file = image_file(alloc, count)?;
    match read_image(alloc, &file, read_regions(alloc, REGIONS)?) {
        Ok(image) => Ok(memories_have_contents(alloc, &image, count)?),
        Err((_, fault)) => Err(fault.into()),
    }
}

#[test]
fn memories_have_the_bytes_of_many_contents(rt: HostRuntime) -> Result<(), Fail> {
    for count in [256, 1_001, 65_536] {
        assert!(rt; image_has_contents(rt.alloc(), count)?, "{count} contents");
    }
    Ok(())
}
