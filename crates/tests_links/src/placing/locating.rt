//! A program that is located. What its layout is, and other programs, are rows of the program's tests.

use image80::RegionsFault;
use omf_module::{Module, read_module};
use place80::{ImageFault, Options, PlaceFault, locate};
use std::alloc::Global;
use std::test::Fail;

/// A main program A: one byte of CODE, HLT, where it starts.
static HALT: [u8; 28] = [
    0x02, 0x09, 0x00, 0x01, 0x41, 0x00, 0x00, 0x01, 0x01, 0x00, 0x03, 0xAE, // module header
    0x06, 0x05, 0x00, 0x01, 0x00, 0x00, 0x76, 0x7E, // content
    0x04, 0x05, 0x00, 0x01, 0x01, 0x00, 0x00, 0xF5, // module end
];

/// The module of `HALT`.
fn module(alloc: Global) -> Result<Module, Fail> {
    let (module, _) = read_module(alloc, &HALT, 0)?;
    Ok(module)
}

#[test]
fn a_program_is_located(rt: HostRuntime) -> Result<(), Fail> {
    let module = module(rt.alloc())?;
    let image = locate(rt.alloc(), &module, &Options::default())?;
    assert_eq!(rt; image.start, 0x3000);
    assert_eq!(rt; image.byte(0x3000), 0x76);
    Ok(())
}

#[test]
fn out_of_memory_is_printed_by_name(rt: HostRuntime) -> Result<(), Fail> {
    let text = format!(in rt.alloc();
        "{} {} {}",
        PlaceFault::Memory,
        ImageFault::Memory,
        RegionsFault::Memory
    )?;
    assert_eq!(rt; text.as_str(), "Memory Memory Memory");
    Ok(())
}
