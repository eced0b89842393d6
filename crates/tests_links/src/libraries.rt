//! Worked libraries, computed by hand from the record layouts. What is linked by a table of providers, and libraries that are cut
//! off or too large, are rows of the program's tests.

use omf_core::{Name, NameFault};
use omf_library::{Library, LibraryFault, read_library, write_library};
use std::alloc::Global;
use std::test::Fail;

/// A library of one module `A`, a main program with one byte of code.
pub const ONE: &[u8] = &[
    0x2C, 0x07, 0x00, 0x01, 0x00, 0x00, 0x00, 0x26, 0x00, 0xA6, // library header
    0x02, 0x09, 0x00, 0x01, 0x41, 0x00, 0x00, 0x01, 0x01, 0x00, 0x03, 0xAE, // module header
    0x06, 0x05, 0x00, 0x01, 0x00, 0x00, 0x76, 0x7E, // content
    0x04, 0x05, 0x00, 0x01, 0x01, 0x00, 0x00, 0xF5, // module end
    0x28, 0x03, 0x00, 0x01, 0x41, 0x93, // library module names
    0x26, 0x05, 0x00, 0x00, 0x00, 0x0A, 0x00, 0xCB, // library module locations
    0x2A, 0x02, 0x00, 0x00, 0xD4, // library dictionary
    0x0E, 0x01, 0x00, 0xF1, // end of file
];

/// A library of no modules.
const NONE: &[u8] = &[
    0x2C, 0x07, 0x00, 0x00, 0x00, 0x00, 0x00, 0x0A, 0x00, 0xC3, 0x28, 0x01, 0x00, 0xD7, 0x26, 0x01,
    0x00, 0xD9, 0x2A, 0x01, 0x00, 0xD5, 0x0E, 0x01, 0x00, 0xF1,
];

/// Whether these bytes are written for a library.
pub fn is_written_as(alloc: Global, library: &Library, bytes: &[u8]) -> Result<bool, Fail> {
    let mut out = Vec::new(alloc);
    write_library(alloc, &library.modules, &mut out)?;
    Ok(out.as_slice() == bytes)
}

/// Whether these bytes are read as a library, and written for it.
fn is_written_as_read(alloc: Global, bytes: &[u8]) -> Result<bool, Fail> {
    let library = read_library(alloc, bytes)?;
    is_written_as(alloc, &library, bytes)
}

#[test]
fn a_library_of_no_modules_is_read_and_written(rt: HostRuntime) -> Result<(), Fail> {
    assert!(rt; is_written_as_read(rt.alloc(), NONE)?);
    Ok(())
}

#[test]
fn no_bytes_are_no_library(rt: HostRuntime) {
    let fault = read_library(rt.alloc(), &[]).err();
    assert_eq!(rt; fault, Some(LibraryFault::NotLibrary));
}

/// A library of three modules: A declares P, B declares Q and P, C declares R, Q and P.
#[rattlefmt::skip]
static MANY: [u8; 103] = [
    0x2C, 0x03, 0x00, 0x03, 0x00, 0xCE, // library header
    // A declares P: module header, public declarations and module end
    0x02, 0x05, 0x00, 0x01, 0x41, 0x00, 0x00, 0xB7,
    0x16, 0x07, 0x00, 0x00, 0x00, 0x00, 0x01, 0x50, 0x00, 0x92,
    0x04, 0x05, 0x00, 0x00, 0x00, 0x00, 0x00, 0xF7,
    // B declares Q and P: module header, public declarations and module end
    0x02, 0x05, 0x00, 0x01, 0x42, 0x00, 0x00, 0xB6,
    0x16, 0x0C, 0x00, 0x00, 0x00, 0x00, 0x01, 0x51, 0x00, 0x00, 0x00, 0x01, 0x50, 0x00, 0x3B,
    0x04, 0x05, 0x00, 0x00, 0x00, 0x00, 0x00, 0xF7,
    // C declares R, Q and P: module header, public declarations and module end
    0x02, 0x05, 0x00, 0x01, 0x43, 0x00, 0x00, 0xB5,
    0x16, 0x11, 0x00, 0x00, 0x00, 0x00, 0x01, 0x52, 0x00, 0x00, 0x00, 0x01, 0x51, 0x00, 0x00, 0x00, 0x01, 0x50, 0x00, 0xE3,
    0x04, 0x05, 0x00, 0x00, 0x00, 0x00, 0x00, 0xF7,
    0x0E, 0x01, 0x00, 0xF1, // end of file
];

/// Names, and the index of the first module that declares each.
static PROVIDED: [(&[u8], Option<usize>); 4] = [
    (b"P", Some(0)),
    (b"Q", Some(1)),
    (b"R", Some(2)),
    (b"S", None),
];

/// Whether a library finds for each name of [`PROVIDED`] the module that is listed there, or none.
fn library_has_first_providers(alloc: Global, library: &Library) -> Result<bool, NameFault> {
    let mut all = true;
    for (name, index) in &PROVIDED {
        let name = Name::new(alloc, name)?;
        all = all && library.provider(&name) == *index;
    }
    Ok(all)
}

/// Whether the library of [`MANY`] is read, and finds the modules that are listed.
fn is_read_with_first_providers(alloc: Global) -> Result<bool, Fail> {
    let library = read_library(alloc, &MANY)?;
    Ok(library_has_first_providers(alloc, &library)?)
}

#[test]
fn a_library_finds_the_first_providers_of_names(rt: HostRuntime) -> Result<(), Fail> {
    assert!(rt; is_read_with_first_providers(rt.alloc())?);
    Ok(())
}
