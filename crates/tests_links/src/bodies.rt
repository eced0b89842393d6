//! The worked records of the format, computed by hand from the record layouts: each kind of body once written. Bodies that are
//! read, and those that are refused, are rows of the program's tests.

use omf_body::{
    CommonEntry, Cursor, ExternalEntry, Field, FieldFault, IndexEntry, NameBytes, OffsetEntry,
    Place, PublicEntry, SegmentEntry, put_commons, put_content, put_end, put_external_references,
    put_externals, put_header, put_intersegment, put_publics, put_relocation, segment_id,
};
use omf_core::PutFault;
use std::alloc::Global;
use std::test::Fail;

/// One record of each kind that a module keeps.
#[rattlefmt::skip]
static RECORDS: [u8; 78] = [
    0x02, 0x09, 0x00, 0x01, 0x41, 0x00, 0x00, 0x01, 0x01, 0x00, 0x03, 0xAE, // module header
    0x06, 0x05, 0x00, 0x01, 0x00, 0x00, 0x76, 0x7E, // content
    0x04, 0x05, 0x00, 0x01, 0x01, 0x00, 0x00, 0xF5, // module end
    0x2E, 0x06, 0x00, 0x06, 0x03, 0x42, 0x55, 0x46, 0xE6, // BUF is common 6
    0x16, 0x07, 0x00, 0x01, 0x02, 0x00, 0x01, 0x50, 0x00, 0x8F, // P at 0002 in CODE
    0x18, 0x04, 0x00, 0x01, 0x45, 0x00, 0x9E, // E is elsewhere
    0x22, 0x04, 0x00, 0x01, 0x01, 0x00, 0xD8, // the low byte at 0001
    0x24, 0x05, 0x00, 0x06, 0x02, 0x02, 0x00, 0xCD, // the high byte at 0002, to common 6
    0x20, 0x06, 0x00, 0x03, 0x00, 0x00, 0x03, 0x00, 0xD4, // the word at 0003, to external 0
];

/// The name that these bytes spell, its length first.
fn name(bytes: &[u8]) -> Result<NameBytes, FieldFault> {
    Cursor::new(bytes).name()
}

/// Writes the header, the content and the end of a main program `A` with one byte of code.
fn put_program(alloc: Global, out: &mut Vec<u8>) -> Result<(), Fail> {
    let segment = SegmentEntry {
        id: 1,
        length: 1,
        alignment: 3,
    };
    let start = Place {
        segment: 1,
        offset: 0,
    };
    put_header(alloc, &name(b"\x01A")?, &[segment], out)?;
    put_content(alloc, segment_id::CODE, 0, &[0x76], out)?;
    Ok(put_end(alloc, Some(start), out)?)
}

/// Writes a common, a public and an external name: BUF is common 6, P is at 0002 in CODE, E is
/// external.
fn put_names(alloc: Global, out: &mut Vec<u8>) -> Result<(), Fail> {
    let (id, offset, unread) = (6, 2, 0);
    let name_of_common = name(b"\x03BUF")?;
    let common = CommonEntry {
        id,
        name: name_of_common,
    };
    put_commons(alloc, &[common], out)?;
    let name_of_public = name(b"\x01P")?;
    let public = PublicEntry {
        offset,
        name: name_of_public,
        unread,
    };
    put_publics(alloc, 1, &[public], out)?;
    let name = name(b"\x01E")?;
    Ok(put_externals(alloc, &[ExternalEntry { name, unread }], out)?)
}

/// Writes three records of fixups: the low byte at 0001 in its own segment, the high byte at 0002
/// to common 6, and the word at 0003 to external 0.
fn put_fixups(alloc: Global, out: &mut Vec<u8>) -> Result<(), PutFault> {
    let reference = IndexEntry {
        index: 0,
        offset: 3,
    };
    put_relocation(alloc, Field::Low, &[OffsetEntry { offset: 1 }], out)?;
    put_intersegment(alloc, 6, Field::High, &[OffsetEntry { offset: 2 }], out)?;
    put_external_references(alloc, Field::Both, &[reference], out)
}

#[test]
fn each_kind_of_record_is_written(rt: HostRuntime) -> Result<(), Fail> {
    let mut out = Vec::new(rt.alloc());
    put_program(rt.alloc(), &mut out)?;
    put_names(rt.alloc(), &mut out)?;
    put_fixups(rt.alloc(), &mut out)?;
    assert!(rt; out.as_slice() == RECORDS.as_slice());
    Ok(())
}
