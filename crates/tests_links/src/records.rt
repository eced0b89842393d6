//! Worked values of the format, computed by hand, and each call once where it answers. Files of bad records, and bytes that are no
//! names, are rows of the program's tests.

use omf_body::put_content;
use omf_core::{
    Name, PutFault, RecordFault, RecordKind, next_record, put_record, split_name, sum_of,
};
use std::alloc::Global;
use std::test::Fail;

/// An end of file.
static END: [u8; 4] = [0x0E, 0x01, 0x00, 0xF1];

/// The type of the record at a place, the length of its body, and the place after it.
fn read_at(bytes: &[u8], at: usize) -> Result<(u8, usize, usize), RecordFault> {
    let (record, after) = next_record(bytes, at)?;
    Ok((record.kind, record.body.len(), after))
}

/// Bytes, a place in them, and what is read there.
#[rattlefmt::skip]
static PLACES: [(&[u8], usize, Result<(u8, usize, usize), RecordFault>); 6] = [
    (&[0x0E, 0x01, 0x00, 0xF1], 0, Ok((0x0E, 0, 4))),
    (&[0x0E, 0x01, 0x00, 0xF0], 0, Err(RecordFault::BadSum(0))),
    (&[0x0E, 0x00, 0x00], 0, Err(RecordFault::ZeroLength(0))),
    (&[], 0, Err(RecordFault::Truncated(0))),
    (&[0x0E, 0x01, 0x00, 0xF1], 4, Err(RecordFault::Truncated(4))),
    (&[], usize::MAX, Err(RecordFault::Truncated(usize::MAX))),
];

#[test]
fn records_are_read_at_their_places(rt: HostRuntime) {
    for (bytes, at, wanted) in &PLACES {
        assert!(rt; read_at(bytes, *at) == *wanted);
    }
}

#[test]
fn an_end_of_file_is_written(rt: HostRuntime) -> Result<(), Fail> {
    let mut out = Vec::new(rt.alloc());
    put_record(rt.alloc(), RecordKind::EndOfFile.byte(), &[], &mut out)?;
    assert!(rt; out.as_slice() == END.as_slice() && sum_of(&out) == 0);
    assert!(rt; RecordKind::from_byte(0x0E) == Some(RecordKind::EndOfFile));
    Ok(())
}

/// The faults of a record and of a content whose bodies are one byte too long.
fn refuse_long_bodies(
    alloc: Global,
    bytes: &[u8],
    out: &mut Vec<u8>,
) -> Result<[Option<PutFault>; 2], Fail> {
    let content = bytes.get(..65532).ok_or("short")?;
    let refused = put_record(alloc, 0x06, bytes, out).err();
    Ok([refused, put_content(alloc, 1, 0, content, out).err()])
}

/// Writes a record with the longest body, 65,534 bytes.
fn put_longest_body(alloc: Global, bytes: &[u8], out: &mut Vec<u8>) -> Result<(), Fail> {
    let body = bytes.get(1..).ok_or("short")?;
    Ok(put_record(alloc, 0x06, body, out)?)
}

#[test]
fn a_body_has_65534_bytes_at_most(rt: HostRuntime) -> Result<(), Fail> {
    let bytes = vec![in rt.alloc(); 0x55u8; 65535]?;
    let mut out = vec![in rt.alloc(); 0x11u8]?;
    let refused = refuse_long_bodies(rt.alloc(), &bytes, &mut out)?;
    assert_eq!(rt; refused, [Some(PutFault::TooLong); 2]);
    assert!(rt; out.as_slice() == [0x11].as_slice());
    put_longest_body(rt.alloc(), &bytes, &mut out)?;
    assert!(rt; read_at(&out, 1) == Ok((0x06, 65534, 1 + 65538)));
    Ok(())
}

#[test]
fn a_name_is_made_copied_and_shown(rt: HostRuntime) -> Result<(), Fail> {
    let name = Name::new(rt.alloc(), b"A")?;
    let copy = name.copy(rt.alloc())?;
    let text = name.to_string(rt.alloc())?;
    assert!(rt; copy == name && copy.bytes() == b"A".as_slice() && text.as_str() == "A");
    Ok(())
}

#[test]
fn a_name_is_split_from_a_body(rt: HostRuntime) {
    assert!(rt; split_name(b"\x01A\x00", 0) == Some((b"A".as_slice(), 2)));
}
