//! Modules, files and records of many parts, as many as files allow: more than 255, 1,000 and 65,535 of them. What the program
//! makes of many parts is in its tests.

use omf_body::{
    Cursor, ExternalEntry, Field, FieldFault, NameBytes, OffsetEntry, PublicEntry, SegmentEntry,
    put_content, put_externals, put_header, put_publics, put_relocation,
};
use omf_core::{Feed, Name, RecordFault, next_record};
use omf_library::{Library, Providers};
use omf_module::{Module, read_file, read_module, write_file, write_module};
use std::alloc::{AllocError, Global};
use std::test::Fail;

/// The header of a module `A` without segments.
static HEADER: [u8; 8] = [0x02, 0x05, 0x00, 0x01, 0x41, 0x00, 0x00, 0xB7];

/// The end of a module that is no main program.
static END: [u8; 8] = [0x04, 0x05, 0x00, 0x00, 0x00, 0x00, 0x00, 0xF7];

/// The end of a file.
static END_OF_FILE: [u8; 4] = [0x0E, 0x01, 0x00, 0xF1];

/// A content of one byte, 76, at 3000.
static CONTENT: [u8; 8] = [0x06, 0x05, 0x00, 0x00, 0x00, 0x30, 0x76, 0x4F];

/// A module `A` with that content.
static MODULE: [u8; 24] = [
    0x02, 0x05, 0x00, 0x01, 0x41, 0x00, 0x00, 0xB7, // module header
    0x06, 0x05, 0x00, 0x00, 0x00, 0x30, 0x76, 0x4F, // content
    0x04, 0x05, 0x00, 0x00, 0x00, 0x00, 0x00, 0xF7, // module end
];

/// A module `A` that declares P at 0000 of segment 0, and an end of file.
static LAST: [u8; 30] = [
    0x02, 0x05, 0x00, 0x01, 0x41, 0x00, 0x00, 0xB7, // module header
    0x16, 0x07, 0x00, 0x00, 0x00, 0x00, 0x01, 0x50, 0x00, 0x92, // public declarations
    0x04, 0x05, 0x00, 0x00, 0x00, 0x00, 0x00, 0xF7, // module end
    0x0E, 0x01, 0x00, 0xF1, // end of file
];

/// Public P at 0000 of segment 0.
static PUBLIC: [u8; 10] = [0x16, 0x07, 0x00, 0x00, 0x00, 0x00, 0x01, 0x50, 0x00, 0x92];

/// External name E.
static EXTERNAL: [u8; 7] = [0x18, 0x04, 0x00, 0x01, 0x45, 0x00, 0x9E];

/// The bytes `before`, then `bytes` `count` times, then `after`.
fn repeated(
    alloc: Global,
    before: &[u8],
    bytes: &[u8],
    count: usize,
    after: &[u8],
) -> Result<Vec<u8>, AllocError> {
    let mut all = before.to_vec(alloc)?;
    for _ in 0..count {
        all.extend_from_slice(bytes)?;
    }
    all.extend_from_slice(after)?;
    Ok(all)
}

/// Whether these bytes are written for a module.
fn is_written_as(alloc: Global, module: &Module, bytes: &[u8]) -> Result<bool, AllocError> {
    let mut out = Vec::new(alloc);
    write_module(alloc, module, &mut out)?;
    Ok(out.as_slice() == bytes)
}

/// Whether these bytes are written for the copy of a module.
fn copy_is_written_as(alloc: Global, module: &Module, bytes: &[u8]) -> Result<bool, AllocError> {
    let copy = module.copy(alloc)?;
    is_written_as(alloc, &copy, bytes)
}

/// Whether a file is one module, whose copy is written as the same bytes.
fn is_copied(alloc: Global, file: &[u8]) -> Result<bool, Fail> {
    let (module, after) = read_module(alloc, file, 0)?;
    Ok(copy_is_written_as(alloc, &module, file)? && after == file.len())
}

/// Whether a module of `count` of these records is copied.
fn records_are_copied(alloc: Global, record: &[u8], count: usize) -> Result<bool, Fail> {
    let file = repeated(alloc, &HEADER, record, count, &END)?;
    is_copied(alloc, &file)
}

#[test]
fn modules_of_many_records_are_copied(rt: HostRuntime) -> Result<(), Fail> {
    for record in [CONTENT.as_slice(), PUBLIC.as_slice(), EXTERNAL.as_slice()] {
        for count in [2, 257, 1001, 65_537] {
            assert!(rt;
                records_are_copied(rt.alloc(), record, count)?,
                "{count} records"
            );
        }
    }
    Ok(())
}

/// The name that these bytes spell, its length first.
fn name(bytes: &[u8]) -> Result<NameBytes, FieldFault> {
    Cursor::new(bytes).name()
}

/// Writes a module with `length` bytes of code, a content of `length` zeros, and a relocation of
/// each of them.
fn put_relocated_module(
    alloc: Global,
    length: u16,
    zeros: &[u8],
    out: &mut Vec<u8>,
) -> Result<(), Fail> {
    let code = SegmentEntry {
        id: 1,
        length,
        alignment: 3,
    };
    put_header(alloc, &name(b"\x01A")?, &[code], out)?;
    put_content(alloc, 1, 0, zeros, out)?;
    for offset in 0..length {
        put_relocation(alloc, Field::Low, &[OffsetEntry { offset }], out)?;
    }
    Ok(out.extend_from_slice(&END)?)
}

/// A module with a content of `count` zeros, and a relocation of each of them.
fn relocated_module(alloc: Global, count: u16) -> Result<Vec<u8>, Fail> {
    let zeros = vec![in alloc; 0u8; usize::from(count)]?;
    let mut file = Vec::new(alloc);
    put_relocated_module(alloc, count, &zeros, &mut file)?;
    Ok(file)
}

/// Whether a module of `count` relocations is copied.
fn relocations_are_copied(alloc: Global, count: u16) -> Result<bool, Fail> {
    let file = relocated_module(alloc, count)?;
    is_copied(alloc, &file)
}

#[test]
fn modules_of_many_relocations_are_copied(rt: HostRuntime) -> Result<(), Fail> {
    for count in [257, 1001, 65_531] {
        assert!(rt;
            relocations_are_copied(rt.alloc(), count)?,
            "{count} relocations"
        );
    }
    Ok(())
}

/// Whether these bytes are written for modules; false if there are none.
fn are_written_as(alloc: Global, modules: &[Module], bytes: &[u8]) -> Result<bool, AllocError> {
    if modules.is_empty() {
        return Ok(false);
    }
    let mut out = Vec::new(alloc);
    write_file(alloc, modules, &mut out)?;
    Ok(out.as_slice() == bytes)
}

/// Whether a file of `count` modules is written as it is read.
fn modules_are_written(alloc: Global, count: usize) -> Result<bool, Fail> {
    let file = repeated(alloc, &[], &MODULE, count, &END_OF_FILE)?;
    let modules = read_file(alloc, &file)?;
    Ok(are_written_as(alloc, &modules, &file)?)
}

#[test]
fn files_of_many_modules_are_written(rt: HostRuntime) -> Result<(), Fail> {
    for count in [2, 257, 1001, 65_537] {
        assert!(rt; modules_are_written(rt.alloc(), count)?, "{count} modules");
    }
    Ok(())
}

/// `count` modules that declare nothing, and one more that declares P.
fn modules_with_p_last(alloc: Global, count: usize) -> Result<Vec<Module>, Fail> {
    let file = repeated(alloc, &[], &MODULE, count, &LAST)?;
    Ok(read_file(alloc, &file)?)
}

/// The index that the table of providers of these modules has for P.
fn first_in_table(alloc: Global, modules: &[&Module]) -> Result<Option<usize>, AllocError> {
    let providers = Providers::of(alloc, modules)?;
    Ok(providers.first(b"P"))
}

/// The index of the first of these modules that declares P, as a table of providers has it.
fn first_provider_of_p(alloc: Global, modules: &[Module]) -> Result<Option<usize>, AllocError> {
    let mut list = Vec::with_capacity(alloc, modules.len())?;
    for module in modules {
        list.push(module)?;
    }
    first_in_table(alloc, &list)
}

/// Whether the first module of a library that declares P has this index, by a table of providers
/// and by the library.
fn is_first_provider_of_p(alloc: Global, library: &Library, index: usize) -> Result<bool, Fail> {
    let found = first_provider_of_p(alloc, &library.modules)?;
    let p = Name::new(alloc, b"P")?;
    Ok(found == Some(index) && library.provider(&p) == Some(index))
}

/// Whether P is found in the last of `count` modules and one more.
fn last_is_found(alloc: Global, count: usize) -> Result<bool, Fail> {
    let modules = modules_with_p_last(alloc, count)?;
    is_first_provider_of_p(alloc, &Library { modules }, count)
}

#[test]
fn the_last_of_many_modules_is_found(rt: HostRuntime) -> Result<(), Fail> {
    for count in [257, 1001, 65_537] {
        assert!(rt;
            last_is_found(rt.alloc(), count)?,
            "{count} modules before it"
        );
    }
    Ok(())
}

/// How many records a feed counts in a piece of `count` contents.
fn count_records(alloc: Global, count: usize) -> Result<usize, Fail> {
    let piece = repeated(alloc, &[], &CONTENT, count, &[])?;
    Ok(Feed::new(alloc).piece(&piece)?)
}

#[test]
fn a_feed_counts_the_records_of_a_long_piece(rt: HostRuntime) -> Result<(), Fail> {
    for count in [257, 1001, 65_537] {
        assert_eq!(rt; count_records(rt.alloc(), count)?, count);
    }
    Ok(())
}

/// Public P at 0000.
fn public<'a>() -> Result<PublicEntry<'a>, FieldFault> {
    let (offset, unread) = (0, 0);
    let name = name(b"\x01P")?;
    Ok(PublicEntry {
        offset,
        name,
        unread,
    })
}

/// Writes a record of `count` publics.
fn put_many_publics(alloc: Global, count: usize, out: &mut Vec<u8>) -> Result<(), Fail> {
    let mut entries = Vec::with_capacity(alloc, count)?;
    for _ in 0..count {
        entries.push(public()?)?;
    }
    Ok(put_publics(alloc, 1, &entries, out)?)
}

/// External name E.
fn external<'a>() -> Result<ExternalEntry<'a>, FieldFault> {
    let name = name(b"\x01E")?;
    Ok(ExternalEntry { name, unread: 0 })
}

/// Writes a record of `count` external names.
fn put_many_externals(alloc: Global, count: usize, out: &mut Vec<u8>) -> Result<(), Fail> {
    let mut entries = Vec::with_capacity(alloc, count)?;
    for _ in 0..count {
        entries.push(external()?)?;
    }
    Ok(put_externals(alloc, &entries, out)?)
}

/// The length of the body of the first record.
fn first_body_length(bytes: &[u8]) -> Result<usize, RecordFault> {
    let (record, _) = next_record(bytes, 0)?;
    Ok(record.body.len())
}

/// The length of the body of a record of `count` publics.
fn length_of_publics(alloc: Global, count: usize) -> Result<usize, Fail> {
    let mut out = Vec::new(alloc);
    put_many_publics(alloc, count, &mut out)?;
    Ok(first_body_length(&out)?)
}

/// The length of the body of a record of `count` external names.
fn length_of_externals(alloc: Global, count: usize) -> Result<usize, Fail> {
    let mut out = Vec::new(alloc);
    put_many_externals(alloc, count, &mut out)?;
    Ok(first_body_length(&out)?)
}

/// A public takes five bytes of a body, after one, and an external name three; a body has 65,534 at most.
#[test]
fn records_of_many_names_are_written(rt: HostRuntime) -> Result<(), Fail> {
    for count in [257, 1001, 13_106] {
        assert_eq!(rt; length_of_publics(rt.alloc(), count)?, 1 + 5 * count);
    }
    for count in [257, 1001, 21_844] {
        assert_eq!(rt; length_of_externals(rt.alloc(), count)?, 3 * count);
    }
    Ok(())
}
