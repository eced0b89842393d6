//! The one way in which each body is written: a whole record, appended to a file. Bytes that aren't read are written
//! as 00. (8080 Object Module Formats, record formats.)

ghost use Rattle.std.specs.Prelude.{◌≡◌, ◌++◌, OnOk};
ghost use Rattle.std.specs.List.{flat_map};
ghost use Rattle.omf_body.specs.declared.body.Body.TheVariants as body_of;
ghost use Rattle.omf_body.specs.Writing.{Appends, end_filling};

use crate::body::Place;
use crate::entries::{
    CommonEntry, ExternalEntry, IndexEntry, OffsetEntry, PublicEntry, SegmentEntry,
};
use crate::entry::Entry;
use crate::field::Field;
use crate::name::NameBytes;
use omf_core::{PutFault, RecordKind, push_name, push_word, put_record};
use std::alloc::{AllocError, Global};

/// Appends the bytes of the entries to `out`, in order. `Err` only if memory runs out.
fn push_row<E: Entry>(entries: &[E], out: &mut Vec<u8>) -> Result<(), AllocError>
    ensures { OnOk result (out.new.items ≡ out.old.items ++ flat_map E.layout.bytes entries.now) }
{
    for entry in entries {
        entry.write(out)?;
    }
    Ok(())
}

/// Appends a module header record (02) to `out`: the module's name and its segments. The
/// translator's id and version are written as 0.
///
/// # Errors
/// `TooLong` only if the body would have more than 65534 bytes; such a record is never appended.
/// `Memory` only if memory runs out. After either, `out` holds the bytes that it held.
pub fn put_header(
    alloc: Global,
    name: &NameBytes,
    segments: &[SegmentEntry],
    out: &mut Vec<u8>,
) -> Result<(), PutFault>
    ensures { Appends (body_of.ModuleHeader
        (record { name = name.now; translator = 0; version = 0; segments = segments.now })) out.old.items out.new.items result }
{
    let mut body = Vec::new(alloc);
    push_name(name.bytes(), &mut body)?;
    body.extend_from_slice(&[0, 0])?;
    push_row(segments, &mut body)?;
    put_record(alloc, RecordKind::ModuleHeader.byte(), &body, out)
}

/// Appends a content record (06) to `out`: bytes of a segment from an offset on.
///
/// # Errors
/// `TooLong` only if the body would have more than 65534 bytes; such a record is never appended.
/// `Memory` only if memory runs out. After either, `out` holds the bytes that it held.
pub fn put_content(
    alloc: Global,
    segment: u8,
    offset: u16,
    bytes: &[u8],
    out: &mut Vec<u8>,
) -> Result<(), PutFault>
    ensures { Appends (body_of.Content
        (record { segment = segment; offset = offset; bytes = bytes.now })) out.old.items out.new.items result }
{
    let mut body = Vec::from_slice(alloc, &[segment])?;
    push_word(offset, &mut body)?;
    body.extend_from_slice(bytes)?;
    put_record(alloc, RecordKind::Content.byte(), &body, out)
}

/// Appends a public declarations record (16) to `out`: publics of one segment.
///
/// # Errors
/// `TooLong` only if the body would have more than 65534 bytes; such a record is never appended.
/// `Memory` only if memory runs out. After either, `out` holds the bytes that it held.
pub fn put_publics(
    alloc: Global,
    segment: u8,
    publics: &[PublicEntry],
    out: &mut Vec<u8>,
) -> Result<(), PutFault>
    ensures { Appends (body_of.PublicDeclarations
        (record { segment = segment; publics = publics.now })) out.old.items out.new.items result }
{
    let mut body = Vec::from_slice(alloc, &[segment])?;
    push_row(publics, &mut body)?;
    put_record(alloc, RecordKind::PublicDeclarations.byte(), &body, out)
}

/// Appends an external names record (18) to `out`.
///
/// # Errors
/// `TooLong` only if the body would have more than 65534 bytes; such a record is never appended.
/// `Memory` only if memory runs out. After either, `out` holds the bytes that it held.
pub fn put_externals(
    alloc: Global,
    externals: &[ExternalEntry],
    out: &mut Vec<u8>,
) -> Result<(), PutFault>
    ensures { Appends (body_of.ExternalNames externals.now) out.old.items out.new.items result }
{
    let mut body = Vec::new(alloc);
    push_row(externals, &mut body)?;
    put_record(alloc, RecordKind::ExternalNames.byte(), &body, out)
}

/// Appends a named commons record (2E) to `out`.
///
/// # Errors
/// `TooLong` only if the body would have more than 65534 bytes; such a record is never appended.
/// `Memory` only if memory runs out. After either, `out` holds the bytes that it held.
pub fn put_commons(
    alloc: Global,
    commons: &[CommonEntry],
    out: &mut Vec<u8>,
) -> Result<(), PutFault>
    ensures { Appends (body_of.NamedCommons commons.now) out.old.items out.new.items result }
{
    let mut body = Vec::new(alloc);
    push_row(commons, &mut body)?;
    put_record(alloc, RecordKind::NamedCommons.byte(), &body, out)
}

/// Appends an external references record (20) to `out`: references in the content before to
/// externals.
///
/// # Errors
/// `TooLong` only if the body would have more than 65534 bytes; such a record is never appended.
/// `Memory` only if memory runs out. After either, `out` holds the bytes that it held.
pub fn put_external_references(
    alloc: Global,
    field: Field,
    references: &[IndexEntry],
    out: &mut Vec<u8>,
) -> Result<(), PutFault>
    ensures { Appends (body_of.ExternalReferences
        (record { field = field; references = references.now })) out.old.items out.new.items result }
{
    let mut body = Vec::from_slice(alloc, &[field.byte()])?;
    push_row(references, &mut body)?;
    put_record(alloc, RecordKind::ExternalReferences.byte(), &body, out)
}

/// Appends a relocation record (22) to `out`: references in the content before to its own segment.
///
/// # Errors
/// `TooLong` only if the body would have more than 65534 bytes; such a record is never appended.
/// `Memory` only if memory runs out. After either, `out` holds the bytes that it held.
pub fn put_relocation(
    alloc: Global,
    field: Field,
    references: &[OffsetEntry],
    out: &mut Vec<u8>,
) -> Result<(), PutFault>
    ensures { Appends (body_of.Relocation
        (record { field = field; references = references.now })) out.old.items out.new.items result }
{
    let mut body = Vec::from_slice(alloc, &[field.byte()])?;
    push_row(references, &mut body)?;
    put_record(alloc, RecordKind::Relocation.byte(), &body, out)
}

/// Appends an intersegment references record (24) to `out`: references in the content before to the
/// segment with this id.
///
/// # Errors
/// `TooLong` only if the body would have more than 65534 bytes; such a record is never appended.
/// `Memory` only if memory runs out. After either, `out` holds the bytes that it held.
pub fn put_intersegment(
    alloc: Global,
    segment: u8,
    field: Field,
    references: &[OffsetEntry],
    out: &mut Vec<u8>,
) -> Result<(), PutFault>
    ensures { Appends (body_of.IntersegmentReferences
        (record { segment = segment; field = field; references = references.now })) out.old.items out.new.items result }
{
    let mut body = Vec::from_slice(alloc, &[segment, field.byte()])?;
    push_row(references, &mut body)?;
    put_record(alloc, RecordKind::IntersegmentReferences.byte(), &body, out)
}

/// Appends a module end record (04) to `out`, with the start if the module is a main program.
///
/// # Errors
/// `TooLong` only if the body would have more than 65534 bytes; such a record is never appended.
/// `Memory` only if memory runs out. After either, `out` holds the bytes that it held.
pub fn put_end(alloc: Global, start: Option<Place>, out: &mut Vec<u8>) -> Result<(), PutFault>
    ensures { Appends (body_of.ModuleEnd
        (record { start = start; unread = end_filling start })) out.old.items out.new.items result }
{
    let bytes = match start {
        None => [0, 0, 0, 0],
        Some(Place { segment, offset }) => {
            [1, segment, (offset % 256) as u8, (offset / 256) as u8]
        }
    };
    let body = Vec::from_slice(alloc, &bytes)?;
    put_record(alloc, RecordKind::ModuleEnd.byte(), &body, out)
}
