//! Modules as records, in canonical form: each kind of record is appended by its own function.

ghost use Rattle.std.specs.Prelude.{◌≡◌, ◌≤◌, ◌<◌, ◌++◌, [], length, map, IfOk, OnOk, OnErr, IsTrue};
ghost use Rattle.std.specs.List.{flat_map, AllByRecursion};
ghost use Rattle.omf_core.specs.Name.{is_name};
ghost use Rattle.omf_body.specs.declared.body.Body.TheVariants.{ModuleHeader, ModuleEnd};
ghost use Rattle.omf_body.specs.Bodies.{record_bytes};
ghost use Rattle.omf_model.specs.Rules.{IsModule};
ghost use Rattle.omf_module.specs.Spelled.{SpellsFile};
ghost use Rattle.omf_module.specs.Writing.{segment_entry, header_body, common_body, public_body, external_body, fixup_body, content_bodies, end_body, module_bytes, file_bytes};
ghost use Rattle.omf_module.specs.WritingLaws.{IsReadAgain};

use crate::laws::{written_file_is_spelled, written_module_is_spelled};
use omf_body::{
    ANY_BYTE, CommonEntry, ExternalEntry, IndexEntry, NameBytes, OffsetEntry, Place, PublicEntry,
    SegmentEntry, put_commons, put_content, put_end, put_external_references, put_externals,
    put_header, put_intersegment, put_publics, put_relocation,
};
use omf_core::{Name, RecordKind, never_too_long, put_record};
use omf_model::{Common, Content, Fixup, Module, Public, Segment, Target};
use std::alloc::{AllocError, Global};

/// The alignment byte of a segment that starts at a multiple of 256.
pub(crate) const PAGED: u8 = 2;

/// The bytes of a name, borrowed, as the entries of records have them.
fn name_bytes(name: &Name) -> NameBytes
    ensures value { result ≡ name.now }
    ensures name { IsTrue (is_name name.now) }
{
    let bytes = NameBytes::of(name);
    let _ = bytes.bytes();
    bytes
}

/// The header's entries for these segments, in order. `Err` only if memory runs out.
fn segment_entries(
    alloc: Global,
    segments: &[(u8, Segment)],
) -> Result<Vec<SegmentEntry>, AllocError>
    ensures { IfOk result (λ made. made.items ≡ map segment_entry segments.now) }
{
    let mut entries = Vec::new(alloc);
    for segment in segments {
        entries.push(SegmentEntry {
            id: segment.0,
            length: segment.1.length,
            alignment: if segment.1.paged { PAGED } else { ANY_BYTE },
        })?;
    }
    Ok(entries)
}

/// Appends the header record of the module. `Err` only if memory runs out.
fn append_header(alloc: Global, source: &Module, out: &mut Vec<u8>) -> Result<(), AllocError>
    ensures { OnOk result (out.new.items ≡ out.old.items ++ record_bytes (ModuleHeader (header_body source.now))) }
{
    let entries = segment_entries(alloc, source.segments())?;
    let name = name_bytes(source.name());
    never_too_long(put_header(alloc, &name, &entries, out))
}

/// Appends the record of one fixup in a content of the segment with id `own`: a relocation (22), an
/// intersegment reference (24) or an external reference (20). `Err` only if memory runs out.
fn append_fixup(alloc: Global, own: u8, fixup: Fixup, out: &mut Vec<u8>) -> Result<(), AllocError>
    ensures { OnOk result (out.new.items ≡ out.old.items ++ record_bytes (fixup_body own fixup)) }
{
    let Fixup { offset, field, .. } = fixup;
    match fixup.target {
        Target::Segment(id) => {
            if id == own {
                never_too_long(put_relocation(alloc, field, &[OffsetEntry { offset }], out))
            } else {
                let references = [OffsetEntry { offset }];
                never_too_long(put_intersegment(alloc, id, field, &references, out))
            }
        }
        Target::External(index) => {
            let references = [IndexEntry { index, offset }];
            never_too_long(put_external_references(alloc, field, &references, out))
        }
    }
}

/// Appends the module end record, with the start if there is one. `Err` only if memory runs out.
fn append_end(alloc: Global, start: Option<(u8, u16)>, out: &mut Vec<u8>) -> Result<(), AllocError>
    ensures { OnOk result (out.new.items ≡ out.old.items ++ record_bytes (ModuleEnd (end_body start))) }
{
    let place = start.map(|(segment, offset)| Place { segment, offset });
    never_too_long(put_end(alloc, place, out))
}

/// Appends a record for each named common. `Err` only if memory runs out.
fn append_commons(alloc: Global, commons: &[Common], out: &mut Vec<u8>) -> Result<(), AllocError>
    ensures { OnOk result (out.new.items ≡ out.old.items ++ flat_map record_bytes (map common_body commons.now)) }
{
    for common in commons {
        let entry = CommonEntry {
            id: common.id,
            name: name_bytes(&common.name),
        };
        never_too_long(put_commons(alloc, &[entry], out))?;
    }
    Ok(())
}

/// Appends a record for each public. `Err` only if memory runs out.
fn append_publics(alloc: Global, publics: &[Public], out: &mut Vec<u8>) -> Result<(), AllocError>
    ensures { OnOk result (out.new.items ≡ out.old.items ++ flat_map record_bytes (map public_body publics.now)) }
{
    for public in publics {
        let entry = PublicEntry {
            offset: public.offset,
            name: name_bytes(&public.name),
            unread: 0,
        };
        never_too_long(put_publics(alloc, public.segment, &[entry], out))?;
    }
    Ok(())
}

/// Appends a record for each external. `Err` only if memory runs out.
fn append_externals(alloc: Global, externals: &[Name], out: &mut Vec<u8>) -> Result<(), AllocError>
    ensures { OnOk result (out.new.items ≡ out.old.items ++ flat_map record_bytes (map external_body externals.now)) }
{
    for name in externals {
        let entry = ExternalEntry {
            name: name_bytes(name),
            unread: 0,
        };
        never_too_long(put_externals(alloc, &[entry], out))?;
    }
    Ok(())
}

/// Appends a record for each fixup in a content of the segment with id `own`. `Err` only if memory
/// runs out.
fn append_fixups(
    alloc: Global,
    own: u8,
    fixups: &[Fixup],
    out: &mut Vec<u8>,
) -> Result<(), AllocError>
    ensures { OnOk result (out.new.items ≡ out.old.items ++ flat_map record_bytes (map (fixup_body own) fixups.now)) }
{
    for fixup in fixups {
        append_fixup(alloc, own, *fixup, out)?;
    }
    Ok(())
}

/// Appends a content record, and a record for each of its fixups. The content must have at most
/// 65531 bytes. `Err` only if memory runs out.
fn append_content(alloc: Global, content: &Content, out: &mut Vec<u8>) -> Result<(), AllocError>
    requires { length content.now.bytes ≤ 65531 }
    ensures { OnOk result (out.new.items ≡ out.old.items ++ flat_map record_bytes (content_bodies content.now)) }
{
    never_too_long(put_content(alloc, content.segment, content.offset, &content.bytes, out))?;
    append_fixups(alloc, content.segment, &content.fixups, out)
}

/// Appends the records of the contents and their fixups, in order. Each content must have at most
/// 65531 bytes. `Err` only if memory runs out.
fn append_contents(alloc: Global, contents: &[Content], out: &mut Vec<u8>) -> Result<(), AllocError>
    requires { AllByRecursion (λ c. length c.bytes ≤ 65531) contents.now }
    ensures { OnOk result (out.new.items ≡ out.old.items ++ flat_map record_bytes (flat_map content_bodies contents.now)) }
{
    for content in contents {
        append_content(alloc, content, out)?;
    }
    Ok(())
}

/// Appends the records of the module. `Err` only if memory runs out; some records may then have
/// been appended.
fn append_module(alloc: Global, source: &Module, out: &mut Vec<u8>) -> Result<(), AllocError>
    ensures written { OnOk result (out.new.items ≡ out.old.items ++ module_bytes source.now) }
    ensures rules { OnOk result (IsModule source.now) }
{
    append_header(alloc, source, out)?;
    append_commons(alloc, source.commons(), out)?;
    append_publics(alloc, source.publics(), out)?;
    append_externals(alloc, source.externals(), out)?;
    append_contents(alloc, source.contents(), out)?;
    append_end(alloc, source.start(), out)?;
    Ok(())
}

/// Appends the records of one module to `out`, which grows by its own allocator: a header with its
/// segments in ascending order of ids, one record for each named common, public and external, each
/// content followed by one record for each of its fixups, and an end. (8080 Object Module Formats,
/// module.)
///
/// # Errors
/// `AllocError` only if memory runs out; `out` is then unchanged.
pub fn write_module(alloc: Global, source: &Module, out: &mut Vec<u8>) -> Result<(), AllocError>
    ensures written { OnOk result (out.new.items ≡ out.old.items ++ module_bytes source.now) }
    ensures read { OnOk result (IsReadAgain source.now) }
    ensures refused { OnErr result (out.new.items ≡ out.old.items) }
{
    written_module_is_spelled();
    let mut records = Vec::new(alloc);
    append_module(alloc, source, &mut records)?;
    out.extend_from_slice(&records)
}

/// The bytes of the object file of these modules. `Err` only if memory runs out.
#[tactic(auto, unfolding(crate::specs::Writing::file_bytes))]
fn file_of(alloc: Global, modules: &[Module]) -> Result<Vec<u8>, AllocError>
    ensures written { IfOk result (λ file. file.items ≡ file_bytes modules.now) }
    ensures rules { OnOk result (AllByRecursion IsModule modules.now) }
{
    let mut file = Vec::new(alloc);
    for module in modules {
        append_module(alloc, module, &mut file)?;
    }
    let end = RecordKind::EndOfFile.byte();
    never_too_long(put_record(alloc, end, &[], &mut file))?;
    Ok(file)
}

/// Appends the object file of these modules, of which there must be at least one, to `out`, which
/// grows by its own allocator: the records of each, as [`write_module`] writes them, and then an
/// end-of-file record. It is read again as the same modules. (8080 Object Module Formats, object
/// file.)
///
/// # Errors
/// `AllocError` only if memory runs out; `out` is then unchanged.
pub fn write_file(alloc: Global, modules: &[Module], out: &mut Vec<u8>) -> Result<(), AllocError>
    requires { 0 < length modules.now }
    ensures written { OnOk result (out.new.items ≡ out.old.items ++ file_bytes modules.now) }
    ensures read { OnOk result (SpellsFile (file_bytes modules.now) modules.now) }
    ensures refused { OnErr result (out.new.items ≡ out.old.items) }
{
    written_file_is_spelled();
    let file = file_of(alloc, modules)?;
    out.extend_from_slice(&file)
}
