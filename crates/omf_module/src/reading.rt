//! Modules read from an object file.

ghost use Rattle.std.specs.Prelude.{◌≡◌, ◌<◌, ◌⊎◌, ℕ, List, None, Some, Ok, Err, [], option_map, IfOk, IfErr, OnOk, IsOk};
ghost use Rattle.std.specs.List.{flat_map};
ghost use Rattle.omf_module.specs.Records.{commons_of};
ghost use Rattle.omf_module.specs.Gathered.{segments_in, publics_in, externals_in, contents_from, parts_of};
ghost use Rattle.omf_module.specs.Uses.{fault_by, use_fault};
ghost use Rattle.omf_module.specs.declared.fault.Cause.{Cause as CauseValue};
ghost use Rattle.omf_module.specs.declared.fault.ModuleFault.{ModuleFault as ModuleFaultValue};
ghost use Rattle.omf_module.specs.Fault.{no_memory};
ghost use Rattle.omf_model.specs.Modules.{ModuleValue};
ghost use Rattle.omf_module.specs.ReadingLaws.{Answers};
ghost use Rattle.omf_module.specs.Spelled.{SpellsModule, FaultsHeader, FaultsModule, SpellsFile, FaultsFile};
ghost use Rattle.omf_module.specs.Reading.{OrNoMemory, records_of, with_contents};

use crate::commons::keep_name;
use crate::fault::ModuleFault;
use crate::file_feed::FileFeed;
use crate::gathering::{externals_of, publics_of, segments_in};
use crate::laws::{one_file_reading, one_reading};
use crate::module_file::{ModuleFile, ModuleFileRead, PlacedBody};
use crate::record_reading::{header_at, records_at};
use crate::uses::{check_header, check_start, contents_of};
use omf_body::{HeaderBody, Place};
use omf_model::{Common, Content, Module, Parts};
use std::alloc::{AllocError, Global};

/// The [`Parts`] that a module's records give, but without contents. `Err` only if memory runs out.
fn without_contents(
    alloc: Global,
    header: &HeaderBody,
    bodies: &[PlacedBody],
    commons: Vec<Common>,
    start: Option<Place>,
) -> Result<Parts, AllocError>
    ensures { IfOk result (λ parts. parts ≡ record {
      name = header.now.name;
      segments = segments_in header.now;
      commons = commons.items;
      publics = flat_map (λ p. publics_in p.body) bodies.now;
      externals = flat_map (λ p. externals_in p.body) bodies.now;
      contents = [];
      start = option_map (λ place. (place.segment, place.offset)) start;
    }) }
{
    let name = keep_name(alloc, &header.name)?;
    let segments = segments_in(alloc, header)?;
    let publics = publics_of(alloc, bodies)?;
    let externals = externals_of(alloc, bodies)?;
    Ok(Parts {
        name,
        segments,
        commons,
        publics,
        externals,
        contents: Vec::new(alloc),
        start: start.map(|place| (place.segment, place.offset)),
    })
}

/// The contents that a module's records give, with their fixups; `draft` must have the other parts
/// that they give, and no contents. The fault is the first in what the records use, from
/// `SegmentUnknown` to `IndexUnknown`, or `Memory`.
fn used_contents(
    alloc: Global,
    draft: &Parts,
    file: &ModuleFile,
) -> Result<Vec<Content>, ModuleFault>
    requires { draft.now ≡ with_contents (parts_of (records_of file.now)) [] }
    ensures contents { IfOk result (λ contents. contents.items ≡ contents_from None file.now.within.bodies.items) }
    ensures sound { OnOk result (use_fault (records_of file.now) ≡ None) }
    ensures fault { IfErr result (OrNoMemory (λ fault. use_fault (records_of file.now) ≡ Some fault)) }
{
    if let Err(why) = check_header(draft, &file.header) {
        return Err(why.at(file.at));
    }
    let within = &file.within;
    let contents = contents_of(alloc, draft, &within.bodies)?;
    match check_start(draft, within.end.start) {
        Ok(()) => Ok(contents),
        Err(why) => Err(why.at(within.end_at)),
    }
}

/// The [`Parts`] that a module's records give; `commons` must be the named commons that they
/// declare. The fault is the first in what the records use, from `SegmentUnknown` to
/// `IndexUnknown`, or `Memory`.
fn parts_of(alloc: Global, file: &ModuleFile, commons: Vec<Common>) -> Result<Parts, ModuleFault>
    requires { commons.items ≡ commons_of file.now.within.bodies.items }
    ensures parts { IfOk result (λ parts. parts ≡ parts_of (records_of file.now)) }
    ensures sound { OnOk result (use_fault (records_of file.now) ≡ None) }
    ensures fault { IfErr result (OrNoMemory (λ fault. use_fault (records_of file.now) ≡ Some fault)) }
{
    let within = &file.within;
    let mut parts = without_contents(
        alloc,
        &file.header,
        &within.bodies,
        commons,
        within.end.start,
    )?;
    parts.contents = used_contents(alloc, &parts, file)?;
    Ok(parts)
}

/// The module that begins at a place, and the place after its end record; or its first fault, or
/// `Memory` at place 0.
pub(crate) fn module_at(
    alloc: Global,
    bytes: &[u8],
    at: usize,
) -> Result<(Module, usize), ModuleFault>
    ensures read { IfOk result (λ r. SpellsModule bytes.now at r.1 r.0) }
    ensures fault { IfErr result (OrNoMemory (FaultsModule bytes.now at)) }
{
    let ModuleFileRead {
        file,
        commons,
        after,
    } = records_at(alloc, bytes, at)?;
    let parts = parts_of(alloc, &file, commons)?;
    let module = Module::from_sound_parts(alloc, parts)?;
    Ok((module, after))
}

/// The module that begins at place `at` of an object file, and the place after its end record.
///
/// All records up to the end are read first, by place, and within a record by its fields in order:
/// `Record` if the bytes are no record; `NoHeader` if there is no byte at `at`, or a record that
/// isn't a module header; `UnknownKind` for a record that no module may have; `BadBody` if a body
/// ends inside a field, a field has no listed value, or an id or a common's name is listed twice;
/// `BadName` for a name that is empty or has a byte outside 21h to 7Eh; `NoEnd` if there is no byte
/// where a record should follow, or an end-of-file record. Only then what the records use is
/// checked, entry by entry in order, and each entry for `SegmentUnknown`, `OffsetOutside`,
/// `FixupBeforeContent`, `FixupOutside`, `FixupTwice` and `IndexUnknown`, in this order. (8080
/// Object Module Formats, module.)
///
/// # Example
/// ```
/// let (module, after) = read_module(rt.alloc(), &HALT, 0)?;
/// assert_eq!(rt; module.start(), Some((1, 0)));
/// assert_eq!(rt; after, 28);
/// ```
///
/// # Errors
/// The first fault, at the place of its record; or `Memory` at place 0 only if memory runs out,
/// which is never before the header is read: bytes that begin no module are reported in any case.
pub fn read_module(alloc: Global, bytes: &[u8], at: usize) -> Result<(Module, usize), ModuleFault>
    // What is read is what the bytes spell, and nothing that they spell is refused or read as another.
    ensures read { IfOk result (λ r. SpellsModule bytes.now at r.1 r.0) }
    ensures every_module { (m : ModuleValue) (after : ℕ) → SpellsModule bytes.now at after m → Answers result (Ok (m, after)) }

    // Each refusal but out of memory has its cause, and it is the first; that of a header needs no memory.
    ensures fault { IfErr result (OrNoMemory (FaultsModule bytes.now at)) }
    ensures every_fault { (fault : ModuleFaultValue) → FaultsModule bytes.now at fault → Answers result (Err fault) }
    ensures early { (why : CauseValue) → FaultsHeader bytes.now at why → result ≡ Err (fault_by at why) }
{
    one_reading();
    match header_at(bytes, at) {
        Ok(_) => module_at(alloc, bytes, at),
        Err(why) => Err(why.at(at)),
    }
}

/// The modules of an object file, one or more, up to the end-of-file record after them. Bytes after
/// that aren't read. For a file that comes in pieces there is [`FileFeed`]. (8080 Object Module
/// Formats, object file.)
///
/// # Errors
/// The first fault: that of a module, as [`read_module`] gives it; `NoEnd` if no byte follows a
/// module; `Record` if the bytes there are no record. `Memory` at place 0 only if memory runs out.
pub fn read_file(alloc: Global, bytes: &[u8]) -> Result<Vec<Module>, ModuleFault>
    ensures read { IfOk result (λ modules. SpellsFile bytes.now modules.items) }
    ensures every_file { (ms : List ModuleValue) → SpellsFile bytes.now ms → (IsOk result) ⊎ (result ≡ Err no_memory) }
    ensures fault { IfErr result (OrNoMemory (FaultsFile bytes.now)) }
    ensures every_fault { (fault : ModuleFaultValue) → FaultsFile bytes.now fault
        → (result ≡ Err fault) ⊎ (result ≡ Err no_memory) }
{
    one_file_reading();
    let mut feed = FileFeed::new(alloc);
    match feed.piece(bytes) {
        Ok(_) => feed.finish(),
        Err(fault) => Err(fault),
    }
}
