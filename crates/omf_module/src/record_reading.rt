//! The records of a module, read by place up to its end.

ghost use Rattle.std.specs.Prelude.{◌≡◌, ◌≢◌, ◌<◌, ◌≤◌, length, IfOk, IfErr};
ghost use Rattle.omf_module.specs.Records.{SpellsModuleRecords, commons_of};
ghost use Rattle.omf_module.specs.Spelled.{FaultsHeader, FaultsWithin, FaultsRecords, FaultsModule};
ghost use Rattle.omf_module.specs.Reading.{Follows, BeginsModule, ReadsWithin, OrNoMemory, records_of};

use crate::commons::take_commons;
use crate::fault::{Cause, ModuleFault};
use crate::module_file::{ModuleFile, ModuleFileRead, PlacedBody, Within, WithinRead};
use omf_body::{Body, HeaderBody, parse};
use omf_core::{RecordKind, next_record};
use omf_model::Common;
use std::alloc::Global;

/// The module header at a place, and the place after it; or the first fault of that record,
/// `NoHeader` if there is none or it is of another kind. It takes no memory.
pub(crate) fn header_at<'a>(bytes: &'a [u8], at: usize) -> Result<(HeaderBody<'a>, usize), Cause>
    ensures spelled { IfOk result (λ r. BeginsModule bytes.now at r.1 r.0) }
    ensures fault { IfErr result (λ why. FaultsHeader bytes.now at why) }
    ensures memory { IfErr result (λ why. why ≢ Cause.Memory) }
{
    if bytes.len() <= at {
        return Err(Cause::NoHeader);
    }
    let (record, after) = next_record(bytes, at)?;
    if record.kind != RecordKind::ModuleHeader.byte() {
        return Err(Cause::NoHeader);
    }
    match parse(record)? {
        Body::ModuleHeader(header) => Ok((header, after)),
        _ => unreachable!(),
    }
}

/// The body of the record at place `at` after a module's header, and the place after it. Named
/// commons that it declares are appended to `commons`, which are those of the records before it.
/// The fault is the record's first, or `Memory`.
pub(crate) fn next_body<'a>(
    alloc: Global,
    bytes: &'a [u8],
    at: usize,
    commons: &mut Vec<Common>,
) -> Result<(Body<'a>, usize), Cause>
    ensures follows { IfOk result (λ r. Follows bytes.now at r.1 commons.old.items commons.new.items r.0) }
    ensures fault { IfErr result (λ why. why ≢ Cause.Memory → FaultsWithin bytes.now at commons.old.items why) }
{
    if bytes.len() <= at {
        return Err(Cause::NoEnd);
    }
    let (record, after) = next_record(bytes, at)?;
    let Some(kind) = RecordKind::from_byte(record.kind) else {
        return Err(Cause::UnknownKind(record.kind));
    };
    match kind {
        RecordKind::ModuleHeader => return Err(Cause::UnknownKind(record.kind)),
        RecordKind::EndOfFile => return Err(Cause::NoEnd),
        RecordKind::NamedCommons => take_commons(alloc, record.body, commons)?,
        _ => {}
    }
    Ok((parse(record)?, after))
}

/// The records of a module from place `first` after its header up to its end, the named commons
/// that they declare, and the place after the end; or their first fault, or `Memory`. `first` must
/// not lie past the end of the bytes.
fn within_at<'a>(
    alloc: Global,
    bytes: &'a [u8],
    first: usize,
) -> Result<WithinRead<'a>, ModuleFault>
    requires { first ≤ length bytes.now }
    ensures read { IfOk result (ReadsWithin bytes.now first) }
    ensures fault { IfErr result (OrNoMemory (FaultsRecords bytes.now first)) }
{
    let mut bodies = Vec::new(alloc);
    let mut commons = Vec::new(alloc);
    let mut here = first;
    loop {
        let (body, next) = match next_body(alloc, bytes, here, &mut commons) {
            Ok(read) => read,
            Err(why) => return Err(why.at(here)),
        };
        if let Body::ModuleEnd(end) = body {
            let within = Within {
                bodies,
                end_at: here,
                end,
            };
            return Ok(WithinRead {
                within,
                commons,
                after: next,
            });
        }
        bodies.push(PlacedBody { at: here, body })?;
        here = next;
    }
}

/// The records of the module that begins at a place, the named commons that they declare, and the
/// place after the module; or its first fault, or `Memory`.
pub(crate) fn records_at<'a>(
    alloc: Global,
    bytes: &'a [u8],
    at: usize,
) -> Result<ModuleFileRead<'a>, ModuleFault>
    ensures read { IfOk result (λ r. SpellsModuleRecords bytes.now r.after (records_of r.file)) }
    ensures begins { IfOk result (λ r. r.file.at ≡ at) }
    ensures commons { IfOk result (λ r. r.commons.items ≡ commons_of r.file.within.bodies.items) }
    ensures fault { IfErr result (OrNoMemory (FaultsModule bytes.now at)) }
{
    let (header, first) = match header_at(bytes, at) {
        Ok(read) => read,
        Err(why) => return Err(why.at(at)),
    };
    let WithinRead {
        within,
        commons,
        after,
    } = within_at(alloc, bytes, first)?;
    let file = ModuleFile { at, header, within };
    Ok(ModuleFileRead {
        file,
        commons,
        after,
    })
}
