//! What the records of a module say, gathered from all of them in order.

ghost use Rattle.std.specs.Prelude.{◌≡◌, ◌++◌, IfOk, OnOk, map};
ghost use Rattle.std.specs.List.{flat_map};
ghost use Rattle.omf_model.specs.declared.fixup.Target.TheVariants as target;
ghost use Rattle.omf_module.specs.Gathered.{segments_in, publics_in, externals_in, fixups_in};

use crate::commons::keep_name;
use crate::module_file::PlacedBody;
use omf_body::{Body, ExternalReferencesBody, Field, HeaderBody, OffsetEntry, Row};
use omf_core::Name;
use omf_model::{Fixup, Public, Segment, Target};
use std::alloc::{AllocError, Global};

/// The segments that a header lists, with their ids, in its order. `Err` only if memory runs out.
pub(crate) fn segments_in(
    alloc: Global,
    header: &HeaderBody,
) -> Result<Vec<(u8, Segment)>, AllocError>
    ensures { IfOk result (λ segments. segments.items ≡ segments_in header.now) }
{
    let mut segments = Vec::new(alloc);
    let mut rest = header.segments.copy();
    while let Some(entry) = rest.next() {
        let segment = Segment {
            length: entry.length,
            paged: entry.is_paged(),
        };
        segments.push((entry.id, segment))?;
    }
    Ok(segments)
}

/// Appends the publics of a record to `publics`; none if it isn't a public declarations record.
/// `Err` only if memory runs out.
fn take_publics(alloc: Global, body: &Body, publics: &mut Vec<Public>) -> Result<(), AllocError>
    ensures { OnOk result (publics.new.items ≡ publics.old.items ++ publics_in body.now) }
{
    let Body::PublicDeclarations(declared) = body else {
        return Ok(());
    };
    let mut rest = declared.publics.copy();
    while let Some(entry) = rest.next() {
        publics.push(Public {
            name: keep_name(alloc, &entry.name)?,
            segment: declared.segment,
            offset: entry.offset,
        })?;
    }
    Ok(())
}

/// The publics that all the records declare, in order. `Err` only if memory runs out.
pub(crate) fn publics_of(alloc: Global, bodies: &[PlacedBody]) -> Result<Vec<Public>, AllocError>
    ensures { IfOk result (λ publics. publics.items ≡ flat_map (λ p. publics_in p.body) bodies.now) }
{
    let mut publics = Vec::new(alloc);
    for placed in bodies {
        take_publics(alloc, &placed.body, &mut publics)?;
    }
    Ok(publics)
}

/// Appends the externals of a record to `externals`; none if it isn't an external names record.
/// `Err` only if memory runs out.
fn take_externals(alloc: Global, body: &Body, externals: &mut Vec<Name>) -> Result<(), AllocError>
    ensures { OnOk result (externals.new.items ≡ externals.old.items ++ externals_in body.now) }
{
    let Body::ExternalNames(entries) = body else {
        return Ok(());
    };
    let mut rest = entries.copy();
    while let Some(entry) = rest.next() {
        externals.push(keep_name(alloc, &entry.name)?)?;
    }
    Ok(())
}

/// The externals that all the records name, in order. `Err` only if memory runs out.
pub(crate) fn externals_of(alloc: Global, bodies: &[PlacedBody]) -> Result<Vec<Name>, AllocError>
    ensures { IfOk result (λ externals. externals.items ≡ flat_map (λ p. externals_in p.body) bodies.now) }
{
    let mut externals = Vec::new(alloc);
    for placed in bodies {
        take_externals(alloc, &placed.body, &mut externals)?;
    }
    Ok(externals)
}

/// A fixup for each offset, with this field and target. `Err` only if memory runs out.
fn by_offset(
    alloc: Global,
    field: Field,
    target: Target,
    entries: Row<OffsetEntry>,
) -> Result<Vec<Fixup>, AllocError>
    ensures { IfOk result (λ fixups. fixups.items
        ≡ map (λ r. record { offset = r.offset; field = field; target = target }) entries.entry) }
{
    let mut fixups = Vec::new(alloc);
    let mut rest = entries;
    while let Some(entry) = rest.next() {
        let offset = entry.offset;
        fixups.push(Fixup {
            offset,
            field,
            target,
        })?;
    }
    Ok(fixups)
}

/// A fixup for each entry of an external references record, with the record's field and the entry's
/// external as its target. `Err` only if memory runs out.
fn by_index(alloc: Global, body: &ExternalReferencesBody) -> Result<Vec<Fixup>, AllocError>
    ensures { IfOk result (λ fixups. fixups.items
        ≡ map (λ r. record { offset = r.offset; field = body.now.field; target = target.External r.index }) body.now.references) }
{
    let mut fixups = Vec::new(alloc);
    let mut rest = body.references.copy();
    while let Some(entry) = rest.next() {
        fixups.push(Fixup {
            offset: entry.offset,
            field: body.field,
            target: Target::External(entry.index),
        })?;
    }
    Ok(fixups)
}

/// The fixups that a record gives for a content of the segment with id `own`; none if it isn't a
/// fixup record. `Err` only if memory runs out.
pub(crate) fn fixups_in(alloc: Global, own: u8, body: &Body) -> Result<Vec<Fixup>, AllocError>
    ensures { IfOk result (λ fixups. fixups.items ≡ fixups_in own body.now) }
{
    match body {
        Body::ExternalReferences(b) => by_index(alloc, b),
        Body::Relocation(b) => by_offset(alloc, b.field, Target::Segment(own), b.references.copy()),
        Body::IntersegmentReferences(b) => by_offset(
            alloc,
            b.field,
            Target::Segment(b.segment),
            b.references.copy(),
        ),
        _ => Ok(Vec::new(alloc)),
    }
}
