//! What the records of a module use, checked once all of them are read.

ghost use Rattle.std.specs.Prelude.{◌≡◌, ◌≢◌, ◌++◌, List, [], ◌∷◌, None, Some, option_map, IfOk, IfErr, OnOk, map};
ghost use Rattle.std.specs.Option.{option_or, option_to_list};
ghost use Rattle.std.specs.Result.{result_err};
ghost use Rattle.omf_model.specs.Contents.{ContentValue};
ghost use Rattle.omf_module.specs.Gathered.{contents_from, fixups_in, with_fixups};
ghost use Rattle.omf_module.specs.Uses.{unknown_id, ids_in, place_fault, reference_fault, body_fault, bodies_fault};
ghost use Rattle.omf_module.specs.Reading.{with_contents, TakesBody, OrNoMemory};

use crate::fault::{Cause, ModuleFault};
use crate::module_file::PlacedBody;
use crate::open_content::OpenContent;
use omf_body::{Body, HeaderBody, Place};
use omf_core::segment_id::STACK;
use omf_model::{Content, Parts, end_of, has_segment};
use std::alloc::{AllocError, Global};

/// Checks that the module has a segment with this id; `SegmentUnknown` if not.
fn check_id(parts: &Parts, id: u8) -> Result<(), Cause>
    ensures { (cs : List ContentValue) → result_err result ≡ unknown_id (with_contents parts.now cs) (id ∷ []) }
{
    if has_segment(&parts.commons, id) {
        Ok(())
    } else {
        Err(Cause::SegmentUnknown(id))
    }
}

/// Checks that the module has the segments that its header lists; `SegmentUnknown` for the first
/// that it hasn't.
pub(crate) fn check_header(parts: &Parts, header: &HeaderBody) -> Result<(), Cause>
    ensures { (cs : List ContentValue)
        → result_err result ≡ unknown_id (with_contents parts.now cs) (map (λ e. e.id) header.now.segments) }
{
    let mut rest = header.segments.copy();
    while let Some(entry) = rest.next() {
        check_id(parts, entry.id)?;
    }
    Ok(())
}

/// Checks that the module has the segment where it starts, if it is a main program;
/// `SegmentUnknown` if not.
pub(crate) fn check_start(parts: &Parts, start: Option<Place>) -> Result<(), Cause>
    ensures { (cs : List ContentValue)
        → result_err result ≡ unknown_id (with_contents parts.now cs) (option_to_list (option_map (λ p. p.segment) start)) }
{
    match start {
        Some(place) => check_id(parts, place.segment),
        None => Ok(()),
    }
}

/// Checks that the module has the segment that a record names, if it names one; `SegmentUnknown` if
/// not.
fn check_ids(parts: &Parts, body: &Body) -> Result<(), Cause>
    ensures { (cs : List ContentValue) → result_err result ≡ unknown_id (with_contents parts.now cs) (ids_in body.now) }
{
    match body {
        Body::Content(b) => check_id(parts, b.segment),
        Body::PublicDeclarations(b) => check_id(parts, b.segment),
        Body::IntersegmentReferences(b) => check_id(parts, b.segment),
        _ => Ok(()),
    }
}

/// Checks that content isn't in STACK (`SegmentUnknown`), and ends within its segment
/// (`OffsetOutside`). Other records pass.
fn check_place(parts: &Parts, body: &Body) -> Result<(), Cause>
    ensures { (cs : List ContentValue) → result_err result ≡ place_fault (with_contents parts.now cs) body.now }
{
    let Body::Content(b) = body else {
        return Ok(());
    };
    if b.segment == STACK {
        return Err(Cause::SegmentUnknown(STACK));
    }
    if end_of(&parts.segments, b.segment) < b.offset as usize + b.bytes.bytes.len() {
        return Err(Cause::OffsetOutside);
    }
    Ok(())
}

/// Checks that the module has the segment that a record names, and that content ends within its
/// segment; `SegmentUnknown` or `OffsetOutside` if not.
fn look_at(parts: &Parts, body: &Body) -> Result<(), Cause>
    ensures { (cs : List ContentValue)
        → result_err result ≡ option_or (unknown_id (with_contents parts.now cs) (ids_in body.now))
        (place_fault (with_contents parts.now cs) body.now) }
{
    check_ids(parts, body)?;
    check_place(parts, body)
}

/// Adds the fixups of a record to `nearest`, the content before it, and returns that. The fault is
/// `FixupBeforeContent` if it is a fixup record and there is no content, a fault of a fixup, or
/// `Memory`.
fn take_fixups<'a>(
    alloc: Global,
    parts: &Parts,
    body: &Body,
    nearest: Option<OpenContent<'a>>,
) -> Result<Option<OpenContent<'a>>, Cause>
    ensures taken { IfOk result (λ after. after ≡ option_map (λ c. with_fixups c (fixups_in c.segment body.now)) nearest.entry) }
    ensures sound { OnOk result ((cs : List ContentValue)
        → reference_fault (with_contents parts.now cs) nearest.entry body.now ≡ None) }
    ensures fault { IfErr result (λ why. why ≢ Cause.Memory → (cs : List ContentValue)
        → reference_fault (with_contents parts.now cs) nearest.entry body.now ≡ Some why) }
{
    let Some(mut open) = nearest else {
        return match body {
            Body::ExternalReferences(_) => Err(Cause::FixupBeforeContent),
            Body::Relocation(_) => Err(Cause::FixupBeforeContent),
            Body::IntersegmentReferences(_) => Err(Cause::FixupBeforeContent),
            _ => Ok(None),
        };
    };
    open.take_fixups_of(alloc, parts, body)?;
    Ok(Some(open))
}

/// Appends the content `nearest`, which gets no more fixups, to `whole`; nothing if it is `None`.
/// `Err` only if memory runs out.
fn close(
    alloc: Global,
    nearest: Option<OpenContent>,
    whole: &mut Vec<Content>,
) -> Result<(), AllocError>
    ensures { OnOk result (whole.new.items ≡ whole.old.items ++ option_to_list nearest.entry) }
{
    if let Some(open) = nearest {
        whole.push(open.close(alloc)?)?;
    }
    Ok(())
}

/// Checks a record and takes its content or its fixups: a new content closes `nearest`, the content
/// before it, into `whole`. Returns the content that may get fixups next. The fault is the first in
/// what the record uses, or `Memory`.
fn take_body<'a>(
    alloc: Global,
    parts: &Parts,
    body: &Body<'a>,
    nearest: Option<OpenContent<'a>>,
    whole: &mut Vec<Content>,
) -> Result<Option<OpenContent<'a>>, Cause>
    ensures taken { IfOk result (λ after. TakesBody parts.now nearest.entry body.now whole.old.items whole.new.items after) }
    ensures fault { IfErr result (λ why. why ≢ Cause.Memory → (cs : List ContentValue)
        → body_fault (with_contents parts.now cs) nearest.entry body.now ≡ Some why) }
{
    look_at(parts, body)?;
    let Body::Content(b) = body else {
        return take_fixups(alloc, parts, body, nearest);
    };
    close(alloc, nearest, whole)?;
    Ok(Some(OpenContent::new(alloc, b.segment, b.offset, b.bytes.bytes)?))
}

/// The contents of a module, each with the fixups of the records up to the next one; or the first
/// fault in what the records use, at the place of its record, or `Memory`.
pub(crate) fn contents_of(
    alloc: Global,
    parts: &Parts,
    bodies: &[PlacedBody],
) -> Result<Vec<Content>, ModuleFault>
    ensures contents { IfOk result (λ contents. contents.items ≡ contents_from None bodies.now) }
    ensures sound { OnOk result ((cs : List ContentValue) → bodies_fault (with_contents parts.now cs) None bodies.now ≡ None) }
    ensures fault { IfErr result (OrNoMemory (λ fault. (cs : List ContentValue)
        → bodies_fault (with_contents parts.now cs) None bodies.now ≡ Some fault)) }
{
    let mut whole = Vec::new(alloc);
    let mut nearest = None;
    for placed in bodies {
        match take_body(alloc, parts, &placed.body, nearest, &mut whole) {
            Ok(after) => nearest = after,
            Err(why) => return Err(why.at(placed.at)),
        }
    }
    close(alloc, nearest, &mut whole)?;
    Ok(whole)
}
