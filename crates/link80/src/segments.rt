//! The segments of the linked module: the parts of CODE, DATA and STACK one after another; of MEMORY and of each common the
//! longest part. A segment is paged if one of its parts is.

ghost use Rattle.std.specs.Prelude.{◌≡◌, ◌∷◌, ◌≤◌, [], length, map, IfOk, IsTrue};
ghost use Rattle.std.specs.List.{enumerate_from};
ghost use Rattle.omf_model.specs.Rules.{IsModule};
ghost use Rattle.omf_model.specs.Segments.{is_fixed_id};
ghost use Rattle.link80.specs.Joined.{joined_parts, parts_of_commons, with_named_parts};
ghost use Rattle.link80.specs.Linked.{common_names, linked_commons, linked_ids, linked_segment, numbered_segments};

use crate::commons::JoinedModules;
use crate::starts::segment_of;
use omf_core::segment_id::{CODE, DATA, FIRST_COMMON, MEMORY, STACK, UNNAMED_COMMON};
use omf_model::{Module, Segment};
use std::alloc::{AllocError, Global};

/// A segment of length 0 that isn't paged.
const EMPTY: Segment = Segment {
    length: 0,
    paged: false,
};

/// A segment of which these are two overlaying parts: the longer length, paged if one of them is.
fn joined_parts(one: Segment, other: Segment) -> Segment
    ensures { result ≡ joined_parts one other }
{
    Segment {
        length: one.length.max(other.length),
        paged: one.paged || other.paged,
    }
}

/// The segment of the linked module with this id, which must be that of CODE, DATA, STACK, MEMORY
/// or the unnamed common: paged if a part of it is.
fn fixed_segment(joined: &JoinedModules, id: u8) -> Segment
    requires { IsTrue (is_fixed_id id) }
    ensures { result ≡ linked_segment joined.now id }
{
    let mut segment = EMPTY;
    for number in 0..joined.len() {
        segment = joined_parts(segment, segment_of(joined.get(number), id));
    }
    match joined.end_of(id) {
        Some(length) => Segment {
            length,
            paged: segment.paged,
        },
        None => segment,
    }
}

/// Joins the named commons of a module to the linked segments of the same names; `segments` must
/// have one for each of the commons of all modules, in order of first sight.
fn join_commons(segments: &mut Vec<Segment>, joined: &JoinedModules, source: &Module)
    requires { length segments.old.items ≡ length (common_names joined.now) }
    ensures joined { segments.new.items
        ≡ with_named_parts (common_names joined.now) segments.old.items (parts_of_commons source.now) }
    ensures len { length segments.new.items ≡ length segments.old.items }
    ensures rules { IsModule source.now }
{
    for common in source.commons() {
        if let Some(number) = joined.common_number(common.name.bytes()) {
            segments[number] = joined_parts(segments[number], segment_of(source, common.id));
        }
    }
}

/// The segments of the linked module's named commons, in order of first sight. `Err` only if memory
/// runs out.
fn common_segments(alloc: Global, joined: &JoinedModules) -> Result<Vec<Segment>, AllocError>
    ensures segments { IfOk result (λ segments. enumerate_from 6 segments.items
        ≡ numbered_segments joined.now (map (λ c. c.id) (linked_commons joined.now))) }
    ensures few { IfOk result (λ segments. length segments.items ≤ 249) }
{
    let mut segments = Vec::from_elem(alloc, EMPTY, joined.common_count())?;
    for number in 0..joined.len() {
        join_commons(&mut segments, joined, joined.get(number));
    }
    Ok(segments)
}

/// CODE, DATA, STACK, MEMORY and the unnamed common of the linked module, with their ids. `Err`
/// only if memory runs out.
fn fixed_segments(alloc: Global, joined: &JoinedModules) -> Result<Vec<(u8, Segment)>, AllocError>
    ensures { IfOk result (λ segments. segments.items ≡ numbered_segments joined.now (1 ∷ 2 ∷ 3 ∷ 4 ∷ 255 ∷ [])) }
{
    let mut segments = Vec::new(alloc);
    segments.push((CODE, fixed_segment(joined, CODE)))?;
    segments.push((DATA, fixed_segment(joined, DATA)))?;
    segments.push((STACK, fixed_segment(joined, STACK)))?;
    segments.push((MEMORY, fixed_segment(joined, MEMORY)))?;
    segments.push((UNNAMED_COMMON, fixed_segment(joined, UNNAMED_COMMON)))?;
    Ok(segments)
}

/// The segments of the linked module with their ids: CODE, DATA, STACK, MEMORY and the unnamed
/// common, and then the named commons.
///
/// # Errors
/// `AllocError` only if memory runs out.
pub(crate) fn linked_segments(
    alloc: Global,
    joined: &JoinedModules,
) -> Result<Vec<(u8, Segment)>, AllocError>
    ensures { IfOk result (λ segments. segments.items ≡ numbered_segments joined.now (linked_ids joined.now)) }
{
    let mut segments = fixed_segments(alloc, joined)?;
    let mut id = FIRST_COMMON;
    for segment in &common_segments(alloc, joined)? {
        segments.push((id, *segment))?;
        id += 1;
    }
    Ok(segments)
}
