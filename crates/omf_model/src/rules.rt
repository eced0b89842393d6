//! The rules of a module, tested.

ghost use Rattle.std.specs.Prelude.{◌≡◌, ◌+◌, length, IfOk};
ghost use Rattle.std.specs.List.{list_all};
ghost use Rattle.omf_model.specs.Segments.{has_common_id, has_segment, is_fixed_id, is_used, segment_in};
ghost use Rattle.omf_model.specs.Place.{common_name};
ghost use Rattle.omf_model.specs.Rules.{end_of, is_in_bounds, has_fitting, is_start, keeps_rules_but_for_fixups, keeps_fixup_rules};

use crate::content::Content;
use crate::duplicates::{are_commons, are_entries};
use crate::marks::are_fitting;
use crate::parts::Parts;
use crate::segment::Segment;
use crate::symbols::{Common, Public};
use omf_core::segment_id::{ABSOLUTE, MEMORY, STACK, UNNAMED_COMMON};
use std::alloc::{AllocError, Global};

/// The most bytes that one content record has.
const LONGEST_CONTENT: usize = 65531;

/// Whether a named common in the list has this segment id. It takes no memory.
pub fn has_common_id(commons: &[Common], id: u8) -> bool
    ensures { result ≡ has_common_id commons.now id }
{
    commons.iter().any(|c| c.id == id)
}

/// The name of the named common with this segment id; empty if no common has it.
pub fn common_name(commons: &[Common], id: u8) -> &[u8]
    ensures { result.now ≡ common_name commons.now id }
{
    for common in commons {
        if common.id == id {
            return common.name.bytes();
        }
    }
    &[]
}

/// Whether every module has a segment with this id: 0 absolute, 1 CODE, 2 DATA, 3 STACK, 4 MEMORY,
/// 255 the unnamed common.
pub fn is_fixed_id(id: u8) -> bool
    ensures { result ≡ is_fixed_id id }
{
    id <= MEMORY || id == UNNAMED_COMMON
}

/// Whether a module with these named commons has a segment with this id.
pub fn has_segment(commons: &[Common], id: u8) -> bool
    ensures { result ≡ has_segment commons.now id }
{
    is_fixed_id(id) || has_common_id(commons, id)
}

/// Whether the segment has bytes or is paged.
pub fn is_used(segment: Segment) -> bool
    ensures { result ≡ is_used segment }
{
    0 < segment.length || segment.paged
}

/// The segment that is listed with this id; one of length 0 that isn't paged if none is listed.
pub fn segment_in(entries: &[(u8, Segment)], id: u8) -> Segment
    ensures { result ≡ segment_in entries.now id }
{
    for entry in entries {
        if entry.0 == id {
            return entry.1;
        }
    }
    Segment {
        length: 0,
        paged: false,
    }
}

/// The first offset after the segment with this id: its length, or 65536 for absolute bytes.
pub fn end_of(segments: &[(u8, Segment)], id: u8) -> usize
    ensures { result ≡ end_of segments.now id }
{
    if id == ABSOLUTE {
        65536
    } else {
        segment_in(segments, id).length as usize
    }
}

/// Whether the content is in a segment that the module has, not in STACK, ends within it, and has
/// at most 65531 bytes.
fn is_in_bounds(segments: &[(u8, Segment)], commons: &[Common], content: &Content) -> bool
    ensures { result ≡ is_in_bounds segments.now commons.now content.now }
{
    has_segment(commons, content.segment)
        && content.segment != STACK
        && content.bytes.len() <= LONGEST_CONTENT
        && content.offset as usize + content.bytes.len() <= end_of(segments, content.segment)
}

/// Whether each content is in a segment that the module has, not in STACK, ends within it, and has
/// at most 65531 bytes.
fn are_in_bounds(segments: &[(u8, Segment)], commons: &[Common], contents: &[Content]) -> bool
    ensures { result ≡ list_all (is_in_bounds segments.now commons.now) contents.now }
{
    contents.iter().all(|c| is_in_bounds(segments, commons, c))
}

/// Whether each public is in a segment that the module has.
fn are_publics(commons: &[Common], publics: &[Public]) -> bool
    ensures { result ≡ list_all (λ p. has_segment commons.now p.segment) publics.now }
{
    publics.iter().all(|p| has_segment(commons, p.segment))
}

/// Whether the start, if there is one, is in a segment that the module has.
fn is_start(commons: &[Common], start: Option<(u8, u16)>) -> bool
    ensures { result ≡ is_start commons.now start }
{
    match start {
        None => true,
        Some(place) => has_segment(commons, place.0),
    }
}

/// Whether the parts keep all rules of modules but those of fixups, which aren't checked. It takes
/// no memory.
pub(crate) fn keeps_rules_but_for_fixups(parts: &Parts) -> bool
    ensures { result ≡ keeps_rules_but_for_fixups parts.now }
{
    let commons = parts.commons.as_slice();
    let segments = parts.segments.as_slice();
    are_entries(commons, segments)
        && are_commons(commons)
        && are_publics(commons, &parts.publics)
        && are_in_bounds(segments, commons, &parts.contents)
        && is_start(commons, parts.start)
}

/// Whether the fixups of each content lie inside it, share no byte, and have targets that exist in
/// a module with these commons and this number of externals. `Err` only if memory runs out.
fn have_fitting(
    alloc: Global,
    commons: &[Common],
    externals: usize,
    contents: &[Content],
) -> Result<bool, AllocError>
    ensures { IfOk result (λ kept. kept ≡ list_all (has_fitting commons.now externals) contents.now) }
{
    for content in contents {
        let size = content.bytes.len();
        if !are_fitting(
            alloc,
            commons,
            externals,
            content.offset,
            size,
            &content.fixups,
        )? {
            return Ok(false);
        }
    }
    Ok(true)
}

/// Whether the fixups of each content lie inside it, share no byte, and have existing targets.
/// `Err` only if memory runs out.
pub(crate) fn keeps_fixup_rules(alloc: Global, parts: &Parts) -> Result<bool, AllocError>
    ensures { IfOk result (λ kept. kept ≡ keeps_fixup_rules parts.now) }
{
    have_fitting(
        alloc,
        &parts.commons,
        parts.externals.len(),
        &parts.contents,
    )
}
