//! The canonical form in which a module lists its segments.

ghost use Rattle.std.specs.Prelude.{◌≡◌, IfOk};
ghost use Rattle.omf_model.specs.Segments.{entry_for, canonical_segments};

use crate::rules::{has_common_id, is_used, segment_in};
use crate::segment::Segment;
use crate::symbols::Common;
use std::alloc::{AllocError, Global};

/// The entry of the segment with this id, if a canonical module lists it: the id is a named
/// common's, or the segment has bytes or is paged. `None` otherwise.
fn entry_for(entries: &[(u8, Segment)], commons: &[Common], id: u8) -> Option<(u8, Segment)>
    ensures { result ≡ entry_for entries.now commons.now id }
{
    let segment = segment_in(entries, id);
    if has_common_id(commons, id) || is_used(segment) {
        Some((id, segment))
    } else {
        None
    }
}

/// The entries that a canonical module lists, in ascending order of ids from 1: every named common,
/// and of the others those that have bytes or are paged. `Err` only if memory runs out.
pub(crate) fn canonical_segments(
    alloc: Global,
    entries: &[(u8, Segment)],
    commons: &[Common],
) -> Result<Vec<(u8, Segment)>, AllocError>
    ensures { IfOk result (λ listed. listed.items ≡ canonical_segments entries.now commons.now) }
{
    let mut listed = Vec::new(alloc);
    for id in 1..256u16 {
        if let Some(entry) = entry_for(entries, commons, id as u8) {
            listed.push(entry)?;
        }
    }
    Ok(listed)
}
