//! Nothing is listed twice.

ghost use Rattle.std.specs.Prelude.{◌≡◌, ◌==◌, []};
ghost use Rattle.std.specs.List.{list_any};
ghost use Rattle.omf_model.specs.Segments.{has_segment};
ghost use Rattle.omf_model.specs.Rules.{each_after, has_common_name, is_new_entry, is_new_common};

use crate::rules::{has_common_id, has_segment};
use crate::segment::Segment;
use crate::symbols::Common;
use omf_core::segment_id::{FIRST_COMMON, LAST_COMMON};

/// Whether an entry has this segment id.
fn lists_id(entries: &[(u8, Segment)], id: u8) -> bool
    ensures { result ≡ list_any (λ d. d.0 == id) entries.now }
{
    entries.iter().any(|d| d.0 == id)
}

/// Whether a named common in the list has this name. It takes no memory.
pub fn has_common_name(commons: &[Common], name: &[u8]) -> bool
    ensures { result ≡ has_common_name commons.now name.now }
{
    commons.iter().any(|common| common.name.bytes() == name)
}

/// Whether a module with these commons has the segment of each entry, and no two entries have one
/// id.
pub(crate) fn are_entries(commons: &[Common], entries: &[(u8, Segment)]) -> bool
    ensures { result ≡ each_after (is_new_entry commons.now) [] entries.now }
{
    for (place, entry) in entries.iter().enumerate() {
        if !has_segment(commons, entry.0) || lists_id(&entries[..place], entry.0) {
            return false;
        }
    }
    true
}

/// Whether the common's id is from 6 to 254, and no common in `before` has its id or its name.
fn is_new_common(before: &[Common], common: &Common) -> bool
    ensures { result ≡ is_new_common before.now common.now }
{
    (FIRST_COMMON <= common.id && common.id <= LAST_COMMON)
        && !has_common_id(before, common.id)
        && !has_common_name(before, common.name.bytes())
}

/// Whether the ids of the commons are from 6 to 254, and no two have one id or one name.
pub(crate) fn are_commons(commons: &[Common]) -> bool
    ensures { result ≡ each_after is_new_common [] commons.now }
{
    for (place, common) in commons.iter().enumerate() {
        if !is_new_common(&commons[..place], common) {
            return false;
        }
    }
    true
}
