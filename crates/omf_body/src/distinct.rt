//! No id is listed twice in a header.

ghost use Rattle.std.specs.Prelude.{◌≡◌, ◌==◌};
ghost use Rattle.std.specs.List.{list_any};
ghost use Rattle.omf_body.specs.Bodies.{are_distinct};

use crate::entries::SegmentEntry;
use crate::row::Row;

/// Whether a segment that is left in `segments` has this id.
fn lists_id(segments: Row<SegmentEntry>, id: u8) -> bool
    ensures { result ≡ list_any (λ d. d.id == id) segments.entry }
{
    let mut rest = segments;
    while let Some(segment) = rest.next() {
        if segment.id == id {
            return true;
        }
    }
    false
}

/// Whether no two segments have the same id. At most 256 segments are compared with those after
/// them, since there are 256 ids.
pub(crate) fn are_distinct(segments: Row<SegmentEntry>) -> bool
    ensures { result ≡ are_distinct segments.entry }
{
    let mut rest = segments;
    while let Some(segment) = rest.next() {
        if lists_id(rest.copy(), segment.id) {
            return false;
        }
    }
    true
}
