//! The laws of layouts, of located regions and of the lines of faults, over the definitions alone.

ghost use Rattle.place80.specs.LayoutLaws.{LayoutIsLaidOut, LaidOutInOneWay, SegmentsArePlaced, PlacesAreBySegments, OverlapIsASharedAddress, NoFaultWhereSegmentsFit};
ghost use Rattle.place80.specs.CauseLaws.{OutsideIsShown, OverlapIsShown};
ghost use Rattle.place80.specs.LocatedLaws.{LocatedRegionsHoldSegments};

use omf_model::relocation_laws::{
    commons_are_found_by_name, parts_of_one_start_at_zero, sound_modules_keep_rules,
};

/// A law: the layout of a program is the only list of its segments in which each has its length and stands at the
/// base that is given for it or follows the one before it.
pub fn segments_are_laid_out_in_one_way()
    ensures laid_out { LayoutIsLaidOut }
    ensures one_way { LaidOutInOneWay }
{}

/// A law: each segment that a program has is in its layout, but the absolute one; and offsets have the same addresses
/// by the bases that the layout gives as by its segments.
pub fn segments_are_placed()
    ensures placed { SegmentsArePlaced }
    ensures places { PlacesAreBySegments }
{
    sound_modules_keep_rules();
    commons_are_found_by_name();
    parts_of_one_start_at_zero();
}

/// A law: two placed segments overlap exactly if an address lies in both.
pub fn segments_overlap_at_an_address()
    ensures { OverlapIsASharedAddress }
{}

/// A law: a layout has no fault exactly if its segments fit: each ends with memory or before it, MEMORY holds its
/// content, and no address lies in two of them, or in one and in an absolute content.
pub fn no_fault_where_segments_fit()
    ensures { NoFaultWhereSegmentsFit }
{}

/// A law: the regions of a located program hold the addresses of its segments: code those of CODE, data those of
/// DATA, MEMORY and all commons, and the stack those of STACK; and the stack's top is the one that fixups to STACK
/// are relocated by.
pub fn located_regions_hold_the_segments()
    ensures { LocatedRegionsHoldSegments }
{}

/// A law: if `OutsideMemory` is reported, the line shows a segment with the reported id that is outside memory.
pub fn outside_is_shown()
    ensures { OutsideIsShown }
{}

/// A law: if `Overlap` is reported, the lines show two segments, absolute contents or restarts with the reported ids
/// that share an address.
pub fn overlap_is_shown()
    ensures { OverlapIsShown }
{}
