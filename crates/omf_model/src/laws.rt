//! What holds of all modules that are made, whatever calls are made. The law is ensured by a function that does nothing: a layer
//! above that calls it has the law in its proof.

ghost use Rattle.omf_model.specs.Laws.{SegmentsAreKept, AbsoluteIsEmpty};

/// A module made of parts has their segments, in whatever order they were listed; the absolute
/// segment has length 0.
pub fn segments_are_kept()
    ensures kept { SegmentsAreKept }
    ensures absolute { AbsoluteIsEmpty }
{}
