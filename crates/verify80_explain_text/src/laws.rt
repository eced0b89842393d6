//! What the runs of a way are, as a contract.

ghost use Rattle.verify80_explain_text.specs.Laws.{RunsAreTheWay};

/// A law of ways as they are printed: the runs of a way are all of its points, in order. The points
/// of a run have one frame, and the first point after a run has another frame.
pub fn ways_are_shown_in_runs()
    ensures { RunsAreTheWay }
{}
