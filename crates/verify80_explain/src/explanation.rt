//! What shows a refusal.

use verify80_walks::{Call, Route};

/// What shows a refusal.
#[derive(Drop)]
pub enum Explanation {
    /// A way whose last point is at the fault.
    Way(Route),
    /// Two ways. For `HeightsDiffer` their last points are at one address of one procedure, with
    /// different numbers of words, or of words taken; for `UnevenArguments` they return with
    /// different numbers of words taken; for `ShortArguments` the first is the caller's at the
    /// call, and the second its callee's where it has taken more words than the caller has.
    Ways(Route, Route),
    /// The calls that lead to a procedure, and the calls by which that procedure calls itself; the
    /// first of these is the call that the refusal names.
    Ring {
        /// The calls from the main program to the procedure.
        calls: Vec<Call>,
        /// The calls from the procedure back to itself.
        ring: Vec<Call>,
    },
}
