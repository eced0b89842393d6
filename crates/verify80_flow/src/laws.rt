//! The laws of frames, in one place.

ghost use Rattle.verify80_flow.specs.Shown.{FrameLaws};

use frames80::{counts_decide, covered_goes_along, places_move};

/// The laws of frames that proofs use, as one contract; the call does nothing.
#[inline]
pub(crate) fn frame_laws()
    ensures { FrameLaws }
{
    places_move();
    counts_decide();
    covered_goes_along();
}
