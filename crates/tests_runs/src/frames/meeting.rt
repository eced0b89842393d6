//! Frames that meet.

use super::{Parts, frame_of};
use frames80::Word::{Any, Own};
use frames80::{HeightsDiffer, meet};
use std::test::Fail;

/// A frame, another one that it meets, the answer of `meet`, and the first frame then. A word stays
/// the return address only if both frames have it; frames with different counts don't meet.
#[rattlefmt::skip]
static ROWS: [(Parts, Parts, Result<bool, HeightsDiffer>, Parts); 4] = [
    ((1, &[Own, Own, Any], [Own, Any, Own]), (1, &[Own, Any, Own], [Own, Own, Any]), Ok(true), (1, &[Own, Any, Any], [Own, Any, Any])),
    ((1, &[Own, Any, Any], [Own, Any, Any]), (1, &[Own, Any, Own], [Own, Own, Any]), Ok(false), (1, &[Own, Any, Any], [Own, Any, Any])),
    ((1, &[Own, Any, Any], [Own, Any, Any]), (0, &[Any, Any, Any], [Any, Any, Any]), Err(HeightsDiffer), (1, &[Own, Any, Any], [Own, Any, Any])),
    ((1, &[Own, Any, Any], [Own, Any, Any]), (1, &[Any, Any], [Any, Any, Any]), Err(HeightsDiffer), (1, &[Own, Any, Any], [Own, Any, Any])),
];

#[test]
fn frames_meet_as_listed(rt: HostRuntime) -> Result<(), Fail> {
    for (before, other, answer, after) in &ROWS {
        let mut frame = frame_of(rt.alloc(), before)?;
        let other = frame_of(rt.alloc(), other)?;
        let wanted = frame_of(rt.alloc(), after)?;
        assert!(rt; meet(&mut frame, &other) == *answer && frame == wanted);
    }
    Ok(())
}
