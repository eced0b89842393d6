//! Frames as keys of a set.

use super::{Parts, frame_of};
use frames80::Frame;
use frames80::Word::{Any, Own};
use std::collections::HashSet;
use std::test::Fail;

/// Frames, and whether each differs from those in the rows above it.
#[rattlefmt::skip]
static ROWS: [(Parts, bool); 8] = [
    ((1, &[Own, Any], [Any, Own, Any]), true),
    ((1, &[Own, Any], [Any, Own, Any]), false),
    ((2, &[Own, Any], [Any, Own, Any]), true),
    ((1, &[Any, Own], [Any, Own, Any]), true),
    ((1, &[Own], [Any, Own, Any]), true),
    ((1, &[Own, Any], [Own, Own, Any]), true),
    ((1, &[Own, Any], [Any, Any, Any]), true),
    ((1, &[Own, Any], [Any, Own, Own]), true),
];

/// A copy is the same key; frames that differ in one field are different keys.
#[test]
fn equal_frames_are_one_key(rt: HostRuntime) -> Result<(), Fail> {
    let mut set: HashSet<Frame> = HashSet::new(rt.alloc());
    for (parts, new) in &ROWS {
        let frame = frame_of(rt.alloc(), parts)?;
        let same = frame.copy(rt.alloc())?;
        assert_eq!(rt; set.insert(frame)?, *new);
        assert!(rt; set.contains(&same));
    }
    Ok(())
}
