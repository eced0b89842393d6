//! The caller's frame after a call, and how deep frames are.

use super::{MAIN, Parts, assert_small, frame_of};
use frames80::Role::Entry;
use frames80::Word::{Any, Own};
use frames80::{CallFault, Frame, FrameFault, HeightsDiffer, Role, after, depth};
use std::alloc::Global;
use std::process::Abort;
use std::test::Fail;

/// Roles of callers, their frames before a call, how many words the callee wants and takes, and the
/// callers' frames after it.
#[rattlefmt::skip]
static CALLS: [(Role, Parts, u32, u32, Parts); 2] = [
    (Entry, (3, &[Own, Own, Any], [Own, Own, Own]), 2, 1, (3, &[Own, Own], [Any, Any, Any])),
    (MAIN, (0, &[Any], [Any, Any, Any]), 1, 1, (0, &[], [Any, Any, Any])),
];

#[test]
fn a_callee_takes_words_of_its_caller(rt: HostRuntime) -> Result<(), Fail> {
    for (role, before, wants, takes, back) in &CALLS {
        let wanted = frame_of(rt.alloc(), back)?;
        let came = frame_after_call(&rt, rt.alloc(), *role, before, *wants, *takes)??;
        assert!(rt; came == wanted);
    }
    Ok(())
}

/// The caller's frame after a call of a procedure that wants and takes these numbers of words.
fn frame_after_call(
    rt: &impl Abort,
    alloc: Global,
    role: Role,
    parts: &Parts,
    wants: u32,
    takes: u32,
) -> Result<Result<Frame, CallFault>, Fail> {
    let frame = frame_of(alloc, parts)?;
    assert_small(rt, &frame);
    assert!(rt; takes <= wants);
    Ok(after(alloc, &frame, role, wants, takes))
}

/// Callers without the one word that a callee wants: the main program has none, a procedure none
/// above its bottom word, whatever that is.
#[rattlefmt::skip]
static SHORT: [(Role, Parts); 3] = [
    (MAIN, (0, &[], [Any, Any, Any])),
    (Entry, (0, &[], [Any, Any, Any])),
    (Entry, (0, &[Any], [Any, Any, Any])),
];

#[test]
fn a_caller_short_of_words_is_refused(rt: HostRuntime) -> Result<(), Fail> {
    for (role, parts) in &SHORT {
        let came = frame_after_call(&rt, rt.alloc(), *role, parts, 1, 0)?;
        assert!(rt; came.err() == Some(CallFault::ShortArguments));
    }
    Ok(())
}

#[test]
fn faults_have_their_numbers(rt: HostRuntime) {
    let codes = [
        FrameFault::Memory.code(),
        CallFault::ShortArguments.code(),
        CallFault::Memory.code(),
        HeightsDiffer.code(),
    ];
    assert!(rt; codes == [18, 14, 18, 12]);
}

/// Roles and frames, and the depth of each in bytes.
#[rattlefmt::skip]
static DEPTHS: [(Role, Parts, i64); 6] = [
    (MAIN, (0, &[], [Any, Any, Any]), 0),
    (MAIN, (0, &[Any], [Any, Any, Any]), 2),
    (Entry, (0, &[Own], [Any, Any, Any]), 0),
    (Entry, (0, &[], [Any, Own, Any]), -2),
    (Entry, (1, &[], [Any, Own, Any]), -4),
    (Entry, (1, &[Own], [Any, Own, Any]), -2),
];

#[test]
fn frames_have_their_depths(rt: HostRuntime) -> Result<(), Fail> {
    for (role, parts, wanted) in &DEPTHS {
        let frame = frame_of(rt.alloc(), parts)?;
        assert_small(&rt, &frame);
        assert!(rt; depth(&frame, *role) == *wanted);
    }
    Ok(())
}
