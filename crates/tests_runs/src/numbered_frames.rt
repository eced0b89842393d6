//! Frames by number: however a frame is made, it has one number.

use frames80::{Change, Role};
use frames80_interned::Frames;
use std::alloc::Global;
use std::test::Fail;

/// Whether the frame of a procedure's entry has one number, and so has the one after PUSH PSW,
/// however often they come about.
fn number_once(frames: &mut Frames) -> Result<bool, Fail> {
    let entry = frames.entry()?;
    if frames.taken(entry) != 0 {
        return Ok(false);
    }
    let pushed = frames.change(entry, Change::PushAny)?;
    if pushed == entry || frames.taken(pushed) != 0 {
        return Ok(false);
    }
    let dropped = frames.change(pushed, Change::Drop)?;
    if dropped != entry || frames.taken(dropped) != 0 {
        return Ok(false);
    }
    let again = frames.change(dropped, Change::PushAny)?;
    Ok(again == pushed && frames.after(again, Role::Entry, 1)? == entry)
}

/// Whether a new table numbers each frame once.
fn has_one_number_each(alloc: Global) -> Result<bool, Fail> {
    number_once(&mut Frames::new(alloc))
}

#[test]
fn each_frame_has_one_number(rt: HostRuntime) -> Result<(), Fail> {
    assert!(rt; has_one_number_each(rt.alloc())?);
    Ok(())
}
