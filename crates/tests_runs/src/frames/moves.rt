//! What becomes of a frame at an instruction: each effect on a frame, each kind of move, and each refusal on the least
//! program that has it.

use super::{MAIN, Parts, frame_of, moves_after};
use frames80::Role::Entry;
use frames80::Word::{Any, Own};
use frames80::{Frame, FrameFault, Moves, Role};
use std::test::Fail;

/// Roles, instructions, the frame before each, the kind of its moves, the address or the number of
/// words or of the refusal, and the frame after it; if there is none, the frame before it again.
#[rattlefmt::skip]
static ROWS: [(Role, [u8; 3], Parts, &str, u32, Parts); 54] = [
    // PUSH and POP of BC, DE and HL carry the return address; PSW doesn't.
    (Entry, [0xC5, 0x00, 0x00], (0, &[], [Own, Any, Any]), "on", 0, (0, &[Own], [Own, Any, Any])),
    (Entry, [0xD5, 0x00, 0x00], (0, &[], [Any, Own, Any]), "on", 0, (0, &[Own], [Any, Own, Any])),
    (Entry, [0xE5, 0x00, 0x00], (0, &[], [Any, Any, Own]), "on", 0, (0, &[Own], [Any, Any, Own])),
    (Entry, [0xC1, 0x00, 0x00], (0, &[Own], [Any, Any, Any]), "on", 0, (0, &[], [Own, Any, Any])),
    (Entry, [0xD1, 0x00, 0x00], (0, &[Own], [Any, Any, Any]), "on", 0, (0, &[], [Any, Own, Any])),
    (Entry, [0xE1, 0x00, 0x00], (0, &[Own], [Any, Any, Any]), "on", 0, (0, &[], [Any, Any, Own])),
    (Entry, [0xF5, 0x00, 0x00], (0, &[Own], [Own, Own, Own]), "on", 0, (0, &[Own, Any], [Own, Own, Own])),
    (Entry, [0xF1, 0x00, 0x00], (0, &[Own], [Own, Own, Own]), "on", 0, (0, &[], [Own, Own, Own])),
    // POP B of no words takes one from beneath.
    (Entry, [0xC1, 0x00, 0x00], (1, &[], [Own, Any, Any]), "on", 0, (2, &[], [Any, Any, Any])),
    // XTHL exchanges HL with the top; with no words it takes one from beneath. XCHG exchanges DE and HL.
    (Entry, [0xE3, 0x00, 0x00], (0, &[Own], [Any, Own, Any]), "on", 0, (0, &[Any], [Any, Own, Own])),
    (Entry, [0xE3, 0x00, 0x00], (0, &[], [Any, Any, Own]), "on", 0, (1, &[Own], [Any, Any, Any])),
    (Entry, [0xEB, 0x00, 0x00], (0, &[Own], [Any, Own, Any]), "on", 0, (0, &[Own], [Any, Any, Own])),
    // MOV D,D forgets DE; LXI SP,3200 leaves the main program no words.
    (Entry, [0x52, 0x00, 0x00], (0, &[Own], [Own, Own, Own]), "on", 0, (0, &[Own], [Own, Any, Own])),
    (MAIN, [0x31, 0x00, 0x32], (0, &[Any, Any], [Any, Any, Any]), "on", 0, (0, &[], [Any, Any, Any])),
    // A procedure that takes one word: POP D, POP B, PUSH D, MOV A,C, OUT 01.
    (Entry, [0xD1, 0x00, 0x00], (0, &[Own], [Any, Any, Any]), "on", 0, (0, &[], [Any, Own, Any])),
    (Entry, [0xC1, 0x00, 0x00], (0, &[], [Any, Own, Any]), "on", 0, (1, &[], [Any, Own, Any])),
    (Entry, [0xD5, 0x00, 0x00], (1, &[], [Any, Own, Any]), "on", 0, (1, &[Own], [Any, Own, Any])),
    (Entry, [0x79, 0x00, 0x00], (1, &[Own], [Any, Own, Any]), "on", 0, (1, &[Own], [Any, Own, Any])),
    (Entry, [0xD3, 0x01, 0x00], (1, &[Own], [Any, Own, Any]), "on", 0, (1, &[Own], [Any, Own, Any])),
    // One that takes two on one of its ways: after POP D and POP B, POP B and PUSH D.
    (Entry, [0xC1, 0x00, 0x00], (1, &[], [Any, Own, Any]), "on", 0, (2, &[], [Any, Own, Any])),
    (Entry, [0xD5, 0x00, 0x00], (2, &[], [Any, Own, Any]), "on", 0, (2, &[Own], [Any, Own, Any])),
    // The caller of the first: LXI SP,3200, LXI H,0005, PUSH H.
    (MAIN, [0x31, 0x00, 0x32], (0, &[], [Any, Any, Any]), "on", 0, (0, &[], [Any, Any, Any])),
    (MAIN, [0x21, 0x05, 0x00], (0, &[], [Any, Any, Any]), "on", 0, (0, &[], [Any, Any, Any])),
    (MAIN, [0xE5, 0x00, 0x00], (0, &[], [Any, Any, Any]), "on", 0, (0, &[Any], [Any, Any, Any])),
    // JMP, JZ, CALL and CZ of 3210, RST 7, RET, RZ, HLT and NOP, in a procedure that has taken two words; RET if one was
    // taken.
    (Entry, [0xC3, 0x10, 0x32], (2, &[Own], [Any, Any, Any]), "jump", 0x3210, (2, &[Own], [Any, Any, Any])),
    (Entry, [0xCA, 0x10, 0x32], (2, &[Own], [Any, Any, Any]), "either", 0x3210, (2, &[Own], [Any, Any, Any])),
    (Entry, [0xCD, 0x10, 0x32], (2, &[Own], [Any, Any, Any]), "call", 0x3210, (2, &[Own], [Any, Any, Any])),
    (Entry, [0xCC, 0x10, 0x32], (2, &[Own], [Any, Any, Any]), "maybe call", 0x3210, (2, &[Own], [Any, Any, Any])),
    (Entry, [0xFF, 0x10, 0x32], (2, &[Own], [Any, Any, Any]), "call", 0x0038, (2, &[Own], [Any, Any, Any])),
    (Entry, [0xC9, 0x10, 0x32], (2, &[Own], [Any, Any, Any]), "return", 2, (2, &[Own], [Any, Any, Any])),
    (Entry, [0xC8, 0x10, 0x32], (2, &[Own], [Any, Any, Any]), "maybe return", 2, (2, &[Own], [Any, Any, Any])),
    (Entry, [0x76, 0x10, 0x32], (2, &[Own], [Any, Any, Any]), "end", 0, (2, &[Own], [Any, Any, Any])),
    (Entry, [0x00, 0x10, 0x32], (2, &[Own], [Any, Any, Any]), "on", 0, (2, &[Own], [Any, Any, Any])),
    (Entry, [0xC9, 0x10, 0x32], (1, &[Own], [Any, Any, Any]), "return", 1, (1, &[Own], [Any, Any, Any])),
    // PCHL keeps the frame, also if HL has the return address.
    (Entry, [0xE9, 0x10, 0x32], (2, &[Own], [Own, Any, Own]), "case", 0, (2, &[Own], [Own, Any, Own])),
    (MAIN, [0xE9, 0x00, 0x31], (0, &[Any], [Any, Any, Any]), "case", 0, (0, &[Any], [Any, Any, Any])),
    // SPHL, INX SP, DCX SP, LXI SP,3100, pops of no words and returns in the main program.
    (MAIN, [0xF9, 0x00, 0x31], (0, &[], [Any, Any, Any]), "refused", 4, (0, &[], [Any, Any, Any])),
    (MAIN, [0x33, 0x00, 0x31], (0, &[], [Any, Any, Any]), "refused", 6, (0, &[], [Any, Any, Any])),
    (MAIN, [0x3B, 0x00, 0x31], (0, &[], [Any, Any, Any]), "refused", 6, (0, &[], [Any, Any, Any])),
    (MAIN, [0x31, 0x00, 0x31], (0, &[], [Any, Any, Any]), "refused", 7, (0, &[], [Any, Any, Any])),
    (MAIN, [0xC1, 0x00, 0x31], (0, &[], [Any, Any, Any]), "refused", 9, (0, &[], [Any, Any, Any])),
    (MAIN, [0xF1, 0x00, 0x31], (0, &[], [Any, Any, Any]), "refused", 9, (0, &[], [Any, Any, Any])),
    (MAIN, [0xE3, 0x00, 0x31], (0, &[], [Any, Any, Any]), "refused", 9, (0, &[], [Any, Any, Any])),
    (MAIN, [0xC9, 0x00, 0x31], (0, &[], [Any, Any, Any]), "refused", 11, (0, &[], [Any, Any, Any])),
    (MAIN, [0xC8, 0x00, 0x31], (0, &[], [Any, Any, Any]), "refused", 11, (0, &[], [Any, Any, Any])),
    // A procedure sets no stack, also with the top of the main program's.
    (Entry, [0x31, 0x00, 0x31], (0, &[Own], [Any, Any, Any]), "refused", 7, (0, &[Own], [Any, Any, Any])),
    // Words that are not the return address alone: none, one that may be any, the address under another word. RET and RZ.
    (Entry, [0xC9, 0x00, 0x31], (1, &[], [Any, Own, Any]), "refused", 10, (1, &[], [Any, Own, Any])),
    (Entry, [0xC8, 0x00, 0x31], (1, &[], [Any, Own, Any]), "refused", 10, (1, &[], [Any, Own, Any])),
    (Entry, [0xC9, 0x00, 0x31], (1, &[Any], [Any, Own, Any]), "refused", 10, (1, &[Any], [Any, Own, Any])),
    (Entry, [0xC8, 0x00, 0x31], (1, &[Any], [Any, Own, Any]), "refused", 10, (1, &[Any], [Any, Own, Any])),
    (Entry, [0xC9, 0x00, 0x31], (1, &[Own, Any], [Any, Own, Any]), "refused", 10, (1, &[Own, Any], [Any, Own, Any])),
    (Entry, [0xC8, 0x00, 0x31], (1, &[Own, Any], [Any, Own, Any]), "refused", 10, (1, &[Own, Any], [Any, Own, Any])),
    (Entry, [0xC9, 0x00, 0x31], (1, &[Own, Own], [Any, Own, Any]), "refused", 10, (1, &[Own, Own], [Any, Own, Any])),
    (Entry, [0xC8, 0x00, 0x31], (1, &[Own, Own], [Any, Own, Any]), "refused", 10, (1, &[Own, Own], [Any, Own, Any])),
];

/// The kind of moves, and their address, the number of words taken, or the number of the refusal.
fn describe(moves: &Result<Moves, FrameFault>) -> (&'static str, u32) {
    match moves {
        Ok(Moves::End) => ("end", 0),
        Ok(Moves::On(_)) => ("on", 0),
        Ok(Moves::Jump(_, to)) => ("jump", u32::from(*to)),
        Ok(Moves::Either(_, to)) => ("either", u32::from(*to)),
        Ok(Moves::Case(_)) => ("case", 0),
        Ok(Moves::Call(_, to)) => ("call", u32::from(*to)),
        Ok(Moves::MaybeCall(_, to)) => ("maybe call", u32::from(*to)),
        Ok(Moves::Return(taken)) => ("return", *taken),
        Ok(Moves::MaybeReturn(_, taken)) => ("maybe return", *taken),
        Err(FrameFault::Memory) => ("out of memory", 0),
        Err(fault) => ("refused", u32::from(fault.code())),
    }
}

/// Whether the frame of the moves is this one; true if they have none.
fn has_frame_after(moves: &Result<Moves, FrameFault>, wanted: &Frame) -> bool {
    match moves {
        Ok(Moves::End | Moves::Return(_)) | Err(_) => true,
        Ok(
            Moves::On(frame)
            | Moves::Jump(frame, _)
            | Moves::Either(frame, _)
            | Moves::Case(frame)
            | Moves::Call(frame, _)
            | Moves::MaybeCall(frame, _)
            | Moves::MaybeReturn(frame, _),
        ) => *frame == *wanted,
    }
}

#[test]
fn instructions_move_frames_as_listed(rt: HostRuntime) -> Result<(), Fail> {
    for (role, bytes, before, wanted, number, after) in &ROWS {
        let after = frame_of(rt.alloc(), after)?;
        let moves = moves_after(&rt, rt.alloc(), *role, before, *bytes)?;
        assert_eq!(rt; describe(&moves), (*wanted, *number), "{bytes:?}");
        assert!(rt; has_frame_after(&moves, &after), "{bytes:?}");
    }
    Ok(())
}

/// The frames at the start of a procedure and of the main program.
#[test]
fn procedures_begin_with_their_frames(rt: HostRuntime) -> Result<(), Fail> {
    let entry = Frame::entry(rt.alloc())?;
    assert!(rt; entry.words.as_slice() == [Own].as_slice());
    let main = Frame::main_entry(rt.alloc())?;
    assert!(rt; main.words.is_empty());
    Ok(())
}
