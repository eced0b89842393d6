//! Texts of instructions. The text of each first byte is in the program's tests.

use decode80::{Instr, Register, decode, write_text};
use std::alloc::Global;
use std::test::Fail;

/// Instructions as bytes, their lengths, and their texts.
#[rattlefmt::skip]
static TEXTS: [([u8; 3], usize, &str); 12] = [
    ([0x31, 0x00, 0x32], 3, "LXI SP,3200"),
    ([0x21, 0x05, 0x00], 3, "LXI H,0005"),
    ([0xE5, 0x00, 0x00], 1, "PUSH H"),
    ([0xCD, 0x0B, 0x30], 3, "CALL 300B"),
    ([0x76, 0x00, 0x00], 1, "HLT"),
    ([0xD1, 0x00, 0x00], 1, "POP D"),
    ([0xC1, 0x00, 0x00], 1, "POP B"),
    ([0xD5, 0x00, 0x00], 1, "PUSH D"),
    ([0x79, 0x00, 0x00], 1, "MOV A,C"),
    ([0xD3, 0x01, 0x00], 2, "OUT 01"),
    ([0xC9, 0x00, 0x00], 1, "RET"),
    ([0xCF, 0x00, 0x00], 1, "RST 1"),
];

/// The length of the instruction that these bytes begin with, and its text.
fn text_of(alloc: Global, bytes: [u8; 3]) -> Result<(usize, Vec<u8>), Fail> {
    let (instr, length) = decode(bytes).ok_or("an unused byte")?;
    let mut text = Vec::new(alloc);
    write_text(alloc, instr, &mut text)?;
    Ok((length, text))
}

#[test]
fn instructions_have_their_texts(rt: HostRuntime) -> Result<(), Fail> {
    for (bytes, length, wanted) in &TEXTS {
        let (found, text) = text_of(rt.alloc(), *bytes)?;
        assert!(rt;
            found == *length && text.as_slice() == wanted.as_bytes(),
            "{wanted}"
        );
    }
    Ok(())
}

/// If memory runs out, `out` is unchanged; run with each allocation refused in turn, this shows it.
#[test]
fn out_of_memory_leaves_the_text_unchanged(rt: HostRuntime) {
    let mut out = Vec::new(rt.alloc());
    for _ in 0..50u8 {
        let before = out.len();
        let done = write_text(rt.alloc(), Instr::Mvi(Register::A, 0xA5), &mut out);
        let grown = if done.is_ok() { "MVI A,A5".len() } else { 0 };
        assert!(rt; out.len() >= before && out.len() - before == grown);
    }
}

/// A text is appended to what `out` has, also if the vector has no room for it.
#[test]
fn a_text_is_appended(rt: HostRuntime) -> Result<(), Fail> {
    let mut out = b"3000 ".to_vec(rt.alloc())?;
    write_text(rt.alloc(), Instr::Mvi(Register::A, 0xA5), &mut out)?;
    assert!(rt; out.as_slice() == b"3000 MVI A,A5".as_slice());
    Ok(())
}

/// An instruction is shown by its mnemonic and the bytes that the manual gives it.
#[test]
fn instructions_are_shown_with_their_bytes(rt: HostRuntime) -> Result<(), Fail> {
    let shown = format!(in rt.alloc();
        "{:?}, {:?}, {:?}",
        Instr::Mvi(Register::B, 0xA5),
        Instr::Jmp(0x3012),
        Instr::Nop
    )?;
    assert!(rt; shown.as_str() == "MVI 06 A5, JMP C3 12 30, NOP 00");
    Ok(())
}
