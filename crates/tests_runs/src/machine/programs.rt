//! Programs that the verifier refuses, and what is known of them from the manual's description of each instruction. What others
//! put out is in the program's tests.

use machine80::End;

/// Code from 3000 on, a stack of 256 bytes at 3100, no data.
const PLAIN: &[u8] = b"REGIONS 1\nCODE 3000 0100\nSTACK 3100 0100\n";

/// No stack.
const NO_STACK: &[u8] = b"REGIONS 1\nCODE 3000 0005\nSTACK 3005 0000\n";

/// A stack of one byte.
const ONE_BYTE: &[u8] = b"REGIONS 1\nCODE 3000 0005\nSTACK 3005 0001\n";

/// One byte of data.
const ONE_BYTE_OF_DATA: &[u8] = b"REGIONS 1\nCODE 3000 0100\nSTACK 3100 0100\nDATA 4000 0001\n";

/// No code.
const NO_CODE: &[u8] = b"REGIONS 1\nSTACK 3100 0100\n";

/// Code at both ends of memory.
const BOTH_ENDS: &[u8] = b"REGIONS 1\nCODE 0000 0010\nCODE FFF0 0010\nSTACK FE00 0100\n";

/// A stack that ends with memory.
const STACK_AT_THE_END: &[u8] = b"REGIONS 1\nCODE 3000 0100\nSTACK FFFE 0002\n";

/// A stack at the beginning of memory.
const STACK_AT_0000: &[u8] = b"REGIONS 1\nCODE 3000 0100\nSTACK 0000 0100\n";

/// The first of two halts is the one declared target of the PCHL at 3003.
const ONE_TARGET: &[u8] = b"REGIONS 2\nCODE 3000 0100\nSTACK 3100 0100\nCASE 3003 3004\n";

/// A program, and how its run goes.
#[derive(Clone, Copy)]
pub struct Program {
    /// What the program shows.
    pub title: &'static str,
    /// The text of its regions.
    pub regions: &'static [u8],
    /// The address where it starts.
    pub start: u16,
    /// The program's bytes, from the start on.
    pub bytes: &'static [u8],
    /// How its run ends, after how many steps, and the program counter and the stack pointer then.
    pub ends: (Option<End>, u64, u16, u16),
}

/// One program a line: title, regions, start, bytes; end, steps, program counter, stack pointer.
#[rattlefmt::skip]
pub static PROGRAMS: [Program; 26] = [
    Program { title: "POP B on an empty stack", regions: PLAIN, start: 0x3000, bytes: &[0xC1], ends: (Some(End::Stack(0x3200)), 1, 0x3000, 0x3200) },
    Program { title: "PUSH B without a stack", regions: NO_STACK, start: 0x3000, bytes: &[0xC5], ends: (Some(End::Stack(0x3004)), 1, 0x3000, 0x3005) },
    Program { title: "PUSH B with room for one byte", regions: ONE_BYTE, start: 0x3000, bytes: &[0xC5], ends: (Some(End::Stack(0x3004)), 1, 0x3000, 0x3006) },
    Program { title: "CALL with room for one byte", regions: ONE_BYTE, start: 0x3000, bytes: &[0xCD, 0x00, 0x30], ends: (Some(End::Stack(0x3004)), 1, 0x3000, 0x3006) },
    Program { title: "XTHL on an empty stack", regions: ONE_BYTE, start: 0x3000, bytes: &[0xE3], ends: (Some(End::Stack(0x3006)), 1, 0x3000, 0x3006) },
    Program { title: "CZ where Z is 0 touches no stack", regions: NO_STACK, start: 0x3000, bytes: &[0xCC, 0x00, 0x30, 0x76], ends: (Some(End::Halt), 2, 0x3003, 0x3005) },
    Program { title: "RZ where Z is 0 touches no stack", regions: NO_STACK, start: 0x3000, bytes: &[0xC8, 0x76], ends: (Some(End::Halt), 2, 0x3001, 0x3005) },
    Program { title: "STA to code", regions: PLAIN, start: 0x3000, bytes: &[0x32, 0x00, 0x30], ends: (Some(End::Direct(0x3000)), 1, 0x3000, 0x3200) },
    Program { title: "SHLD with its second byte outside data", regions: ONE_BYTE_OF_DATA, start: 0x3000, bytes: &[0x22, 0x00, 0x40], ends: (Some(End::Direct(0x4001)), 1, 0x3000, 0x3200) },
    Program { title: "a first byte before the code", regions: PLAIN, start: 0x2FFF, bytes: &[0x00, 0x76], ends: (Some(End::Fetch(0x2FFF)), 1, 0x2FFF, 0x3200) },
    Program { title: "a second byte after the code", regions: PLAIN, start: 0x30FF, bytes: &[0x3E, 0x00], ends: (Some(End::Fetch(0x30FF)), 1, 0x30FF, 0x3200) },
    Program { title: "a third byte after the code", regions: PLAIN, start: 0x30FE, bytes: &[0xC3, 0x00, 0x30], ends: (Some(End::Fetch(0x30FE)), 1, 0x30FE, 0x3200) },
    Program { title: "an unused byte", regions: PLAIN, start: 0x3000, bytes: &[0x08], ends: (Some(End::Fetch(0x3000)), 1, 0x3000, 0x3200) },
    Program { title: "a second byte past FFFF", regions: BOTH_ENDS, start: 0xFFFF, bytes: &[0x3E, 0x00], ends: (Some(End::Fetch(0xFFFF)), 1, 0xFFFF, 0xFF00) },
    Program { title: "no code at all", regions: NO_CODE, start: 0x3000, bytes: &[0x76], ends: (Some(End::Fetch(0x3000)), 1, 0x3000, 0x3200) },
    Program { title: "RST 7 calls 0038", regions: PLAIN, start: 0x3000, bytes: &[0xFF], ends: (Some(End::Fetch(0x0038)), 2, 0x0038, 0x31FE) },
    Program { title: "PCHL", regions: PLAIN, start: 0x3000, bytes: &[0x21, 0x05, 0x30, 0xE9, 0x76, 0x76], ends: (Some(End::Halt), 3, 0x3005, 0x3200) },
    Program { title: "PCHL to its declared target", regions: ONE_TARGET, start: 0x3000, bytes: &[0x21, 0x04, 0x30, 0xE9, 0x76, 0x76], ends: (Some(End::Halt), 3, 0x3004, 0x3200) },
    Program { title: "PCHL outside its declared target", regions: ONE_TARGET, start: 0x3000, bytes: &[0x21, 0x05, 0x30, 0xE9, 0x76, 0x76], ends: (Some(End::JumpOutside(0x3005)), 2, 0x3003, 0x3200) },
    Program { title: "SPHL", regions: PLAIN, start: 0x3000, bytes: &[0x21, 0x00, 0x34, 0xF9, 0x76], ends: (Some(End::Halt), 3, 0x3004, 0x3400) },
    Program { title: "POP B around the end of memory", regions: STACK_AT_THE_END, start: 0x3000, bytes: &[0x31, 0xFF, 0xFF, 0xC1], ends: (Some(End::Stack(0x0000)), 2, 0x3003, 0xFFFF) },
    Program { title: "RNZ around the end of memory", regions: STACK_AT_THE_END, start: 0x3000, bytes: &[0x31, 0xFF, 0xFF, 0xC0], ends: (Some(End::Stack(0x0000)), 2, 0x3003, 0xFFFF) },
    Program { title: "XTHL around the end of memory", regions: STACK_AT_THE_END, start: 0x3000, bytes: &[0x31, 0xFF, 0xFF, 0xE3], ends: (Some(End::Stack(0x0000)), 2, 0x3003, 0xFFFF) },
    Program { title: "PUSH B around the end of memory", regions: STACK_AT_0000, start: 0x3000, bytes: &[0x31, 0x01, 0x00, 0xC5], ends: (Some(End::Stack(0xFFFF)), 2, 0x3003, 0x0001) },
    Program { title: "CNZ around the end of memory", regions: STACK_AT_0000, start: 0x3000, bytes: &[0x31, 0x01, 0x00, 0xC4, 0x00, 0x30], ends: (Some(End::Stack(0xFFFF)), 2, 0x3003, 0x0001) },
    Program { title: "INX SP and DCX SP wrap", regions: PLAIN, start: 0x3000, bytes: &[0x31, 0xFF, 0xFF, 0x33, 0x3B, 0x3B, 0x76], ends: (Some(End::Halt), 5, 0x3006, 0xFFFE) },
];
