//! A main program that pushes an argument for a procedure, which outputs it: an image, regions, and the transcript of its run.

/// The file of the program's image.
#[rattlefmt::skip]
pub static IMAGE: [u8; 45] = [
    0x02, 0x05, 0x00, 0x01, 0x41, 0x00, 0x00, 0xB7, // module header
    0x06, 0x16, 0x00, 0x00, 0x00, 0x30, // content at 3000
    0x31, 0x00, 0x32, 0x21, 0x05, 0x00, 0xE5, 0xCD, 0x0B, 0x30, 0x76, // LXI SP,3200, LXI H,0005, PUSH H, CALL 300B, HLT
    0xD1, 0xC1, 0xD5, 0x79, 0xD3, 0x01, 0xC9, 0x4B, // 300B: POP D, POP B, PUSH D, MOV A,C, OUT 01, RET
    0x04, 0x05, 0x00, 0x01, 0x00, 0x00, 0x30, 0xC6, // module end
    0x0E, 0x01, 0x00, 0xF1, // end of file
];

/// The program's regions.
pub const REGIONS: &[u8] = b"REGIONS 1\nCODE 3000 0012\nSTACK 3100 0100\n";

/// Two input bytes for port 02, which the program doesn't read.
pub const INPUTS: &[u8] = b"02 41FF\n";

/// The transcript of its run.
pub const TRANSCRIPT: &[u8] = b"STACK 4\nOUT 01 05\nHALT 300A AFTER 11\n";
