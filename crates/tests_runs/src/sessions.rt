//! Sessions: three readers and a writer.

use loader80::{Reading, SessionFault, Writing, session};
use std::alloc::{AllocError, Global};
use std::io::{Error, ErrorKind, Read, Write};
use std::test::Fail;

/// An image at 3000: a byte is taken from port 02 and given to port 01, and then the program halts.
#[rattlefmt::skip]
static IMAGE: [u8; 32] = [
    0x02, 0x05, 0x00, 0x01, 0x41, 0x00, 0x00, 0xB7, // module header
    0x06, 0x09, 0x00, 0x00, 0x00, 0x30, 0xDB, 0x02, 0xD3, 0x01, 0x76, 0x9A, // IN 02, OUT 01, HLT
    0x04, 0x05, 0x00, 0x01, 0x00, 0x00, 0x30, 0xC6, // module end
    0x0E, 0x01, 0x00, 0xF1, // end of file
];

/// The regions of that program.
const REGIONS: &[u8] = b"REGIONS 1\nCODE 3000 0005\nSTACK 3005 0000\n";

/// The session's input.
const INPUTS: &[u8] = b"02 41\n";

/// A reader that gives one byte at a time. One read, after `until_failure` bytes, is interrupted; a
/// caller that tried again would get all bytes.
#[derive(Drop)]
struct SlowReader<'a> {
    /// The bytes that are left.
    left: &'a [u8],
    /// How many more bytes are given before a read is interrupted.
    until_failure: usize,
}

impl<'a> Read for SlowReader<'a> {
    /// Gives one byte, or none at the end; the read after `until_failure` bytes is interrupted.
    fn read(&mut self, buffer: &mut [u8]) -> std::io::Result<usize> {
        if self.until_failure == 0 {
            self.until_failure = usize::MAX;
            return Err(Error::from(ErrorKind::Interrupted));
        }
        if self.left.is_empty() || buffer.is_empty() {
            return Ok(0);
        }
        buffer[0] = self.left[0];
        self.left = &self.left[1..];
        self.until_failure -= 1;
        Ok(1)
    }
}

/// A writer that takes one byte at a time, up to `full` bytes. Then it takes no byte, or one write
/// is interrupted; a caller that tried again would have all bytes taken.
#[derive(Drop)]
struct SlowWriter {
    /// The bytes that were taken.
    taken: Vec<u8>,
    /// After how many bytes it takes no more.
    full: usize,
    /// Whether a write is interrupted then; else it takes no byte.
    fails: bool,
}

impl Write for SlowWriter {
    /// Takes one byte until `full` are taken; then one write is interrupted, or each takes none.
    fn write(&mut self, bytes: &[u8]) -> std::io::Result<usize> {
        if self.taken.len() < self.full && !bytes.is_empty() {
            self.taken.push(bytes[0])?;
            return Ok(1);
        }
        if self.fails {
            self.full = usize::MAX;
            return Err(Error::from(ErrorKind::Interrupted));
        }
        Ok(0)
    }

    /// Does nothing: the bytes are in `taken` already.
    fn flush(&mut self) -> std::io::Result<()> {
        Ok(())
    }
}

/// A reader of these bytes; if `fails` is set, the read after two of them is interrupted.
fn reader(left: &[u8], fails: bool) -> SlowReader<'_> {
    let until_failure = if fails { 2 } else { usize::MAX };
    SlowReader {
        left,
        until_failure,
    }
}

/// The fault of a session of which the read of text `number` (1 the image, 2 the regions, 3 the
/// inputs; 0 none) after two bytes is interrupted.
fn fault_of(alloc: Global, number: u8, writer: &mut SlowWriter) -> Option<SessionFault> {
    let mut image = Reading::new(reader(&IMAGE, number == 1));
    let mut regions = Reading::new(reader(REGIONS, number == 2));
    let mut inputs = Reading::new(reader(INPUTS, number == 3));
    let mut out = Writing::new(writer);
    session(
        alloc,
        &mut image,
        &mut regions,
        &mut inputs,
        &mut out,
        1_000_000,
        65_536,
    )
    .err()
}

/// The fault of a session whose writer takes `full` bytes, and the bytes that it has taken. Then a
/// write is interrupted if `fails` is set, and else takes no byte.
fn write_until_full(
    alloc: Global,
    full: usize,
    fails: bool,
) -> Result<(Option<SessionFault>, Vec<u8>), AllocError> {
    let taken = Vec::with_capacity(alloc, 64)?;
    let mut writer = SlowWriter { taken, full, fails };
    let fault = fault_of(alloc, 0, &mut writer);
    Ok((fault, writer.taken))
}

/// How many bytes a writer takes, whether a write is interrupted then, the fault, and the bytes
/// that are written.
#[rattlefmt::skip]
static WRITES: [(usize, bool, Option<SessionFault>, &[u8]); 3] = [
    (0, true, Some(SessionFault::Write), b""),
    (20, false, Some(SessionFault::Write), b"STACK 0\nOUT 01 41\nHA"),
    (64, false, None, b"STACK 0\nOUT 01 41\nHALT 3004 AFTER 3\n"),
];

#[test]
fn a_session_writes_its_transcript(rt: HostRuntime) -> Result<(), Fail> {
    for (full, fails, wanted, bytes) in &WRITES {
        let (fault, written) = write_until_full(rt.alloc(), *full, *fails)?;
        assert_eq!(rt; fault, *wanted);
        assert!(rt; written.as_slice() == *bytes);
    }
    Ok(())
}

/// The fault of a session of which a read of text `number` is interrupted.
fn fault_of_reader(alloc: Global, number: u8) -> Option<SessionFault> {
    let mut writer = SlowWriter {
        taken: Vec::new(alloc),
        full: 0,
        fails: true,
    };
    fault_of(alloc, number, &mut writer)
}

#[test]
fn a_failed_read_names_its_text(rt: HostRuntime) {
    for number in 1..=3u8 {
        let fault = fault_of_reader(rt.alloc(), number);
        assert_eq!(rt; fault, Some(SessionFault::Read(number)));
    }
}
