//! Object files that come in pieces: the answers don't depend on where they are cut. If memory runs out at a piece, the same piece again
//! is answered as with ample memory.

use omf_core::RecordFault;
use omf_module::{Cause, FileFeed, Module, ModuleFault, write_file};
use std::alloc::Global;
use std::slice;
use std::test::Fail;

/// A main program `A` with one byte of code, and nothing else.
const HALT: &[u8] = &[
    0x02, 0x09, 0x00, 0x01, 0x41, 0x00, 0x00, 0x01, 0x01, 0x00, 0x03, 0xAE, // module header
    0x06, 0x05, 0x00, 0x01, 0x00, 0x00, 0x76, 0x7E, // content
    0x04, 0x05, 0x00, 0x01, 0x01, 0x00, 0x00, 0xF5, // module end
    0x0E, 0x01, 0x00, 0xF1, // end of file
];

/// An end of file with a wrong checksum.
const BAD_END: &[u8] = &[0x0E, 0x01, 0x00, 0xF0];

/// The program's module, and once more with its content in segment 5, which the module doesn't
/// have.
const TWO: &[u8] = &[
    0x02, 0x09, 0x00, 0x01, 0x41, 0x00, 0x00, 0x01, 0x01, 0x00, 0x03, 0xAE, // module header
    0x06, 0x05, 0x00, 0x01, 0x00, 0x00, 0x76, 0x7E, // content
    0x04, 0x05, 0x00, 0x01, 0x01, 0x00, 0x00, 0xF5, // module end
    0x02, 0x09, 0x00, 0x01, 0x41, 0x00, 0x00, 0x01, 0x01, 0x00, 0x03, 0xAE, // module header
    0x06, 0x05, 0x00, 0x05, 0x00, 0x00, 0x76, 0x7A, // content of segment 5
    0x04, 0x05, 0x00, 0x01, 0x01, 0x00, 0x00, 0xF5, // module end
];

/// The header of a module, and two records of named commons with the same name.
const TWICE: &[u8] = &[
    0x02, 0x05, 0x00, 0x01, 0x41, 0x00, 0x00, 0xB7, // module header
    0x2E, 0x04, 0x00, 0x06, 0x01, 0x58, 0x6F, // common 6, X
    0x2E, 0x04, 0x00, 0x07, 0x01, 0x58, 0x6E, // common 7, X
];

/// A wrong checksum at 28.
#[rattlefmt::skip]
const BAD: ModuleFault = ModuleFault { at: 28, cause: Cause::Record(RecordFault::BadSum(28)) };

/// A record at 28 that is cut off.
#[rattlefmt::skip]
const CUT_OFF: ModuleFault = ModuleFault { at: 28, cause: Cause::Record(RecordFault::Truncated(28)) };

/// A file without a module.
#[rattlefmt::skip]
const NO_HEADER: ModuleFault = ModuleFault { at: 0, cause: Cause::NoHeader };

/// An unknown segment in the second module of `TWO`.
#[rattlefmt::skip]
const UNKNOWN: ModuleFault = ModuleFault { at: 40, cause: Cause::SegmentUnknown(5) };

/// The second name of `TWICE`.
#[rattlefmt::skip]
const DUPLICATE: ModuleFault = ModuleFault { at: 15, cause: Cause::BadBody(0x2E) };

/// Bytes that come as one piece.
const WHOLE: bool = false;

/// Bytes of which each is a piece of its own.
const BY_BYTES: bool = true;

/// A file, the first of its bytes that come and the one after the last, how they come, and what is
/// answered for the last piece.
type Step = (
    &'static [u8],
    usize,
    usize,
    bool,
    Result<usize, ModuleFault>,
);

/// What each row shows, the bytes that come, and the fault that is answered when the feed is
/// finished; if there is none, its modules are those of `HALT`.
#[rattlefmt::skip]
static ROWS: [(&str, &[Step], Option<ModuleFault>); 12] = [
    ("modules count once they are whole", &[
        (HALT, 0, 12, WHOLE, Ok(0)), (HALT, 12, 28, WHOLE, Ok(1)), (HALT, 28, 32, WHOLE, Ok(1)),
    ], None),
    ("a bad checksum is answered from then on", &[
        (HALT, 0, 28, WHOLE, Ok(1)), (BAD_END, 0, 4, WHOLE, Err(BAD)), (HALT, 28, 32, WHOLE, Err(BAD)),
    ], Some(BAD)),
    ("a file comes byte by byte", &[(HALT, 0, 32, BY_BYTES, Ok(1))], None),
    ("a file that is cut off has a fault", &[(HALT, 0, 31, BY_BYTES, Ok(1))], Some(CUT_OFF)),
    ("no piece is no module", &[], Some(NO_HEADER)),
    ("empty pieces change nothing", &[
        (HALT, 0, 0, WHOLE, Ok(0)), (HALT, 0, 20, WHOLE, Ok(0)), (HALT, 20, 20, WHOLE, Ok(0)), (HALT, 20, 32, WHOLE, Ok(1)),
        (HALT, 32, 32, WHOLE, Ok(1)),
    ], None),
    ("bytes after the end are not read", &[(HALT, 0, 32, WHOLE, Ok(1)), (BAD_END, 0, 4, WHOLE, Ok(1))], None),
    ("a file without modules has a fault", &[
        (HALT, 28, 32, WHOLE, Err(NO_HEADER)), (HALT, 0, 32, WHOLE, Err(NO_HEADER)),
    ], Some(NO_HEADER)),
    ("a fault of the second module is answered", &[(TWO, 0, 56, WHOLE, Err(UNKNOWN))], Some(UNKNOWN)),
    ("the same byte by byte", &[
        (TWO, 0, 55, BY_BYTES, Ok(1)), (TWO, 55, 56, BY_BYTES, Err(UNKNOWN)),
    ], Some(UNKNOWN)),
    ("a name on both sides of a cut is a duplicate", &[
        (TWICE, 0, 18, WHOLE, Ok(0)), (TWICE, 18, 22, WHOLE, Err(DUPLICATE)), (HALT, 0, 32, WHOLE, Err(DUPLICATE)),
    ], Some(DUPLICATE)),
    ("the same name byte by byte", &[
        (TWICE, 0, 21, BY_BYTES, Ok(0)), (TWICE, 21, 22, BY_BYTES, Err(DUPLICATE)),
    ], Some(DUPLICATE)),
];

/// What the feed answers for a piece; if memory runs out, for the same piece once more.
fn answer(feed: &mut FileFeed, piece: &[u8]) -> Result<usize, ModuleFault> {
    match feed.piece(piece) {
        Err(fault) if fault.cause == Cause::Memory => feed.piece(piece),
        answered => answered,
    }
}

/// What the feed answers for the last of these bytes if each is a piece of its own, or the first
/// fault.
fn answer_by_bytes(feed: &mut FileFeed, bytes: &[u8]) -> Result<usize, ModuleFault> {
    let mut count = 0;
    for byte in bytes {
        count = answer(feed, slice::from_ref(byte))?;
    }
    Ok(count)
}

/// Whether the feed answers bytes as they are listed.
fn answers_step(feed: &mut FileFeed, step: &Step) -> bool {
    let (file, first, end, by_bytes, wanted) = *step;
    let Some(bytes) = file.get(first..end) else {
        return false;
    };
    if by_bytes {
        answer_by_bytes(feed, bytes) == wanted
    } else {
        answer(feed, bytes) == wanted
    }
}

/// Whether the feed answers all bytes as they are listed.
fn answers_steps(feed: &mut FileFeed, steps: &[Step]) -> bool {
    for step in steps {
        if !answers_step(feed, step) {
            return false;
        }
    }
    true
}

/// Whether modules are written as the program's file; false if there are none.
fn are_the_program(alloc: Global, modules: &[Module]) -> Result<bool, Fail> {
    if modules.is_empty() {
        return Ok(false);
    }
    let mut out = Vec::new(alloc);
    write_file(alloc, modules, &mut out)?;
    Ok(out.as_slice() == HALT)
}

/// Whether the feed ends in this fault; if it is `None`, in the program's modules.
fn ends_in(alloc: Global, feed: FileFeed, fault: Option<ModuleFault>) -> Result<bool, Fail> {
    match feed.finish() {
        Ok(modules) => Ok(are_the_program(alloc, &modules)? && fault.is_none()),
        Err(found) if Some(found) == fault => Ok(true),
        Err(found) => Err(found.into()),
    }
}

/// Whether a new feed answers all bytes as they are listed, and ends in this fault; if it is
/// `None`, in the program's modules.
fn answers_file(alloc: Global, steps: &[Step], fault: Option<ModuleFault>) -> Result<bool, Fail> {
    let mut feed = FileFeed::new(alloc);
    let answered = answers_steps(&mut feed, steps);
    Ok(ends_in(alloc, feed, fault)? && answered)
}

#[test]
fn pieces_are_answered_as_listed(rt: HostRuntime) -> Result<(), Fail> {
    for (title, steps, fault) in &ROWS {
        assert!(rt; answers_file(rt.alloc(), steps, *fault)?, "{title}");
    }
    Ok(())
}

#[test]
fn a_file_in_two_pieces_is_read(rt: HostRuntime) -> Result<(), Fail> {
    let mut feed = FileFeed::new(rt.alloc());
    assert_eq!(rt; feed.piece(&HALT[..12])?, 0);
    assert_eq!(rt; feed.piece(&HALT[12..])?, 1);
    let modules = feed.finish()?;
    assert_eq!(rt; modules.len(), 1);
    Ok(())
}
