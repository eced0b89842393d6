//! Libraries that come in pieces: the answers don't depend on where they are cut. If memory runs out at a piece, the same piece again is
//! answered as with ample memory. A library that is cut off at each byte is in the program's tests.

use crate::libraries::{ONE, is_written_as};
use omf_library::{LibraryFault, LibraryFeed};
use std::alloc::Global;
use std::slice;
use std::test::Fail;

/// The header of a library of two modules.
const HEADER_OF_TWO: &[u8] = &[0x2C, 0x07, 0x00, 0x02, 0x00, 0x00, 0x00, 0x26, 0x00, 0xA5];

/// A record that is no library header.
const END_OF_FILE: &[u8] = &[0x0E, 0x01, 0x00, 0xF1];

/// A library of one module whose header has two.
const WRONG: LibraryFault = LibraryFault::CountDiffers(2, 1);

/// Bytes that come as one piece.
const WHOLE: bool = false;

/// Bytes of which each is a piece of its own.
const BY_BYTES: bool = true;

/// A file, the first of its bytes that come and the one after the last, how they come, and what is
/// answered for the last piece.
type Step = (
    &'static [u8],
    usize,
    usize,
    bool,
    Result<usize, LibraryFault>,
);

/// What each row shows, the bytes that come, and the fault that is answered when the feed is
/// finished; if there is none, the library is that of `ONE`.
#[rattlefmt::skip]
static ROWS: [(&str, &[Step], Option<LibraryFault>); 4] = [
    ("a library comes byte by byte", &[
        (ONE, 0, 0, WHOLE, Ok(0)), (ONE, 0, 37, BY_BYTES, Ok(0)), (ONE, 37, 37, WHOLE, Ok(0)), (ONE, 37, 61, BY_BYTES, Ok(1)),
        (ONE, 0, 61, WHOLE, Ok(1)),
    ], None),
    ("a wrong module count is answered from then on", &[
        (HEADER_OF_TWO, 0, 10, WHOLE, Ok(0)), (ONE, 10, 60, BY_BYTES, Ok(1)), (ONE, 60, 61, WHOLE, Err(WRONG)),
        (ONE, 0, 0, WHOLE, Err(WRONG)), (ONE, 10, 61, WHOLE, Err(WRONG)),
    ], Some(WRONG)),
    ("no bytes are no library", &[(ONE, 0, 0, WHOLE, Ok(0))], Some(LibraryFault::NotLibrary)),
    ("an end of file is no library", &[
        (END_OF_FILE, 0, 4, WHOLE, Err(LibraryFault::NotLibrary)),
    ], Some(LibraryFault::NotLibrary)),
];

/// What the feed answers for a piece; if memory runs out, for the same piece once more.
fn answer(feed: &mut LibraryFeed, piece: &[u8]) -> Result<usize, LibraryFault> {
    match feed.piece(piece) {
        Err(LibraryFault::Memory) => feed.piece(piece),
        answered => answered,
    }
}

/// What the feed answers for the last of these bytes if each is a piece of its own, or the first
/// fault.
fn answer_by_bytes(feed: &mut LibraryFeed, bytes: &[u8]) -> Result<usize, LibraryFault> {
    let mut count = 0;
    for byte in bytes {
        count = answer(feed, slice::from_ref(byte))?;
    }
    Ok(count)
}

/// Whether the feed answers bytes as they are listed.
fn answers_step(feed: &mut LibraryFeed, step: &Step) -> bool {
    let (file, first, end, by_bytes, wanted) = *step;
    let Some(bytes) = file.get(first..end) else {
        return false;
    };
    if by_bytes {
        answer_by_bytes(feed, bytes) == wanted
    } else {
        answer(feed, bytes) == wanted
    }
}

/// Whether the feed answers all bytes as they are listed.
fn answers_steps(feed: &mut LibraryFeed, steps: &[Step]) -> bool {
    for step in steps {
        if !answers_step(feed, step) {
            return false;
        }
    }
    true
}

/// Whether the feed ends in this fault; if it is `None`, in the library that `ONE` is.
fn ends_in(alloc: Global, feed: LibraryFeed, fault: Option<LibraryFault>) -> Result<bool, Fail> {
    match feed.finish() {
        Ok(library) => Ok(is_written_as(alloc, &library, ONE)? && fault.is_none()),
        Err(found) if Some(found) == fault => Ok(true),
        Err(found) => Err(found.into()),
    }
}

/// Whether a new feed answers all bytes as they are listed, and ends in this fault; if it is
/// `None`, in the library that `ONE` is.
fn answers_file(alloc: Global, steps: &[Step], fault: Option<LibraryFault>) -> Result<bool, Fail> {
    let mut feed = LibraryFeed::new(alloc);
    let answered = answers_steps(&mut feed, steps);
    Ok(ends_in(alloc, feed, fault)? && answered)
}

#[test]
fn pieces_are_answered_as_listed(rt: HostRuntime) -> Result<(), Fail> {
    for (title, steps, fault) in &ROWS {
        assert!(rt; answers_file(rt.alloc(), steps, *fault)?, "{title}");
    }
    Ok(())
}
