//! Files that come in pieces: the answers don't depend on where they are cut. If memory runs out at a piece, the same piece again is
//! answered as with ample memory, so each of these rows holds whichever allocation is refused.

use omf_core::{Feed, FeedFault, RecordFault};
use std::alloc::Global;
use std::slice;

/// A main program `A` with one byte of code, and nothing else.
const HALT: &[u8] = &[
    0x02, 0x09, 0x00, 0x01, 0x41, 0x00, 0x00, 0x01, 0x01, 0x00, 0x03, 0xAE, // module header
    0x06, 0x05, 0x00, 0x01, 0x00, 0x00, 0x76, 0x7E, // content
    0x04, 0x05, 0x00, 0x01, 0x01, 0x00, 0x00, 0xF5, // module end
    0x0E, 0x01, 0x00, 0xF1, // end of file
];

/// An end of file with a wrong checksum.
const BAD_END: &[u8] = &[0x0E, 0x01, 0x00, 0xF0];

/// An end of file, and one with a wrong checksum.
const TWO_ENDS: &[u8] = &[0x0E, 0x01, 0x00, 0xF1, 0x0E, 0x01, 0x00, 0xF0];

/// The answer for a wrong checksum at 28.
const BAD: Result<usize, FeedFault> = Err(FeedFault::Record(RecordFault::BadSum(28)));

/// Bytes that come as one piece.
const WHOLE: bool = false;

/// Bytes of which each is a piece of its own.
const BY_BYTES: bool = true;

/// A file, the first of its bytes that come and the one after the last, how they come, and what is
/// answered for the last piece.
type Step = (&'static [u8], usize, usize, bool, Result<usize, FeedFault>);

/// What each row shows, the bytes that come, and those that the feed has then: a file, and how many
/// of its bytes.
#[rattlefmt::skip]
static ROWS: [(&str, &[Step], &[u8], usize); 4] = [
    ("records count once they are whole", &[
        (HALT, 0, 0, WHOLE, Ok(0)), (HALT, 0, 12, WHOLE, Ok(1)), (HALT, 12, 28, WHOLE, Ok(3)), (HALT, 28, 32, WHOLE, Ok(4)),
    ], HALT, 32),
    ("a bad checksum is answered from then on", &[
        (HALT, 0, 28, WHOLE, Ok(3)), (BAD_END, 0, 4, WHOLE, BAD), (HALT, 28, 32, WHOLE, BAD),
    ], HALT, 28),
    ("a file comes byte by byte", &[
        (HALT, 0, 31, BY_BYTES, Ok(3)), (HALT, 31, 32, BY_BYTES, Ok(4)),
    ], HALT, 32),
    ("bytes after the end are taken unread", &[
        (HALT, 28, 32, WHOLE, Ok(1)), (BAD_END, 0, 4, WHOLE, Ok(1)),
    ], TWO_ENDS, 8),
];

/// What the feed answers for a piece; if memory runs out, for the same piece once more.
fn answer(feed: &mut Feed, piece: &[u8]) -> Result<usize, FeedFault> {
    match feed.piece(piece) {
        Err(FeedFault::Memory) => feed.piece(piece),
        answered => answered,
    }
}

/// What the feed answers for the last of these bytes if each is a piece of its own, or the first
/// fault.
fn answer_by_bytes(feed: &mut Feed, bytes: &[u8]) -> Result<usize, FeedFault> {
    let mut count = 0;
    for byte in bytes {
        count = answer(feed, slice::from_ref(byte))?;
    }
    Ok(count)
}

/// Whether the feed answers bytes as they are listed.
fn answers_step(feed: &mut Feed, step: &Step) -> bool {
    let (file, first, end, by_bytes, wanted) = *step;
    let Some(bytes) = file.get(first..end) else {
        return false;
    };
    if by_bytes {
        answer_by_bytes(feed, bytes) == wanted
    } else {
        answer(feed, bytes) == wanted
    }
}

/// Whether the feed answers all bytes as they are listed.
fn answers_steps(feed: &mut Feed, steps: &[Step]) -> bool {
    for step in steps {
        if !answers_step(feed, step) {
            return false;
        }
    }
    true
}

/// Whether a new feed answers all bytes as they are listed, and has these bytes then.
fn takes_bytes(alloc: Global, steps: &[Step], bytes: Option<&[u8]>) -> bool {
    let mut feed = Feed::new(alloc);
    answers_steps(&mut feed, steps) && Some(feed.bytes()) == bytes
}

#[test]
fn pieces_are_answered_as_listed(rt: HostRuntime) {
    for (title, steps, file, length) in &ROWS {
        assert!(rt;
            takes_bytes(rt.alloc(), steps, file.get(..*length)),
            "{title}"
        );
    }
}
