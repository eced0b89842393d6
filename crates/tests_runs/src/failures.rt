//! Sessions and bundles whose readers or writers fail, or never end.

ghost use Rattle.std.specs.Prelude.{◌≡◌};

use crate::outside::{ByteSink, ByteSource};
use crate::pushing::{IMAGE, INPUTS, REGIONS, TRANSCRIPT};
use loader80::{SessionFault, Source, session};
use loader80_text::{BundleFault, bundle};
use std::alloc::{AllocError, Global};
use std::test::Fail;

/// The fault of a session whose writer has room for `room` bytes, and the bytes that are written.
/// Once the room is used up a write fails if `fails` is set, and else takes no byte.
fn write_until_full(
    alloc: Global,
    room: usize,
    fails: bool,
) -> Result<(Option<SessionFault>, Vec<u8>), AllocError> {
    // The writer never wants memory: if it fails there is no room.
    let taken = Vec::with_capacity(alloc, room)?;
    let mut image = ByteSource::new(&IMAGE, usize::MAX, false);
    let mut regions = ByteSource::new(REGIONS, usize::MAX, false);
    let mut inputs = ByteSource::new(INPUTS, usize::MAX, false);
    let mut out = ByteSink::new(taken, room, fails);
    let answer = session(
        alloc,
        &mut image,
        &mut regions,
        &mut inputs,
        &mut out,
        1_000_000,
        65_536,
    );
    Ok((answer.err(), out.taken))
}

/// A write fails, or takes no byte, after each prefix of the transcript: that prefix is written.
#[test]
fn a_failed_write_leaves_the_bytes_before_it(rt: HostRuntime) -> Result<(), Fail> {
    for place in 0..TRANSCRIPT.len() {
        for fails in [true, false] {
            let (fault, written) = write_until_full(rt.alloc(), place, fails)?;
            assert_eq!(rt; fault, Some(SessionFault::Write));
            assert_eq!(rt; Some(written.as_slice()), TRANSCRIPT.get(..place));
        }
    }
    Ok(())
}

/// A source of the bytes of `text`. If it is the odd one, all reads fail after the first `reads`,
/// or it is endless and has line feeds alone.
fn source<'a>(text: &'a [u8], is_odd: bool, reads: usize, is_endless: bool) -> ByteSource<'a>
    ensures { ⟦<ByteSource<'a> as Source>⟧.failed result ≡ 0 }
{
    let text: &[u8] = if is_odd && is_endless { &[] } else { text };
    let reads = if is_odd { reads } else { usize::MAX };
    ByteSource::new(text, reads, is_odd && is_endless)
}

/// The fault of a session of which text `number` (1 the image, 2 the regions, 3 the inputs) is
/// odd: a read of it fails after `reads` reads, or it is endless. And how many bytes are written.
fn fault_of_text(
    alloc: Global,
    number: u8,
    reads: usize,
    is_endless: bool,
) -> (Option<SessionFault>, usize) {
    let mut image = source(&IMAGE, number == 1, reads, is_endless);
    let mut regions = source(REGIONS, number == 2, reads, is_endless);
    let mut inputs = source(INPUTS, number == 3, reads, is_endless);
    let mut out = ByteSink::new(Vec::new(alloc), usize::MAX, true);
    let answer = session(
        alloc,
        &mut image,
        &mut regions,
        &mut inputs,
        &mut out,
        1_000_000,
        65_536,
    );
    (answer.err(), out.taken.len())
}

/// The first read of a text fails, a later one, or the one that would find the end of the inputs.
#[test]
fn a_failed_read_names_its_text(rt: HostRuntime) {
    for number in 1..=3u8 {
        for reads in [0, 1, INPUTS.len()] {
            let expected = (Some(SessionFault::Read(number)), 0);
            assert_eq!(rt; fault_of_text(rt.alloc(), number, reads, false), expected);
        }
    }
}

#[test]
fn a_text_without_end_is_too_long(rt: HostRuntime) {
    for number in 1..=3u8 {
        let expected = (Some(SessionFault::TooLong(number)), 0);
        assert_eq!(rt;
            fault_of_text(rt.alloc(), number, usize::MAX, true),
            expected
        );
    }
}

/// The fault of a bundle of which a read fails after `reads` reads, or which is endless, and how
/// many bytes are written.
fn fault_of_bundle(alloc: Global, reads: usize, is_endless: bool) -> (Option<BundleFault>, usize) {
    let mut source = source(REGIONS, true, reads, is_endless);
    let mut out = ByteSink::new(Vec::new(alloc), usize::MAX, true);
    let answer = bundle(alloc, &mut source, &mut out, 1_000_000, 65_536);
    (answer.err(), out.taken.len())
}

/// Reads of a bundle that succeed, whether it is endless, and its fault: the first read fails, the
/// second, or none.
#[rattlefmt::skip]
static BUNDLES: [(usize, bool, SessionFault); 3] = [
    (0, false, SessionFault::Read(1)),
    (1, false, SessionFault::Read(1)),
    (usize::MAX, true, SessionFault::TooLong(1)),
];

#[test]
fn a_bundle_that_fails_or_never_ends_is_named(rt: HostRuntime) {
    for (reads, is_endless, fault) in &BUNDLES {
        let expected = (Some(BundleFault::Session(*fault)), 0);
        assert_eq!(rt; fault_of_bundle(rt.alloc(), *reads, *is_endless), expected);
    }
}
