//! A module that is read, and parts of which no module is made. Files of every kind of record, and those that are refused, are rows of
//! the program's tests; `tests_records` makes, copies and writes modules.

use omf_core::Name;
use omf_module::{Content, Field, Fixup, Module, Parts, PartsFault, Segment, Target, read_module};
use std::alloc::{AllocError, Global};
use std::test::Fail;

/// A main program `A` with one byte of code, and nothing else.
static HALT: [u8; 32] = [
    0x02, 0x09, 0x00, 0x01, 0x41, 0x00, 0x00, 0x01, 0x01, 0x00, 0x03, 0xAE, // module header
    0x06, 0x05, 0x00, 0x01, 0x00, 0x00, 0x76, 0x7E, // content
    0x04, 0x05, 0x00, 0x01, 0x01, 0x00, 0x00, 0xF5, // module end
    0x0E, 0x01, 0x00, 0xF1, // end of file
];

#[test]
fn a_module_is_read(rt: HostRuntime) -> Result<(), Fail> {
    let (module, after) = read_module(rt.alloc(), &HALT, 0)?;
    assert_eq!(rt; module.start(), Some((1, 0)));
    assert_eq!(rt; after, 28);
    Ok(())
}

/// CODE of four bytes.
#[rattlefmt::skip]
const FOUR: (u8, Segment) = (1, Segment { length: 4, paged: false });

/// Segments and fixups that break a rule: a segment listed twice, a byte that two fixups share, a
/// fixup past the end of the content, an unknown external.
#[rattlefmt::skip]
static BROKEN: [(&[(u8, Segment)], &[Fixup]); 4] = [
    (&[FOUR, FOUR], &[]),
    (&[FOUR], &[
        Fixup { offset: 0, field: Field::Both, target: Target::Segment(1) },
        Fixup { offset: 1, field: Field::Both, target: Target::Segment(1) },
    ]),
    (&[FOUR], &[Fixup { offset: 3, field: Field::Both, target: Target::Segment(1) }]),
    (&[FOUR], &[Fixup { offset: 0, field: Field::Both, target: Target::External(0) }]),
];

/// Four zeros of code, with these fixups.
fn content(alloc: Global, fixups: &[Fixup]) -> Result<Content, AllocError> {
    let bytes = vec![in alloc; 0u8; 4]?;
    let fixups = Vec::from_slice(alloc, fixups)?;
    Ok(Content {
        segment: 1,
        offset: 0,
        bytes,
        fixups,
    })
}

/// The parts of a main program `A` with these segments, four zeros of code and these fixups.
fn parts(alloc: Global, segments: &[(u8, Segment)], fixups: &[Fixup]) -> Result<Parts, Fail> {
    let name = Name::new(alloc, b"A")?;
    let segments = Vec::from_slice(alloc, segments)?;
    let contents = vec![in alloc; content(alloc, fixups)?]?;
    Ok(Parts {
        name,
        segments,
        commons: Vec::new(alloc),
        publics: Vec::new(alloc),
        externals: Vec::new(alloc),
        contents,
        start: Some((1, 0)),
    })
}

/// Why parts are refused, and how many segments come back with them; `None` if a module is made.
fn refusal_of(alloc: Global, parts: Parts) -> Option<(usize, PartsFault)> {
    match Module::from_parts(alloc, parts) {
        Ok(_) => None,
        Err((back, fault)) => Some((back.segments.len(), fault)),
    }
}

#[test]
fn parts_that_break_a_rule_are_refused(rt: HostRuntime) -> Result<(), Fail> {
    for (segments, fixups) in &BROKEN {
        let answer = refusal_of(rt.alloc(), parts(rt.alloc(), segments, fixups)?);
        assert_eq!(rt; answer, Some((segments.len(), PartsFault::Rule)));
    }
    Ok(())
}
