//! States that are joined: what either may be.

use decode80::Register;
use std::array;
use verify80_follow::{Beside, FollowedState, HeldPair};
use verify80_states::{ByteSpan, Cell, Cells, Known, PairSpan, Span};

/// How often a state takes in others as they are.
const JOINS: u32 = 3;
/// How often the words of a pair then grow to whole pages, before they grow to any word.
const PAGES: u32 = 12;

/// Lets a state take in another that is alike, after it has grown this often.
pub(crate) fn grow(state: &mut FollowedState, marks: &[bool], other: &FollowedState, growths: u32) {
    let is_marked = |number: usize| marks.get(number).copied().unwrap_or(false);
    let (old, new) = (state.known, other.known);
    state.known = Known {
        a: grown_bytes(old.a, new.a, growths),
        bc: grown_pair(old.bc, new.bc, growths, is_marked(1)),
        de: grown_pair(old.de, new.de, growths, is_marked(3)),
        hl: grown_pair(old.hl, new.hl, growths, is_marked(5)),
        copy: if old.copy == new.copy {
            old.copy
        } else {
            Register::A
        },
        zero: same(old.zero, new.zero),
        carry: same(old.carry, new.carry),
        sign: same(old.sign, new.sign),
        compared: same(old.compared, new.compared),
        cells: Cells {
            each: array::from_fn(|place| grown_cell(
                old.cells.each[place],
                new.cells.each[place],
                growths,
            )),
        },
        source: same(old.source, new.source),
        set: 0,
    };
    state.beside = grown_beside(state.beside, other.beside);
    if let (Some(bytes), Some(others)) = (&mut state.stack, &other.stack) {
        for (byte, other) in bytes.iter_mut().zip(others.iter()) {
            *byte = grown_bytes(*byte, *other, growths);
        }
    }
}

/// What is said beside both of two states.
fn grown_beside(old: Beside, new: Beside) -> Beside {
    Beside {
        is_enabled: old.is_enabled || new.is_enabled,
        psw: grown_held(old.psw, new.psw),
        bc: grown_held(old.bc, new.bc),
        de: grown_held(old.de, new.de),
        hl: grown_held(old.hl, new.hl),
        back: same(old.back, new.back),
    }
}

/// What is said of a pair in both of two states.
fn grown_held(old: HeldPair, new: HeldPair) -> HeldPair {
    HeldPair {
        in_place: old.in_place && new.in_place,
        saved: same(old.saved, new.saved),
    }
}

/// What one of two cells says.
fn grown_cell(old: Cell, new: Cell, growths: u32) -> Cell {
    if old.at != new.at {
        return Cell::ANY;
    }
    Cell {
        at: old.at,
        bytes: grown_bytes(old.bytes, new.bytes, growths),
    }
}

/// The bytes of two spans.
fn grown_bytes(old: ByteSpan, new: ByteSpan, growths: u32) -> ByteSpan {
    if new.is_inside(old) {
        old
    } else if growths < JOINS {
        ByteSpan::new(old.first.min(new.first), old.last.max(new.last))
    } else {
        ByteSpan::ANY
    }
}

/// What either of two pairs may be; their high byte stays, if it is marked.
fn grown_pair(old: PairSpan, new: PairSpan, growths: u32, is_marked: bool) -> PairSpan {
    let hull = old.words.hull(new.words);
    let pages = Span::of_halves(hull.high(), ByteSpan::ANY);
    let words = if new.words.is_inside(old.words) || growths < JOINS {
        hull
    } else if is_marked || growths < JOINS + PAGES {
        pages
    } else {
        Span::ANY
    };
    PairSpan {
        words,
        low: grown_bytes(old.low, new.low, growths),
    }
}

/// What two states know of a part, if they know the same.
fn same<T: Copy + PartialEq>(old: Option<T>, new: Option<T>) -> Option<T> {
    if old == new { old } else { None }
}

/// Whether a state says all that another does at the same address, with as many bytes on the stack.
pub(crate) fn is_inside(inner: &FollowedState, outer: &FollowedState) -> bool {
    let (bytes, others) = (inner.bytes().unwrap_or(&[]), outer.bytes().unwrap_or(&[]));
    inner.known.is_inside(outer.known, &[])
        && inner.beside.is_inside(outer.beside)
        && bytes
            .iter()
            .zip(others.iter())
            .all(|(byte, other)| byte.is_inside(*other))
}
