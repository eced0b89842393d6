//! The numbers to which spans grow.

use crate::program::ReachedProgram;
use decode80::{Instr, Operand};
use image80::RegionMap;
use std::alloc::{AllocError, Global};
use std::array;
use verify80_states::{ByteSpan, Cell, Cells, Known, PairSpan, Span, State, Words};

/// How often a state takes in others as they are.
const JOINS: u32 = 4;
/// How often it then grows from landmark to landmark, before it grows to any word: once for each page of memory and some more.
const STEPS: u32 = 300;

/// The numbers at which growing spans begin, and before which they end: ends of data, of pages, and what the program names. Both lists
/// are ascending.
#[derive(Drop)]
pub struct Landmarks {
    words: Vec<u16>,
    bytes: Vec<u16>,
}

impl Landmarks {
    /// The landmarks of a program.
    ///
    /// # Errors
    /// `AllocError` if memory runs out.
    pub fn new(alloc: Global, program: ReachedProgram<'_>) -> Result<Landmarks, AllocError> {
        let map = RegionMap::new(alloc, program.regions)?;
        let mut words = Vec::new(alloc);
        let mut bytes = Vec::new(alloc);
        for number in 0..65_536_u32 {
            let at = number as u16;
            if at % 256 == 0 || map.is_data(at) != map.is_data(at.wrapping_sub(1)) {
                words.push(at)?;
            }
            match program.instr(at) {
                Some(Instr::Lxi(_, word)) => push_named(&mut words, word)?,
                Some(
                    Instr::Operate(_, Operand::Immediate(byte))
                    | Instr::Mvi(_, byte)
                    | Instr::MviMemory(byte),
                ) => push_named(&mut bytes, u16::from(byte))?,
                _ => {}
            }
        }
        words.sort_unstable();
        bytes.sort_unstable();
        Ok(Landmarks { words, bytes })
    }

    /// A state with all that two states may be, whose cells have the same addresses. The ends of its spans go on to landmarks if it has grown
    /// this often.
    pub fn grown(&self, old: State, new: State, growths: u32) -> State {
        State {
            known: self.grown_known(old.known, new.known, growths),
            words: Words {
                first: self.grown_word(old.words.first, new.words.first, growths),
                second: self.grown_word(old.words.second, new.words.second, growths),
                third: self.grown_word(old.words.third, new.words.third, growths),
                fourth: self.grown_word(old.words.fourth, new.words.fourth, growths),
            },
        }
    }

    /// All that either may be, the ends of its spans going on to landmarks if it has grown this often.
    fn grown_known(&self, old: Known, new: Known, growths: u32) -> Known {
        Known {
            a: self.grown_bytes(old.a, new.a, growths),
            bc: self.grown_pair(old.bc, new.bc, growths),
            de: self.grown_pair(old.de, new.de, growths),
            hl: self.grown_pair(old.hl, new.hl, growths),
            copy: if old.copy == new.copy {
                old.copy
            } else {
                Known::ANY.copy
            },
            source: same(old.source, new.source),
            set: old.set & new.set,
            zero: same(old.zero, new.zero),
            carry: same(old.carry, new.carry),
            sign: same(old.sign, new.sign),
            compared: same(old.compared, new.compared),
            cells: Cells {
                each: array::from_fn(|place| Cell {
                    bytes: self.grown_bytes(
                        old.cells.each[place].bytes,
                        new.cells.each[place].bytes,
                        growths,
                    ),
                    ..old.cells.each[place]
                }),
            },
        }
    }

    /// The bytes of two spans. The ends go on to landmarks if what they belong to has grown this often.
    pub fn grown_bytes(&self, old: ByteSpan, new: ByteSpan, growths: u32) -> ByteSpan {
        let words = grown(&self.bytes, words_of(old), words_of(new), growths);
        ByteSpan {
            first: words.first.min(255) as u8,
            last: words.last.min(255) as u8,
        }
    }

    /// The words of two spans of a pair.
    fn grown_pair(&self, old: PairSpan, new: PairSpan, growths: u32) -> PairSpan {
        PairSpan {
            words: grown(&self.words, old.words, new.words, growths),
            low: self.grown_bytes(old.low, new.low, growths),
        }
    }

    /// What two words on the stack may be, if both are known.
    fn grown_word(
        &self,
        old: Option<PairSpan>,
        new: Option<PairSpan>,
        growths: u32,
    ) -> Option<PairSpan> {
        Some(self.grown_pair(old?, new?, growths))
    }
}

/// Appends a number that the program names, at which spans begin, or before which they end; and the next one.
fn push_named(landmarks: &mut Vec<u16>, named: u16) -> Result<(), AllocError> {
    landmarks.push(named)?;
    landmarks.push(named.saturating_add(1))?;
    Ok(())
}

/// A span of bytes as one of words.
fn words_of(bytes: ByteSpan) -> Span {
    Span {
        first: u16::from(bytes.first),
        last: u16::from(bytes.last),
    }
}

/// The words of two spans. An end that has moved goes on to a landmark if what it belongs to has grown this often, and in the end to any
/// word.
fn grown(landmarks: &[u16], old: Span, new: Span, growths: u32) -> Span {
    let hull = old.hull(new);
    if growths < JOINS {
        return hull;
    }
    let landmarks: &[u16] = if growths > STEPS { &[] } else { landmarks };
    let below = landmarks.partition_point(|landmark| *landmark <= hull.first);
    let above = landmarks.partition_point(|landmark| *landmark <= hull.last);
    Span {
        first: if hull.first == old.first {
            old.first
        } else {
            landmarks.get(below.wrapping_sub(1)).copied().unwrap_or(0)
        },
        last: if hull.last == old.last {
            old.last
        } else {
            landmarks.get(above).copied().unwrap_or(0).wrapping_sub(1)
        },
    }
}

/// What two states know of a part, if they know the same.
fn same<T: Copy + PartialEq>(old: Option<T>, new: Option<T>) -> Option<T> {
    if old == new { old } else { None }
}
