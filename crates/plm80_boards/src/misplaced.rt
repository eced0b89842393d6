//! Where the regions of an image don't lie as a board has memory, in words.

use crate::given_board::GivenBoard;
use board80::{Board, Kind, Line};
use image80::{Range, Regions};
use plm80_console::{Console, Reported};
use std::alloc::{AllocError, Global};

/// How many addresses there are.
const ADDRESSES: usize = 65_536;

/// A kind of regions.
#[derive(Clone, Copy)]
enum Region {
    Code,
    Stack,
    Data,
}

impl Region {
    /// The word of its lines in a text of regions.
    fn keyword(self) -> &'static str {
        match self {
            Region::Code => "CODE",
            Region::Stack => "STACK",
            Region::Data => "DATA",
        }
    }

    /// The kinds of memory in which it may lie, in words.
    fn places(self) -> &'static str {
        match self {
            Region::Code => "ROM or RAM",
            Region::Stack => "RAM",
            Region::Data => "RAM or DEVICE",
        }
    }

    /// Whether the region may lie in memory of a kind; `None` stands for no memory.
    fn may_lie_in(self, kind: Option<Kind>) -> bool {
        match (self, kind) {
            (Region::Code, Some(Kind::Rom) | Some(Kind::Ram)) => true,
            (Region::Stack, Some(Kind::Ram)) => true,
            (Region::Data, Some(Kind::Ram) | Some(Kind::Device)) => true,
            _ => false,
        }
    }
}

/// A range of regions, and its first address at which the board has no memory for it.
#[derive(Clone, Copy)]
struct Misplaced {
    region: Region,
    range: Range,
    at: u16,
}

/// Of code, stack and data the first range that doesn't lie as a board has memory, if there is one.
#[derive(Clone, Copy)]
pub struct MisplacedRegions {
    code: Option<Misplaced>,
    stack: Option<Misplaced>,
    data: Option<Misplaced>,
}

impl GivenBoard {
    /// Where these regions don't lie as the board has memory; nowhere without a board or if that has neither ROM nor RAM, nor if memory
    /// runs out.
    pub fn misplaced(&self, alloc: Global, regions: &Regions) -> MisplacedRegions {
        let memory = match &self.board {
            Some(board) if has_memory(board) => memory_of(alloc, board).ok(),
            _ => None,
        };
        match memory {
            Some(memory) => MisplacedRegions {
                code: first_misplaced(&memory, Region::Code, regions.code()),
                stack: first_misplaced(&memory, Region::Stack, &[regions.stack()]),
                data: first_misplaced(&memory, Region::Data, regions.data_ranges()),
            },
            None => MisplacedRegions {
                code: None,
                stack: None,
                data: None,
            },
        }
    }
}

impl MisplacedRegions {
    /// Says where regions don't lie as the board has memory, if a command has `given` its answer.
    pub fn remark<C: Console>(self, console: &C, given: &Result<u8, Reported>) {
        if given.is_ok() {
            remark_misplaced(console, self.code);
            remark_misplaced(console, self.stack);
            remark_misplaced(console, self.data);
        }
    }
}

/// Says that a range doesn't lie as the board has memory, if there is one.
fn remark_misplaced<C: Console>(console: &C, misplaced: Option<Misplaced>) {
    if let Some(Misplaced { region, range, at }) = misplaced {
        let (keyword, places) = (region.keyword(), region.places());
        let (first, length) = (range.first, range.length);
        console.remark(format_args!(
            "{keyword} {first:04X} {length:04X}: {at:04X} is in no {places} of the board"
        ));
    }
}

/// The first of these ranges, all of this kind, that has an address at which it may not lie, with this address; `None` if there is none.
fn first_misplaced(memory: &[Option<Kind>], region: Region, ranges: &[Range]) -> Option<Misplaced> {
    for range in ranges {
        if let Some(at) = first_outside(memory, region, *range) {
            return Some(Misplaced {
                region,
                range: *range,
                at,
            });
        }
    }
    None
}

/// The first address of a range at which it may not lie; `None` if there is none.
fn first_outside(memory: &[Option<Kind>], region: Region, range: Range) -> Option<u16> {
    for offset in 0..range.length {
        let at = range.first.wrapping_add(offset);
        let kind = memory.get(usize::from(at)).copied().unwrap_or(None);
        if !region.may_lie_in(kind) {
            return Some(at);
        }
    }
    None
}

/// Whether a board has ROM or RAM.
fn has_memory(board: &Board) -> bool {
    board.lines().iter().any(|line| matches!(line, Line::Memory(Kind::Rom | Kind::Ram, _)))
}

/// What a board has at each address.
fn memory_of(alloc: Global, board: &Board) -> Result<Vec<Option<Kind>>, AllocError> {
    let mut memory = vec![in alloc; None; ADDRESSES]?;
    for line in board.lines() {
        if let Line::Memory(kind, range) = line {
            mark(&mut memory, *kind, *range);
        }
    }
    Ok(memory)
}

/// Marks the addresses of a range as memory of this kind.
fn mark(memory: &mut Vec<Option<Kind>>, kind: Kind, range: Range) {
    let first = usize::from(range.first);
    for at in first..first + usize::from(range.length) {
        if let Some(cell) = memory.get_mut(at) {
            *cell = Some(kind);
        }
    }
}
