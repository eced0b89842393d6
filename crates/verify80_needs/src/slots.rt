//! The bytes of memory that a state may know, at each address: each has a place among eight, in all states the same.

use crate::program::{ReachedProgram, mark};
use crate::units::Units;
use crate::variables::Variables;
use decode80::{Fetched, Flow, Instr, Operand, Pair};
use std::alloc::{AllocError, Global};
use std::array;
use verify80_spans::ByteSpan;
use verify80_states::{Cell, Cells, entry_at, is_marked};

/// How many bytes a state may know.
const SLOTS: usize = 8;
/// What stands at a place without an address.
const NOWHERE: u16 = u16::MAX;

/// The addresses of the bytes that are known, or are to be known: one for each place.
#[derive(Clone, Copy, PartialEq, Eq)]
pub struct Slots([u16; SLOTS]);

impl Slots {
    /// Slots without an address.
    pub const NONE: Slots = Slots([NOWHERE; SLOTS]);

    /// Whether an address has a place.
    pub fn has(self, address: u16) -> bool {
        address != NOWHERE && self.0.contains(&address)
    }

    /// The slots without the addresses of these bytes.
    pub fn without(self, bytes: Bytes) -> Slots {
        Slots(
            self.0.map(|slot| if bytes.iter().flatten().any(|byte| byte.0 == slot) {
                NOWHERE
            } else {
                slot
            }),
        )
    }

    /// The addresses of two slots: at each place the lower one.
    pub fn and(self, other: Slots) -> Slots {
        Slots(array::from_fn(|place| self.0[place].min(other.0[place])))
    }

    /// The cells of these addresses. What is known of those that are needed comes from cells or else from variables.
    pub fn placed_cells(
        self,
        needed: Slots,
        cells: Cells,
        variables: &Variables,
        set: u64,
    ) -> Cells {
        let each = array::from_fn(|place| match (self.0[place], cells.each[place]) {
            (NOWHERE, _) => Cell::ANY,
            (at, _) if at != needed.0[place] => Cell {
                at,
                bytes: ByteSpan::ANY,
            },
            (at, cell) if cell.at == at && cell.bytes != ByteSpan::ANY => cell,
            (at, _) => Cell {
                at,
                bytes: variables.bytes_at(set, at),
            },
        });
        Cells { each }
    }

    /// Marks these addresses.
    pub fn mark(self, marks: &mut [bool]) {
        for at in &self.0 {
            if *at != NOWHERE {
                mark(marks, *at);
            }
        }
    }
}

/// Bytes of memory that an instruction reads, or stores, by name or through HL: of each its address, and the parts of a state to which it
/// goes, or from which it comes.
pub type Bytes = [Option<(u16, Units)>; 2];

/// The bytes that an instruction reads, given the word that HL is known to be.
pub fn bytes_read(instr: Instr, pointer: Option<u16>) -> Bytes {
    let (address, parts) = match instr {
        Instr::Lhld(address) => {
            let next = address.wrapping_add(1);
            return [Some((address, Units::L)), Some((next, Units::H))];
        }
        Instr::Lda(address) => (Some(address), Units::A.union(Units::TEST)),
        Instr::Load(to) => (pointer, Units::of(to)),
        Instr::InrMemory | Instr::DcrMemory => (pointer, Units::ZERO.union(Units::SIGN)),
        Instr::Operate(_, Operand::Memory) => (
            pointer,
            Units::A.union(Units::CARRY).union(Units::COUNTED),
        ),
        _ => (None, Units::NONE),
    };
    [address.map(|address| (address, parts)), None]
}

/// The bytes that an instruction stores, given the word that HL is known to be.
pub fn bytes_stored(instr: Instr, pointer: Option<u16>) -> Bytes {
    let (address, parts) = match instr {
        Instr::Shld(address) => {
            let next = address.wrapping_add(1);
            return [Some((address, Units::L)), Some((next, Units::H))];
        }
        Instr::Sta(address) => (Some(address), Units::A),
        Instr::Store(register) => (pointer, Units::of(register)),
        Instr::MviMemory(_) | Instr::InrMemory | Instr::DcrMemory => (pointer, Units::HL),
        _ => (None, Units::NONE),
    };
    [address.map(|address| (address, parts)), None]
}

/// By address the place, in turn, of each quiet byte that the program reads by name or through a known pointer; `None` for others.
///
/// # Errors
/// `AllocError` if memory runs out.
pub fn find_places(
    alloc: Global,
    program: ReachedProgram<'_>,
    pointers: &[Option<u16>],
) -> Result<Vec<Option<usize>>, AllocError> {
    let mut is_read = vec![in alloc; false; 65_536]?;
    for number in 0..65_536_u32 {
        let at = number as u16;
        if let Some(instr) = program.instr(at) {
            for (address, _) in bytes_read(instr, entry_at(pointers, at)).iter().flatten() {
                mark(&mut is_read, *address);
            }
        }
    }
    let mut places = vec![in alloc; None; 65_536]?;
    let mut next = 0_usize;
    for (number, place) in places.iter_mut().enumerate() {
        if is_marked(&is_read, number as u16) && is_marked(program.quiet, number as u16) {
            *place = Some(next);
            next = next.wrapping_add(1) % SLOTS;
        }
    }
    Ok(places)
}

/// The addresses of bytes that have a place, each at it, if they go to one of these parts.
pub fn placed(places: &[Option<usize>], bytes: Bytes, parts: Units) -> Slots {
    let Slots(mut slots) = Slots::NONE;
    for (address, to) in bytes.iter().flatten() {
        if parts.intersects(*to)
            && let Some(place) = entry_at(places, *address)
            && let Some(slot) = slots.get_mut(place)
        {
            *slot = *address;
        }
    }
    Slots(slots)
}

/// By address the word that HL is known to be before the instruction there; `None` unless an LXI H stands before it in one piece of code.
///
/// # Errors
/// `AllocError` if memory runs out.
pub fn find_pointers(
    alloc: Global,
    program: ReachedProgram<'_>,
) -> Result<Vec<Option<u16>>, AllocError> {
    let mut pointers = vec![in alloc; None; 65_536]?;
    for number in 0..65_536_u32 {
        if let Some(found) = program.at(number as u16)
            && let Some(word) = pointer_after(found, entry_at(&pointers, number as u16))
            && let Some(place) = pointers.get_mut(usize::from(found.next))
        {
            *place = Some(word);
        }
    }
    Ok(pointers)
}

/// The word that HL is known to be behind an instruction, given the one before it; `None` if it isn't known, or the instruction doesn't go
/// on to the next one.
fn pointer_after(found: Fetched, before: Option<u16>) -> Option<u16> {
    let facts = found.instr.facts();
    match (found.instr, facts.flow) {
        (Instr::Lxi(Pair::Hl, word), _) => Some(word),
        (Instr::Inx(Pair::Hl), _) => Some(before?.wrapping_add(1)),
        (Instr::Dcx(Pair::Hl), _) => Some(before?.wrapping_sub(1)),
        (_, Flow::Continues | Flow::Pushes | Flow::Pops | Flow::JumpsIf(_, _) | Flow::ReturnsIf(_))
            if !facts.writes.includes(Pair::Hl) => before,
        _ => None,
    }
}

/// Cells, of which the one of an address is any of these bytes.
pub fn widened_cells(cells: Cells, address: u16, bytes: ByteSpan) -> Cells {
    Cells {
        each: cells.each.map(|Cell { at, bytes: before }| Cell {
            at,
            bytes: if at == address { bytes } else { before },
        }),
    }
}
