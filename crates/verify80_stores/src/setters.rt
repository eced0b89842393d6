//! The nearest instructions that set a register or a pair, by ways of the program. This is a search, of which nothing is promised.

use crate::ways::{Nearest, Ways};
use decode80::{Instr, Pair, Register, Writes};
use std::alloc::{AllocError, Global};
use verify80_proposals::{Groups, ReachedProgram};
use verify80_states::entry_at;

/// A pair, or A.
#[derive(Clone, Copy)]
pub(crate) enum Place {
    Pair(Pair),
    Accumulator,
}

impl Place {
    /// The pair that a register is a half of, or A.
    pub fn of(register: Register) -> Place {
        match register {
            Register::A => Place::Accumulator,
            Register::B | Register::C => Place::Pair(Pair::Bc),
            Register::D | Register::E => Place::Pair(Pair::De),
            Register::H | Register::L => Place::Pair(Pair::Hl),
        }
    }

    /// Whether an instruction writes this place, or a half of it.
    fn is_written(self, instr: Instr) -> bool {
        match self {
            Place::Pair(pair) => instr.writes().includes(pair),
            Place::Accumulator => instr.writes() == Writes::One(Register::A),
        }
    }

    /// Whether an instruction leaves this place as it is, or counts it.
    fn is_left(self, instr: Instr) -> bool {
        !self.is_written(instr) || is_count(instr)
    }
}

/// Whether an instruction is an LXI.
fn is_load(instr: Instr) -> bool {
    matches!(instr, Instr::Lxi(_, _))
}

/// Whether an instruction is an INX or a DCX.
fn is_count(instr: Instr) -> bool {
    matches!(instr, Instr::Inx(_) | Instr::Dcx(_))
}

/// By address the instructions that set each pair, and A.
#[derive(Drop)]
pub(crate) struct Setters<'a> {
    program: ReachedProgram<'a>,
    bc: PlaceSetters,
    de: PlaceSetters,
    hl: PlaceSetters,
    accumulator: PlaceSetters,
}

/// By address the instructions that set a place.
#[derive(Drop)]
struct PlaceSetters {
    /// An LXI only if nothing else is found; and so an INX or a DCX.
    set: Nearest,
    /// An LXI from which the place comes by INX, DCX and DAD.
    loaded: Nearest,
}

impl<'a> Setters<'a> {
    /// The setters of a program.
    ///
    /// # Errors
    /// `AllocError` if memory runs out.
    pub fn new(
        alloc: Global,
        program: ReachedProgram<'a>,
        groups: &Groups,
    ) -> Result<Setters<'a>, AllocError> {
        Ok(Setters {
            program,
            bc: PlaceSetters::new(alloc, program, groups, Place::Pair(Pair::Bc))?,
            de: PlaceSetters::new(alloc, program, groups, Place::Pair(Pair::De))?,
            hl: PlaceSetters::new(alloc, program, groups, Place::Pair(Pair::Hl))?,
            accumulator: PlaceSetters::new(alloc, program, groups, Place::Accumulator)?,
        })
    }

    /// The setters of one place.
    fn of(&self, place: Place) -> &PlaceSetters {
        match place {
            Place::Pair(Pair::Bc) => &self.bc,
            Place::Pair(Pair::De) => &self.de,
            Place::Pair(Pair::Hl | Pair::Sp) => &self.hl,
            Place::Accumulator => &self.accumulator,
        }
    }

    /// The instruction that sets a place before an address, and its own address; `None` if nothing does since the program begins.
    pub fn setter(&self, at: u16, place: Place) -> Option<(u16, Instr)> {
        let by = entry_at(&self.of(place).set, at)?;
        Some((by, self.program.instr(by)?))
    }

    /// The word that an LXI loads, from which a pair comes before an address by INX, DCX and DAD; `None` if there is no such LXI.
    pub fn loaded(&self, at: u16, pair: Pair) -> Option<u16> {
        let by = entry_at(&self.of(Place::Pair(pair)).loaded, at)?;
        match self.program.instr(by)? {
            Instr::Lxi(_, word) => Some(word),
            _ => None,
        }
    }
}

impl PlaceSetters {
    /// The setters of a place in a program.
    ///
    /// # Errors
    /// `AllocError` if memory runs out.
    fn new(
        alloc: Global,
        program: ReachedProgram<'_>,
        groups: &Groups,
        place: Place,
    ) -> Result<PlaceSetters, AllocError> {
        let mut set = Ways::new(alloc, program, groups)?;
        set.spread(
            |_, instr| place.is_written(instr) && !is_load(instr) && !is_count(instr),
            |instr| place.is_left(instr),
        )?;
        set.spread(
            |_, instr| place.is_written(instr) && is_count(instr),
            |instr| place.is_left(instr),
        )?;
        set.spread(
            |_, instr| place.is_written(instr),
            |instr| place.is_left(instr),
        )?;
        let mut loaded = Ways::new(alloc, program, groups)?;
        loaded.spread(
            |_, instr| place.is_written(instr) && is_load(instr),
            |instr| place.is_left(instr) || matches!(instr, Instr::Dad(_)),
        )?;
        Ok(PlaceSetters {
            set: set.found,
            loaded: loaded.found,
        })
    }
}
