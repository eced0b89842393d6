//! Why nothing is known of the pair of a store or a jump. This is a search, of which nothing is promised.

use crate::loops::unknown_ends;
use crate::setters::{Place, Setters};
use crate::ways::find_marked;
use decode80::{IndexPair, Instr, Operand, Pair};
use image80::{Image, Range};
use std::alloc::{AllocError, Global};
use verify80_proposals::{Groups, ReachedProgram, SearchNotes};
use verify80_states::{entry_at, is_quiet};

/// Why nothing is known of a pair.
#[derive(Clone, Copy, PartialEq, Eq)]
pub enum Reason {
    /// The pair comes from the byte of data at this address, which isn't quiet.
    NotQuiet(u16),
    /// The pair comes from the byte of the image at this address, which is outside CODE, as of a table.
    NotCode(u16),
    /// The pair is counted in a loop that ends by what isn't known alone, as an input: at this jump or return.
    UnknownEnd(u16),
    /// Too many states came to this address, where they were joined.
    TooManyStates(u16),
    /// Too many ways would have to be followed.
    TooManyWays,
}

/// How many instructions a value is followed back through, at most.
const MOST: usize = 16;

/// What explains why nothing is known of a pair: a program's memory, its setters, and the search for its states.
#[derive(Drop)]
pub(crate) struct Reasons<'a> {
    image: &'a Image,
    /// The ranges of data that are quiet.
    quiet: &'a [Range],
    setters: Setters<'a>,
    /// What was noted of the search; `None` if too many ways would have to be followed.
    noted: Option<Noted>,
}

/// What the notes of a search say at each address.
#[derive(Drop)]
struct Noted {
    /// The nearest address before it at which states were joined.
    joined: Vec<Option<u16>>,
    /// What ends the loop there in which BC is counted, if that isn't known; and so for DE and HL.
    bc_ends: Vec<Option<u16>>,
    de_ends: Vec<Option<u16>>,
    hl_ends: Vec<Option<u16>>,
}

impl Noted {
    /// What the notes of a search say.
    ///
    /// # Errors
    /// `AllocError` if memory runs out.
    fn new(
        alloc: Global,
        program: ReachedProgram<'_>,
        groups: &Groups,
        notes: &SearchNotes,
    ) -> Result<Noted, AllocError> {
        Ok(Noted {
            joined: find_marked(alloc, program, groups, &notes.joined)?,
            bc_ends: unknown_ends(alloc, program, notes, Pair::Bc)?,
            de_ends: unknown_ends(alloc, program, notes, Pair::De)?,
            hl_ends: unknown_ends(alloc, program, notes, Pair::Hl)?,
        })
    }

    /// What ends the loop at an address in which a pair is counted, if that isn't known.
    fn unknown_end(&self, at: u16, pair: Pair) -> Option<u16> {
        match pair {
            Pair::Bc => entry_at(&self.bc_ends, at),
            Pair::De => entry_at(&self.de_ends, at),
            Pair::Hl | Pair::Sp => entry_at(&self.hl_ends, at),
        }
    }
}

impl<'a> Reasons<'a> {
    /// The reasons of a program, of whose search these notes were made.
    ///
    /// # Errors
    /// `AllocError` if memory runs out.
    pub fn new(
        alloc: Global,
        image: &'a Image,
        quiet: &'a [Range],
        program: ReachedProgram<'a>,
        groups: &Groups,
        search: &Option<SearchNotes>,
    ) -> Result<Reasons<'a>, AllocError> {
        let noted = match search {
            Some(notes) => Some(Noted::new(alloc, program, groups, notes)?),
            None => None,
        };
        Ok(Reasons {
            image,
            quiet,
            setters: Setters::new(alloc, program, groups)?,
            noted,
        })
    }

    /// The address of the instruction that sets a pair before an address; `None` if nothing does since the program begins.
    pub fn setter(&self, at: u16, pair: Pair) -> Option<u16> {
        self.setters.setter(at, Place::Pair(pair)).map(|(by, _)| by)
    }

    /// Why nothing is known of a pair before an address; `None` if that isn't seen.
    pub fn reason(&self, at: u16, pair: Pair) -> Option<Reason> {
        let mut here = Some((at, Place::Pair(pair)));
        let mut added = None;
        for _ in 0..MOST {
            let Some((at, place)) = here else {
                break;
            };
            let Some((by, instr)) = self.unknown_setter(at, place) else {
                here = added;
                added = None;
                continue;
            };
            if let Some(reason) = self.read_by(by, instr) {
                return Some(reason);
            }
            if let Instr::Dad(pair) = instr {
                added = Some((by, Place::Pair(pair)));
            }
            here = match instr {
                Instr::In(_) | Instr::Pop(_) | Instr::Xthl => return None,
                // Something is known of the memory that is read.
                Instr::Lda(_) | Instr::Ldax(_) | Instr::Lhld(_) | Instr::Load(_) => None,
                Instr::Mov(_, from) => Some((by, Place::of(from))),
                Instr::Xchg => Some((by, exchanged(place))),
                _ => Some((by, place)),
            };
        }
        self.search_reason(at, pair)
    }

    /// Why the search doesn't know a pair before an address; `None` if that isn't seen.
    fn search_reason(&self, at: u16, pair: Pair) -> Option<Reason> {
        let Some(noted) = &self.noted else {
            return Some(Reason::TooManyWays);
        };
        let setter = self.setter(at, pair);
        match setter.and_then(|by| noted.unknown_end(by, pair)) {
            Some(end) => Some(Reason::UnknownEnd(end)),
            None => Some(Reason::TooManyStates(entry_at(&noted.joined, at)?)),
        }
    }

    /// The instruction that sets a place before an address to what isn't known, and its own address.
    fn unknown_setter(&self, at: u16, place: Place) -> Option<(u16, Instr)> {
        match self.setters.setter(at, place)? {
            (_, Instr::Inx(_) | Instr::Dcx(_) | Instr::Lxi(_, _)) => None,
            setter => Some(setter),
        }
    }

    /// Why nothing is known of the memory that the instruction at an address reads; `None` if it reads none, or something is known.
    fn read_by(&self, at: u16, instr: Instr) -> Option<Reason> {
        match instr {
            Instr::Lda(address) => self.unknown(address),
            Instr::Lhld(address) => self
                .unknown(address)
                .or(self.unknown(address.wrapping_add(1))),
            Instr::Load(_) | Instr::Operate(_, Operand::Memory) => self.pointed(at, Pair::Hl),
            Instr::Ldax(IndexPair::Bc) => self.pointed(at, Pair::Bc),
            Instr::Ldax(IndexPair::De) => self.pointed(at, Pair::De),
            _ => None,
        }
    }

    /// Why nothing is known of the memory that a pair points to before an address. Of that only the byte at the word of an LXI is read:
    /// the LXI from which the pair comes by INX, DCX and DAD, or if there is none and a DAD set it, the one from which the added pair
    /// comes. `None` if there is neither, or if that byte is of CODE, quiet or no byte of the image.
    fn pointed(&self, at: u16, pair: Pair) -> Option<Reason> {
        if let Some(word) = self.setters.loaded(at, pair) {
            return self.unknown(word);
        }
        match self.setters.setter(at, Place::Pair(pair))? {
            (by, Instr::Dad(added)) => self.unknown(self.setters.loaded(by, added)?),
            _ => None,
        }
    }

    /// Why nothing is known of the byte at an address; `None` if it is of CODE, quiet or no byte of the image.
    fn unknown(&self, at: u16) -> Option<Reason> {
        let image = self.image;
        let regions = &image.regions;
        if regions.in_code(at) || is_quiet(regions, self.quiet, at) {
            None
        } else if regions.in_data(at) {
            Some(Reason::NotQuiet(at))
        } else if has_byte(image, at) {
            Some(Reason::NotCode(at))
        } else {
            None
        }
    }
}

/// Whether an image has a byte at an address.
fn has_byte(image: &Image, at: u16) -> bool {
    image.chunks.iter().any(|chunk| usize::from(at.wrapping_sub(chunk.address)) < chunk.bytes.len())
}

/// The pair with which XCHG exchanges a place.
fn exchanged(place: Place) -> Place {
    match place {
        Place::Pair(Pair::Hl) => Place::Pair(Pair::De),
        _ => Place::Pair(Pair::Hl),
    }
}
