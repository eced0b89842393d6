//! The program that states are proposed for, and its ways.

use decode80::{Fetched, Flow, Instr};
use image80::{Image, Regions};
use verify80_states::{Known, PairSpan, Span, State, entry_at, is_marked, state_after, targets_at};

/// A program: its code, its instructions that may be reached, and which of its procedures return.
#[derive(Clone, Copy)]
pub struct ReachedProgram<'a> {
    /// The byte of code at each address: by address, 65,536 places.
    pub code: &'a [Option<u8>],
    /// The instruction at each address that the program may reach, and the address after it: by address, 65,536 places.
    pub instructions: &'a [Option<Fetched>],
    /// By address whether the procedure that runs there may return.
    pub may_return: &'a [bool],
    /// By address whether the states at the returns of the procedure that runs there are to know where to.
    pub know_return: &'a [bool],
    /// The group of each address: by address, 65,536 places.
    pub groups: &'a [u16],
    /// The address of the first instruction.
    pub start: u16,
    /// Where data is, and the targets of each PCHL.
    pub regions: &'a Regions,
    /// Whether nobody but the program writes to an address: by address, 65,536 places.
    pub quiet: &'a [bool],
}

impl<'a> ReachedProgram<'a> {
    /// The program of an image, of whose groups and returns nothing is known yet.
    pub fn new(
        image: &'a Image,
        instructions: &'a [Option<Fetched>],
        code: &'a [Option<u8>],
        quiet: &'a [bool],
    ) -> ReachedProgram<'a> {
        ReachedProgram {
            code,
            instructions,
            may_return: &[],
            know_return: &[],
            groups: &[],
            start: image.start,
            regions: &image.regions,
            quiet,
        }
    }

    /// Whether each state at a return of the procedure that runs at an address is to know where that return goes.
    pub fn must_know_return(self, at: u16) -> bool {
        is_marked(self.know_return, at)
    }

    /// The instruction at an address and the address behind it, if the program may reach it.
    pub fn at(self, address: u16) -> Option<Fetched> {
        entry_at(self.instructions, address)
    }

    /// The instruction at an address alone, if the program may reach it.
    pub fn instr(self, address: u16) -> Option<Instr> {
        let Fetched { instr, .. } = self.at(address)?;
        Some(instr)
    }

    /// The number of the group at an address.
    pub fn group(self, address: u16) -> u16 {
        self.groups.get(usize::from(address)).copied().unwrap_or(0)
    }

    /// The targets that are declared for the PCHL at an address.
    pub fn targets(self, address: u16) -> &'a [u16] {
        targets_at(self.regions, address)
    }

    /// Where the instruction at an address leads inside its procedure: past a CALL that is taken it leads nowhere. The second list has the
    /// targets of a PCHL.
    pub fn ways_inside(self, at: u16, found: Fetched) -> ([Option<u16>; 2], &'a [u16]) {
        let next = Some(found.next);
        match found.instr.flow() {
            Flow::Jumps(to) => ([Some(to), None], &[]),
            Flow::JumpsIf(_, to) => ([next, Some(to)], &[]),
            Flow::JumpsToHl => ([None, None], self.targets(at)),
            Flow::Calls(_) | Flow::Returns | Flow::Halts => ([None, None], &[]),
            _ => ([next, None], &[]),
        }
    }

    /// How many ways the instruction at an address has, each with a hint of its own.
    pub fn count_ways(self, at: u16, instr: Instr) -> usize {
        match instr.flow() {
            Flow::Halts => 0,
            Flow::JumpsIf(_, _) | Flow::Calls(_) | Flow::ReturnsIf(_) => 2,
            Flow::CallsIf(_, _) => 3,
            Flow::JumpsToHl => self.targets(at).len(),
            _ => 1,
        }
    }

    /// Where the way with this number leads from a state, and with what; `None` if the state can't go that way.
    pub fn way(self, at: u16, found: Fetched, state: State, number: usize) -> Option<(u16, State)> {
        let Fetched { instr, next } = found;
        let (to, taken, left) = match instr.flow() {
            Flow::Halts => return None,
            Flow::Returns => (self.return_address(at, state)?, true, state),
            Flow::ReturnsIf(condition) if number > 0 => {
                let left = state.given(condition, true)?;
                (self.return_address(at, left)?, true, left)
            }
            Flow::Calls(entry) | Flow::CallsIf(_, entry)
                if number.saturating_add(1) >= self.count_ways(at, instr) => {
                return self.way_behind_call(entry, next, state.known.set);
            }
            Flow::JumpsIf(condition, to) | Flow::CallsIf(condition, to) if number == 0 => {
                (to, true, state.given(condition, true)?)
            }
            Flow::JumpsIf(condition, _)
            | Flow::CallsIf(condition, _)
            | Flow::ReturnsIf(condition) => { (next, false, state.given(condition, false)?) }
            Flow::Calls(to) => (to, true, state),
            Flow::Jumps(to) => (to, false, state),
            Flow::JumpsToHl => {
                let to = *self.targets(at).get(number)?;
                if !Span::alone(to).is_inside(state.known.hl.words) {
                    return None;
                }
                (to, false, state)
            }
            Flow::Continues | Flow::Pushes | Flow::Pops | Flow::Exchanges => (next, false, state),
        };
        // Before a HLT nothing has to be known.
        let after = match self.instr(to) {
            Some(Instr::Hlt) => State::ANY,
            _ => state_after(self.code, instr, taken, next, left),
        };
        Some((to, after))
    }

    /// The way behind a call, with nothing but the variables known there; `None` unless the callee may return and its states don't know
    /// where to.
    fn way_behind_call(self, entry: u16, next: u16, set: u64) -> Option<(u16, State)> {
        let is_unknown = is_marked(self.may_return, entry) && !self.must_know_return(entry);
        is_unknown.then_some((
            next,
            State {
                known: Known { set, ..Known::ANY },
                ..State::ANY
            },
        ))
    }

    /// Where the return at an address goes; `None` unless the states there are to know that, and this one does.
    fn return_address(self, at: u16, state: State) -> Option<u16> {
        let PairSpan { words, .. } = state.words.first?;
        (self.must_know_return(at) && words.is_alone()).then_some(words.first)
    }

    /// Whether a state knows where a return goes; so does each that doesn't return.
    pub fn knows_return(self, instr: Instr, state: State) -> bool {
        let left = match instr.flow() {
            Flow::Returns => Some(state),
            Flow::ReturnsIf(condition) => state.given(condition, true),
            _ => None,
        };
        left.is_none_or(|left| left.words.first.is_some_and(|word| word.words.is_alone()))
    }
}

/// Marks an address.
pub fn mark(marks: &mut [bool], at: u16) {
    if let Some(place) = marks.get_mut(usize::from(at)) {
        *place = true;
    }
}
