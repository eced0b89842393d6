//! What ends the loops in which a pair is counted. This is a search, of which nothing is promised.

use decode80::{Fetched, Flow, Instr, Pair};
use std::alloc::{AllocError, Global};
use verify80_proposals::{ReachedProgram, SearchNotes};
use verify80_states::{entry_at, is_marked};

/// What ends a loop.
#[derive(Clone, Copy)]
enum LoopEnd {
    /// Nothing that was found.
    Nothing,
    /// The jumps and returns that leave it, one of which is at this address: none is decided by what is known.
    Unknown(u16),
    /// What is known decides a jump or a return that leaves it.
    Known,
}

/// An instruction on the way that is followed, and the number of its next way.
#[derive(Clone, Copy)]
struct Stop {
    at: u16,
    way: usize,
}

/// The loops of a program's procedures in which a pair is only counted: instructions from each of which ways lead to each other, that leave
/// the pair as it is, count it or add to it. (Tarjan's strongly connected components.)
#[derive(Drop)]
struct Loops<'a> {
    program: ReachedProgram<'a>,
    pair: Pair,
    /// By address when the instruction there was found, counted from 1; 0 if it wasn't.
    found: Vec<u32>,
    /// By address when the first instruction of the loop was found to which a way leads back, as far as is known.
    lowest: Vec<u32>,
    /// By address the first instruction of the loop that the instruction there belongs to, once all of that was found.
    heads: Vec<Option<u16>>,
    /// The instructions whose loops aren't whole yet.
    open: Vec<u16>,
    path: Vec<Stop>,
}

/// By address the jump or return that ends the loop there, in which a pair is counted, by what isn't known; `None` for others.
///
/// # Errors
/// `AllocError` if memory runs out.
pub(crate) fn unknown_ends(
    alloc: Global,
    program: ReachedProgram<'_>,
    notes: &SearchNotes,
    pair: Pair,
) -> Result<Vec<Option<u16>>, AllocError> {
    let loops = Loops::new(alloc, program, pair)?;
    let ends = loops.ends(alloc, notes)?;
    loops
        .heads
        .iter()
        .map(|head| unknown_end(&ends, *head))
        .collect(alloc)
}

/// Where the loop with this first instruction is left by what isn't known.
fn unknown_end(ends: &[LoopEnd], head: Option<u16>) -> Option<u16> {
    match ends.get(usize::from(head?)) {
        Some(LoopEnd::Unknown(at)) => Some(*at),
        _ => None,
    }
}

impl<'a> Loops<'a> {
    /// The loops of a program in which a pair is counted.
    ///
    /// # Errors
    /// `AllocError` if memory runs out.
    fn new(
        alloc: Global,
        program: ReachedProgram<'a>,
        pair: Pair,
    ) -> Result<Loops<'a>, AllocError> {
        let mut loops = Loops {
            program,
            pair,
            found: vec![in alloc; 0; 65_536]?,
            lowest: vec![in alloc; 0; 65_536]?,
            heads: vec![in alloc; None; 65_536]?,
            open: Vec::new(alloc),
            path: Vec::new(alloc),
        };
        let mut count = 0_u32;
        for number in 0..65_536_u32 {
            loops.reach(&mut count, number as u16)?;
            for _ in 0..u32::MAX {
                let Some(stop) = loops.path.pop() else {
                    break;
                };
                loops.go_on(&mut count, stop)?;
            }
        }
        Ok(loops)
    }

    /// Begins with an instruction, unless it was found before.
    fn reach(&mut self, count: &mut u32, at: u16) -> Result<(), AllocError> {
        if self.program.at(at).is_some() && number_at(&self.found, at) == 0 {
            *count = count.saturating_add(1);
            set(&mut self.found, at, *count);
            set(&mut self.lowest, at, *count);
            self.open.push(at)?;
            self.path.push(Stop { at, way: 0 })?;
        }
        Ok(())
    }

    /// Goes the next way from an instruction; if there is none, the loop is whole of which it is the first that was found.
    fn go_on(&mut self, count: &mut u32, stop: Stop) -> Result<(), AllocError> {
        let Stop { at, way } = stop;
        let ways = self.count_ways(at);
        if way < ways {
            self.path.push(Stop {
                at,
                way: way.saturating_add(1),
            })?;
            if let Some(to) = self.way(at, way) {
                self.reach(count, to)?;
                if entry_at(&self.heads, to).is_none() {
                    let found = number_at(&self.found, to);
                    self.lower(at, found);
                }
            }
            return Ok(());
        }
        if number_at(&self.lowest, at) == number_at(&self.found, at) {
            self.close(at);
        } else if let Some(before) = self.path.last().copied() {
            let found = number_at(&self.lowest, at);
            self.lower(before.at, found);
        }
        Ok(())
    }

    /// Notes that from an instruction ways lead back to one that was found then.
    fn lower(&mut self, at: u16, found: u32) {
        if found > 0 && found < number_at(&self.lowest, at) {
            set(&mut self.lowest, at, found);
        }
    }

    /// Takes the instructions of a whole loop.
    fn close(&mut self, head: u16) {
        for _ in 0..65_536_u32 {
            let Some(at) = self.open.pop() else {
                return;
            };
            if let Some(place) = self.heads.get_mut(usize::from(at)) {
                *place = Some(head);
            }
            if at == head {
                return;
            }
        }
    }

    /// How many ways an instruction has: none if it sets the pair.
    fn count_ways(&self, at: u16) -> usize {
        match self.program.at(at) {
            Some(found) if carries(found.instr, self.pair) => {
                let (_, targets) = self.program.ways_inside(at, found);
                targets.len().saturating_add(2)
            }
            _ => 0,
        }
    }

    /// Where the way with a number leads inside its procedure, if it leads somewhere: past a call behind it.
    fn way(&self, at: u16, number: usize) -> Option<u16> {
        let found = self.program.at(at)?;
        let (direct, targets) = self.program.ways_inside(at, found);
        match found.instr.flow() {
            Flow::Calls(_) if number == 0 => Some(found.next),
            _ if number < 2 => direct.get(number).copied().flatten(),
            _ => targets.get(number.saturating_sub(2)).copied(),
        }
    }

    /// What ends each loop, by the address of its first instruction.
    ///
    /// # Errors
    /// `AllocError` if memory runs out.
    fn ends(&self, alloc: Global, notes: &SearchNotes) -> Result<Vec<LoopEnd>, AllocError> {
        let mut ends = vec![in alloc; LoopEnd::Nothing; 65_536]?;
        for number in 0..65_536_u32 {
            let at = number as u16;
            if let (Some(found), Some(head)) = (self.program.at(at), entry_at(&self.heads, at))
                && self.leaves(found, head)
                && let Some(end) = ends.get_mut(usize::from(head))
            {
                *end = match *end {
                    LoopEnd::Known => LoopEnd::Known,
                    _ if is_marked(&notes.undecided, at) => LoopEnd::Unknown(at),
                    _ => LoopEnd::Known,
                };
            }
        }
        Ok(ends)
    }

    /// Whether an instruction may leave the loop with this first instruction, and may stay in it.
    fn leaves(&self, found: Fetched, head: u16) -> bool {
        match found.instr.flow() {
            Flow::ReturnsIf(_) => self.is_in(found.next, head),
            Flow::JumpsIf(_, to) => self.is_in(found.next, head) != self.is_in(to, head),
            Flow::JumpsToHl => true,
            _ => false,
        }
    }

    /// Whether an address is in the loop with this first instruction.
    fn is_in(&self, at: u16, head: u16) -> bool {
        entry_at(&self.heads, at) == Some(head)
    }
}

/// Whether what a pair is after an instruction comes from what it is before it.
fn carries(instr: Instr, pair: Pair) -> bool {
    !instr.writes().includes(pair)
        || matches!(
            instr,
            Instr::Inx(_) | Instr::Dcx(_) | Instr::Dad(_) | Instr::Inr(_) | Instr::Dcr(_)
        )
}

/// The number at an address.
fn number_at(numbers: &[u32], at: u16) -> u32 {
    numbers.get(usize::from(at)).copied().unwrap_or(0)
}

/// Sets the number at an address.
fn set(numbers: &mut [u32], at: u16, number: u32) {
    if let Some(place) = numbers.get_mut(usize::from(at)) {
        *place = number;
    }
}
