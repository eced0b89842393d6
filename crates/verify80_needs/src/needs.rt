//! What a later store, jump by HL or condition may depend on, at each address.

use crate::moving::parts_before;
use crate::program::{ReachedProgram, mark};
use crate::slots::{Slots, bytes_read, bytes_stored, find_places, find_pointers, placed};
use crate::units::{Units, reduced};
use crate::variables::Variables;
use decode80::{Fetched, Flow, Instr};
use std::alloc::{AllocError, Global};
use verify80_states::{Known, State, entry_at, is_marked};

/// How often the program is gone through, at most: then the rest is left as it is.
const SWEEPS: usize = 32;

/// The bytes of quiet memory that states name.
#[derive(Clone, Copy, PartialEq, Eq)]
pub enum Named {
    /// The variables on which a later store, jump by HL or condition depends, as far as the pointers that read them are known.
    Needed,
    /// The variables that are read later.
    Read,
    /// The variables that the next instruction reads or stores: what is known of the others is known by variables.
    Next,
}

/// What is needed of a state at an address: these parts of it, and these bytes of memory.
#[derive(Clone, Copy, PartialEq, Eq)]
struct Need {
    parts: Units,
    slots: Slots,
}

impl Need {
    const NONE: Need = Need {
        parts: Units::NONE,
        slots: Slots::NONE,
    };

    /// What either of two needs names.
    fn and(self, other: Need) -> Need {
        Need {
            parts: self.parts.union(other.parts),
            slots: self.slots.and(other.slots),
        }
    }

    /// What is needed before a call, given what its callee needs.
    fn before_call(self) -> Need {
        Need {
            parts: self.parts.shallower(),
            slots: self.slots,
        }
    }

    /// What is needed before a return, given what is needed behind the calls.
    fn before_return(self) -> Need {
        Need {
            parts: self.parts.deeper().union(Units::FIRST),
            slots: self.slots,
        }
    }
}

/// What is needed of states, and the bytes of memory that they name.
#[derive(Drop)]
pub struct Needs {
    /// By address what is needed there.
    needs: Vec<Need>,
    /// By address the bytes that a state there names.
    named: Vec<Slots>,
    /// The bytes that are to be variables, ascending: all that are needed somewhere, if states name those of the next instruction alone.
    pub variables: Vec<u16>,
}

impl Needs {
    /// What a program needs, if its states name these bytes.
    ///
    /// # Errors
    /// `AllocError` if memory runs out.
    pub fn of(
        alloc: Global,
        program: ReachedProgram<'_>,
        memory: Named,
    ) -> Result<Needs, AllocError> {
        let pointers = find_pointers(alloc, program)?;
        let places = find_places(alloc, program, &pointers)?;
        let reading = Reading {
            program,
            pointers: &pointers,
            places: &places,
            memory,
        };
        let mut needs = vec![in alloc; Need::NONE; 65_536]?;
        let mut behind = vec![in alloc; Need::NONE; 65_536]?;
        for _ in 0..SWEEPS {
            if !reading.sweep(&mut needs, &mut behind) {
                break;
            }
        }
        let mut named = Vec::with_capacity(alloc, 65_536)?;
        for at in 0..65_536_u32 {
            named.push(reading.named(&needs, &behind, at as u16))?;
        }
        let variables = if memory == Named::Next {
            addresses_of(alloc, &needs)?
        } else {
            Vec::new(alloc)
        };
        Ok(Needs {
            needs,
            named,
            variables,
        })
    }

    /// A state at an address with only what is needed there; nothing is known of the rest. It also names each variable, once that has
    /// grown, whose byte its cells show to be one of the variable's. Its cells are at the addresses that states there name; a byte for
    /// which it has no cell is known by a variable that it names, if there is one.
    pub fn needed_part(&self, at: u16, state: State, variables: &Variables) -> State {
        let need = need_at(&self.needs, at);
        let named = self.named(at);
        let known = state.known;
        let set = variables.set_in(known);
        let placed = State {
            known: Known {
                cells: named.placed_cells(need.slots, known.cells, variables, set),
                set,
                source: known.source.filter(|address| named.has(*address)),
                ..known
            },
            ..state
        };
        reduced(placed, need.parts)
    }

    /// The bytes of memory that are variables, each with the addresses where states name it: ascending.
    ///
    /// # Errors
    /// `AllocError` if memory runs out.
    pub fn readers(&self, alloc: Global) -> Result<Vec<(u16, u16)>, AllocError> {
        let mut readers = Vec::new(alloc);
        for number in 0..65_536_u32 {
            for address in &self.variables {
                if self.named(number as u16).has(*address) {
                    readers.push((*address, number as u16))?;
                }
            }
        }
        readers.sort_unstable();
        Ok(readers)
    }

    /// The bytes of memory that a state at an address names.
    fn named(&self, at: u16) -> Slots {
        self.named
            .get(usize::from(at))
            .copied()
            .unwrap_or(Slots::NONE)
    }
}

/// The bytes of memory that are needed somewhere, ascending.
fn addresses_of(alloc: Global, needs: &[Need]) -> Result<Vec<u16>, AllocError> {
    let mut marks = vec![in alloc; false; 65_536]?;
    for need in needs {
        need.slots.mark(&mut marks);
    }
    let mut addresses = Vec::new(alloc);
    for number in 0..65_536_u32 {
        if is_marked(&marks, number as u16) {
            addresses.push(number as u16)?;
        }
    }
    Ok(addresses)
}

/// What is needed at an address so far.
fn need_at(needs: &[Need], at: u16) -> Need {
    needs.get(usize::from(at)).copied().unwrap_or(Need::NONE)
}

/// How a program's memory is read.
#[derive(Clone, Copy)]
struct Reading<'a> {
    program: ReachedProgram<'a>,
    /// By address the word that HL is known to be.
    pointers: &'a [Option<u16>],
    /// By address the place of a byte.
    places: &'a [Option<usize>],
    /// The bytes that states name.
    memory: Named,
}

impl Reading<'_> {
    /// Goes through the program once, from its end, and says whether something changed. `needs` has for each address what is needed there,
    /// and `behind` for each group what is needed behind the calls of its procedures, if these know where they return to.
    fn sweep(self, needs: &mut [Need], behind: &mut [Need]) -> bool {
        let mut is_changed = false;
        for below in 0..65_536_u32 {
            let at = (65_535 - below) as u16;
            if let Some(found) = self.program.at(at) {
                if let Flow::Calls(entry) | Flow::CallsIf(_, entry) = found.instr.flow()
                    && self.program.must_know_return(entry)
                {
                    let group = self.program.group(entry);
                    let need = need_at(behind, group).and(need_at(needs, found.next));
                    is_changed |= note(behind, group, need);
                }
                let after = self.after(needs, behind, at, found);
                is_changed |= note(needs, at, self.before(at, found.instr, after));
            }
        }
        is_changed
    }

    /// What is needed after an instruction, by what is needed where it leads.
    fn after(self, needs: &[Need], behind: &[Need], at: u16, found: Fetched) -> Need {
        let (direct, targets) = self.program.ways_inside(at, found);
        let mut after = match found.instr.flow() {
            Flow::Calls(entry) | Flow::CallsIf(_, entry) => need_at(needs, entry).before_call(),
            Flow::Returns | Flow::ReturnsIf(_) if self.program.must_know_return(at) => {
                need_at(behind, self.program.group(at)).before_return()
            }
            _ => Need::NONE,
        };
        for to in direct.iter().flatten().chain(targets.iter()) {
            after = after.and(need_at(needs, *to));
        }
        if self.memory == Named::Next {
            let stored = bytes_stored(found.instr, entry_at(self.pointers, at));
            after.slots = placed(self.places, stored, Units::ALL);
        }
        after
    }

    /// What is needed before an instruction, given what is needed after it.
    fn before(self, at: u16, instr: Instr, after: Need) -> Need {
        let pointer = entry_at(self.pointers, at);
        let (stored, read) = (bytes_stored(instr, pointer), bytes_read(instr, pointer));
        let mut parts = parts_before(instr, after.parts);
        for (address, from) in stored.iter().flatten() {
            if after.slots.has(*address) {
                parts = parts.union(*from);
            }
        }
        // INR M and DCR M store the byte that they read.
        let kept = match instr {
            Instr::InrMemory | Instr::DcrMemory => after.slots,
            _ => after.slots.without(stored),
        };
        let known = match self.memory {
            Named::Read => Units::ALL,
            Named::Needed | Named::Next => after.parts,
        };
        Need {
            parts,
            slots: kept.and(placed(self.places, read, known)),
        }
    }

    /// The bytes that a state at an address names: those that are needed before the instruction, and at free places those that are needed
    /// after it, since it may store them.
    fn named(self, needs: &[Need], behind: &[Need], at: u16) -> Slots {
        match self.program.at(at) {
            Some(found) => {
                let after = self.after(needs, behind, at, found);
                self.before(at, found.instr, after).slots.and(after.slots)
            }
            None => Slots::NONE,
        }
    }
}

/// Sets what is needed at an address, and says whether that is another need than before.
fn note(needs: &mut [Need], at: u16, new: Need) -> bool {
    match needs.get_mut(usize::from(at)) {
        Some(place) if *place != new => {
            *place = new;
            true
        }
        _ => false,
    }
}
