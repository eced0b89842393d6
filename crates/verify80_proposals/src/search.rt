//! Tables of states are proposed, one after the other.

use crate::groups::Groups;
use crate::nodes::Limits;
use crate::proposing::{Proposal, propose};
use std::alloc::{AllocError, Global};
use verify80_needs::{Named, ReachedProgram};

/// How often it is tried which procedures know where they return to.
const TRIALS: usize = 3;
/// How many ways are followed in a procedure and in all if calls are distinguished, each as often as its state grows.
const TRIAL_WAYS: (usize, usize) = (120_000, 240_000);
/// How many ways are followed in a procedure and in all if calls aren't distinguished, before the search hurries.
const WAYS: (usize, usize) = (200_000, 400_000);
/// How many ways are followed then, at most.
const LATE_WAYS: usize = 1_000_000;
/// How many ways are followed for all tables of a program, at most.
const ALL_WAYS: usize = 4_000_000;

/// What a table names of memory.
#[derive(Clone, Copy)]
pub enum TableMemory {
    /// The quiet bytes on which a later store, jump by HL or condition depends.
    Needed,
    /// None, as if no address were quiet.
    Nothing,
    /// Those that the next instruction reads or stores; what is known of the others is known by variables.
    Variables,
    /// The quiet bytes that are read later.
    Read,
}

/// Which table is proposed.
#[derive(Clone, Copy)]
pub struct TableKind {
    /// Whether calls are distinguished, by what a procedure's callers know.
    pub distinguishes_calls: bool,
    /// What the table names of memory.
    pub memory: TableMemory,
}

/// The kinds of tables, in the order in which they are tried.
pub const TABLE_KINDS: [TableKind; 8] = [
    TableKind {
        distinguishes_calls: true,
        memory: TableMemory::Needed,
    },
    TableKind {
        distinguishes_calls: false,
        memory: TableMemory::Needed,
    },
    TableKind {
        distinguishes_calls: true,
        memory: TableMemory::Nothing,
    },
    TableKind {
        distinguishes_calls: false,
        memory: TableMemory::Nothing,
    },
    TableKind {
        distinguishes_calls: true,
        memory: TableMemory::Variables,
    },
    TableKind {
        distinguishes_calls: false,
        memory: TableMemory::Variables,
    },
    TableKind {
        distinguishes_calls: true,
        memory: TableMemory::Read,
    },
    TableKind {
        distinguishes_calls: false,
        memory: TableMemory::Read,
    },
];

/// What the search for a program's first table noted, by address: 65,536 places each.
#[derive(Drop)]
pub struct SearchNotes {
    /// Whether states were joined there, since there were too many.
    pub joined: Vec<bool>,
    /// Whether a conditional jump or return there was left open by a state that comes from no joined one, and decided by none.
    pub undecided: Vec<bool>,
}

/// The search for tables of one program.
#[derive(Drop)]
pub struct Search {
    /// How many ways may still be followed.
    left: usize,
    /// What was noted of the first table.
    notes: Option<SearchNotes>,
}

impl Search {
    /// A search that hasn't begun.
    pub fn new() -> Search {
        Search {
            left: ALL_WAYS,
            notes: None,
        }
    }

    /// What was noted of the first table; `None` if there is none, or if too many ways would have had to be followed.
    pub fn into_notes(self) -> Option<SearchNotes> {
        self.notes
    }

    /// A table of a kind. `None` if too many ways would have to be followed; if calls are to be distinguished and none can be; and if no
    /// address is quiet, unless the memory is what is needed.
    ///
    /// # Errors
    /// `AllocError` only if memory runs out.
    pub fn propose(
        &mut self,
        alloc: Global,
        program: ReachedProgram<'_>,
        groups: &Groups,
        kind: TableKind,
    ) -> Result<Option<Proposal>, AllocError> {
        let unquiet = ReachedProgram {
            quiet: &[],
            ..program
        };
        let (program, memory) = match kind.memory {
            TableMemory::Needed => (program, Named::Needed),
            _ if !program.quiet.contains(&true) => return Ok(None),
            TableMemory::Nothing => (unquiet, Named::Needed),
            TableMemory::Variables => (program, Named::Next),
            TableMemory::Read => (program, Named::Read),
        };
        let mut found = if kind.distinguishes_calls {
            self.propose_distinguished(alloc, program, groups, memory)?
        } else {
            self.propose_joined(alloc, program, groups, memory)?
        };
        if matches!(kind.memory, TableMemory::Needed) && self.notes.is_none() {
            if let Some(proposal) = &mut found {
                self.notes = proposal.notes.take();
            }
        }
        Ok(found)
    }

    /// A table in which calls are distinguished, with as many states at an address as can be followed; `None` if no calls can be.
    ///
    /// At first each procedure is to know where it returns to, so that what its callers know is distinguished. If states were joined, or
    /// words are too deep on the stack, some don't: nothing is known behind their calls.
    fn propose_distinguished(
        &mut self,
        alloc: Global,
        program: ReachedProgram<'_>,
        groups: &Groups,
        memory: Named,
    ) -> Result<Option<Proposal>, AllocError> {
        let mut limits = Limits {
            procedure: TRIAL_WAYS.0,
            all: TRIAL_WAYS.1,
            late: 0,
            memory,
        };
        let mut knows = groups.marks_of_called(alloc)?;
        for _ in 0..TRIALS {
            if !knows.contains(&true) {
                break;
            }
            let found = propose(alloc, program, groups, &knows, &mut limits, &mut self.left)?;
            let Some(proposal) = found else {
                break;
            };
            if !groups.take_marks(program, &proposal.table.states, &mut knows) {
                return Ok(Some(proposal));
            }
        }
        Ok(None)
    }

    /// A table in which calls aren't distinguished: each procedure is followed by itself.
    fn propose_joined(
        &mut self,
        alloc: Global,
        program: ReachedProgram<'_>,
        groups: &Groups,
        memory: Named,
    ) -> Result<Option<Proposal>, AllocError> {
        let mut limits = Limits {
            procedure: WAYS.0,
            all: WAYS.1,
            late: LATE_WAYS,
            memory,
        };
        propose(alloc, program, groups, &[], &mut limits, &mut self.left)
    }
}
