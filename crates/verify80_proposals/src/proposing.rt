//! A table of states is proposed.

use crate::groups::Groups;
use crate::nodes::{Decision, Limits, NOWHERE, Nodes, place_of};
use crate::search::SearchNotes;
use decode80::{Fetched, Flow, Instr, Operand, Operation};
use std::alloc::{AllocError, Global};
use verify80_needs::ReachedProgram;
use verify80_spans::ByteSpan;
use verify80_states::{APART, CallReturns, Known, Placed, State, StateTable, stored_bytes};

/// A table of states, with the returns and variables by which it was made.
#[derive(Drop)]
pub struct Proposal {
    /// The table, which may not fit.
    pub table: StateTable,
    /// What was noted of the search; `None` if there were too many states everywhere.
    pub notes: Option<SearchNotes>,
}

/// How many bytes of A are distinguished, at most.
const MOST_APART: usize = 16;

/// What is known at each address that the program may reach, if the marked groups know where they return to. `None` if more ways would have
/// to be followed than the limits say, which become narrower, or than are left, which become fewer.
///
/// At the start nothing is, and behind a call nothing, unless the callee's states know where they return to.
///
/// # Errors
/// `AllocError` only if memory runs out.
pub(crate) fn propose(
    alloc: Global,
    program: ReachedProgram<'_>,
    groups: &Groups,
    knows: &[bool],
    limits: &mut Limits,
    left: &mut usize,
) -> Result<Option<Proposal>, AllocError> {
    let returns = groups.returns(alloc, knows)?;
    let grouped = ReachedProgram {
        may_return: &returns.may_return,
        know_return: &returns.know_return,
        groups: &groups.numbers,
        ..program
    };
    let mut nodes = Nodes::new(alloc, grouped, &groups.numbers, *limits)?;
    nodes.enter(alloc, program.start, State::ANY)?;
    if nodes.follow_all(alloc, grouped, limits, left)? {
        Ok(Some(nodes.into_proposal(alloc, returns)?))
    } else {
        Ok(None)
    }
}

impl Nodes<'_> {
    /// Follows states until none waits, and says whether none does: once the limits are reached each address has one state.
    fn follow_all(
        &mut self,
        alloc: Global,
        program: ReachedProgram<'_>,
        limits: &mut Limits,
        left: &mut usize,
    ) -> Result<bool, AllocError> {
        let is_done = self.follow_some(alloc, program, limits.all.min(*left))?;
        limits.all = limits.all.saturating_sub(self.followed);
        *left = left.saturating_sub(self.followed);
        if is_done {
            return Ok(true);
        }
        self.followed = 0;
        self.is_late = true;
        let is_done = self.follow_some(alloc, program, limits.late.min(*left))?;
        *left = left.saturating_sub(self.followed);
        Ok(is_done)
    }

    /// Follows states until none waits, but no more ways than `most`, and says whether none waits.
    fn follow_some(
        &mut self,
        alloc: Global,
        program: ReachedProgram<'_>,
        most: usize,
    ) -> Result<bool, AllocError> {
        for _ in 0..most {
            let Some(place) = self.waiting.pop() else {
                return Ok(true);
            };
            self.follow(alloc, program, place)?;
            if self.followed >= most {
                break;
            }
        }
        Ok(false)
    }

    /// Enters what each way makes of a state, notes where, and counts the ways. Of a state that was taken in none is followed.
    fn follow(
        &mut self,
        alloc: Global,
        program: ReachedProgram<'_>,
        place: u32,
    ) -> Result<(), AllocError> {
        let Some(node) = self.nodes.get_mut(place as usize) else {
            return Ok(());
        };
        node.is_waiting = false;
        let found = match program.at(node.placed.at) {
            Some(found) if node.taken_by == place => found,
            _ => return Ok(()),
        };
        let (state, is_exact) = (node.placed.state, node.is_exact);
        let ways = program.count_ways(node.placed.at, found.instr);
        if node.placed.hint == NOWHERE {
            let first = self.hints.len();
            node.placed.hint = place_of(first);
            self.hints.resize(first.saturating_add(ways), NOWHERE)?;
        }
        let Placed { at, hint, .. } = node.placed;
        let (one, other) = stored_bytes(program.code, found.instr, state.known);
        for stored in [one, other].into_iter().flatten() {
            self.note_stored(stored)?;
        }
        self.note_followed(at, ways);
        self.enters_exact = is_exact;
        self.note_condition(at, found.instr, state);
        for number in 0..ways {
            self.enters_exact = is_exact && !is_behind_call(found.instr, number, ways);
            let to = self.enter_way(alloc, program, at, found, state, number)?;
            if let Some(hint) = self.hints.get_mut((hint as usize).saturating_add(number)) {
                *hint = to;
            }
        }
        Ok(())
    }

    /// Enters what the way with this number makes of a state, and answers its hint.
    fn enter_way(
        &mut self,
        alloc: Global,
        program: ReachedProgram<'_>,
        at: u16,
        found: Fetched,
        state: State,
        number: usize,
    ) -> Result<u32, AllocError> {
        match program.way(at, found, state, number) {
            Some((to, after)) if distinguishes(found.instr, state.known, after.known) => {
                self.note_followed(at, MOST_APART);
                self.enter_apart(alloc, to, after)
            }
            Some((to, after)) => self.enter(alloc, to, after),
            None => Ok(NOWHERE),
        }
    }

    /// Enters a state for each byte of A. The hint says where among the hints their places begin.
    fn enter_apart(&mut self, alloc: Global, to: u16, state: State) -> Result<u32, AllocError> {
        let first = self.hints.len();
        for byte in state.known.a.first..=state.known.a.last {
            let place = self.enter(alloc, to, state.cut(ByteSpan::alone(byte)))?;
            self.hints.push(place)?;
        }
        Ok(APART.saturating_add(place_of(first)))
    }

    /// The states that none has taken in, as a table, with hints to these.
    fn into_proposal(
        mut self,
        alloc: Global,
        returns: CallReturns,
    ) -> Result<Proposal, AllocError> {
        let notes = self.notes(alloc)?;
        let mut states = Vec::new(alloc);
        let mut places = vec![in alloc; NOWHERE; self.nodes.len()]?;
        for (number, node) in self.nodes.iter().enumerate().rev() {
            let mut place = places.get(node.taken_by as usize).copied();
            if node.taken_by == place_of(number) {
                place = Some(place_of(states.len()));
                states.push(node.placed)?;
            }
            if let (Some(of_number), Some(place)) = (places.get_mut(number), place) {
                *of_number = place;
            }
        }
        for hint in &mut self.hints {
            if let Some(place) = places.get(*hint as usize) {
                *hint = *place;
            }
        }
        let table = StateTable {
            states,
            variables: Vec::from_slice(alloc, self.variables.list())?,
            hints: self.hints,
            returns,
        };
        Ok(Proposal { table, notes })
    }

    /// What was noted of the search; `None` if each address had one state in the end.
    fn notes(&self, alloc: Global) -> Result<Option<SearchNotes>, AllocError> {
        if self.is_late {
            return Ok(None);
        }
        let joined = self.groups.iter().map(|group| group.joined != self.never);
        let undecided = self
            .decisions
            .iter()
            .map(|decision| matches!(decision, Decision::Open));
        Ok(Some(SearchNotes {
            joined: joined.collect(alloc)?,
            undecided: undecided.collect(alloc)?,
        }))
    }
}

/// Whether the way with this number of an instruction is that behind a call, where nothing is known of what the callee does.
fn is_behind_call(instr: Instr, number: usize, ways: usize) -> bool {
    matches!(instr.flow(), Flow::Calls(_) | Flow::CallsIf(_, _)) && number.saturating_add(1) >= ways
}

/// Whether the bytes of A are distinguished on a way: few are left by ANI, or by a jump behind a comparison.
fn distinguishes(instr: Instr, before: Known, after: Known) -> bool {
    let count = usize::from(after.a.last.saturating_sub(after.a.first));
    let asks = match instr {
        Instr::Operate(Operation::And, Operand::Immediate(_)) => true,
        Instr::JumpIf(_, _) => before.compared.is_some(),
        _ => false,
    };
    asks && count > 0 && count < MOST_APART
}
