//! What a way makes of a state.

use crate::marks::{AT_SP, marks_between, with_known, without_marked};
use crate::program::{FollowedProgram, Lead};
use crate::stop::{StopReason, Unfollowed};
use decode80::{Fetched, Instr, Operand, Operation, Pair, Register, fetch};
use frames80::Code;
use std::alloc::{AllocError, Global};
use verify80_follow::{
    Beside, FollowedState, StackAfter, StackBounds, beside_then, stack_then, top_of_stack,
};
use verify80_states::{
    ByteSpan, Cell, Cells, Known, PairSpan, entry_at, is_marked, known_after, stored_bytes,
};

/// How many bytes of A tell states apart, at most.
const MOST_APART: u8 = 32;
/// How many cells a state has.
const CELLS: u16 = 8;

/// What a way makes of a state, where it leads.
#[derive(Drop)]
pub(crate) struct Arrival {
    pub state: FollowedState,
    /// Marks of its bytes.
    pub marks: Vec<bool>,
    /// Whether each byte of A tells states apart.
    pub is_split: bool,
}

impl Arrival {
    /// A state with one byte alone in A, which is marked.
    ///
    /// # Errors
    /// `AllocError` if memory runs out.
    pub fn with_a(&self, alloc: Global, byte: u8) -> Result<Arrival, AllocError> {
        let known = self.state.known.cut(ByteSpan::alone(byte));
        let mut marks = Vec::from_slice(alloc, &self.marks)?;
        if let Some(mark) = marks.get_mut(0) {
            *mark = true;
        }
        Ok(Arrival {
            state: with_known(alloc, &self.state, known)?,
            marks,
            is_split: false,
        })
    }
}

impl FollowedProgram<'_> {
    /// What a way makes of a state. Marked is what isn't known without the marked bytes, or comes from a source of marks.
    ///
    /// # Errors
    /// If SP isn't known, or leaves the stack, or if memory runs out.
    pub fn arrive(
        self,
        alloc: Global,
        state: &FollowedState,
        marks: &[bool],
        found: Fetched,
        lead: Lead,
    ) -> Result<Arrival, Unfollowed> {
        if lead.steps {
            return self.arrive_behind(alloc, state, marks, lead);
        }
        let after = self.after(alloc, state, found, lead, lead.known)?;
        let plain = without_marked(alloc, state, lead.known, marks)?;
        let mut plain = self.after(alloc, &plain, found, lead, plain.known)?;
        let is_asked = self.splits_bytes && asks_for_a(found.instr, state.known);
        if is_asked {
            plain.known = plain.known.with_byte(Register::A, ByteSpan::ANY);
        }
        self.forget_source(found.instr, lead.taken, &mut plain);
        let marks = marks_between(alloc, &after, &plain)?;
        let a = after.known.a;
        let is_few = !a.is_alone() && a.last.saturating_sub(a.first) < MOST_APART;
        Ok(Arrival {
            state: after,
            marks,
            is_split: is_asked && is_few,
        })
    }

    /// What a call that is stepped over leaves of a state: its stack.
    fn arrive_behind(
        self,
        alloc: Global,
        state: &FollowedState,
        marks: &[bool],
        lead: Lead,
    ) -> Result<Arrival, Unfollowed> {
        let mut after = with_known(alloc, state, self.named(lead.to, lead.known))?;
        after.at = lead.to;
        after.beside = Beside::behind_call(state.beside.back);
        let mut marks = Vec::from_slice(alloc, marks)?;
        for mark in marks.iter_mut().take(AT_SP) {
            *mark = false;
        }
        Ok(Arrival {
            state: after,
            marks,
            is_split: false,
        })
    }

    /// What an instruction makes of a state's stack and of what is known before it.
    fn after(
        self,
        alloc: Global,
        state: &FollowedState,
        found: Fetched,
        lead: Lead,
        known: Known,
    ) -> Result<FollowedState, Unfollowed> {
        let bounds = StackBounds {
            top: self.image.top(),
            length: self.image.stack(),
        };
        let pushed = match found.instr {
            Instr::Sphl => lead.known,
            _ => known,
        };
        let stack = match stack_then(alloc, bounds, found, lead.taken, pushed, state.bytes())? {
            StackAfter::Refused => return Err(refusal_of(found.instr, state).into()),
            StackAfter::Unset => None,
            StackAfter::Set(bytes) if self.start.is_entered() && bytes.len() < 2 => {
                return Err(StopReason::LeavesStack.into());
            }
            StackAfter::Set(bytes) => Some(bytes),
        };
        let left = stack.as_ref().map(|bytes| bytes.as_slice());
        let beside = beside_then(found.instr, state.bytes(), left, state.beside);
        let top = top_of_stack(bounds, state.bytes());
        let after = known_after(self.code, found.instr, top, known);
        Ok(FollowedState {
            at: lead.to,
            known: self.named(lead.to, after),
            stack,
            beside,
            hint: 0,
        })
    }

    /// Forgets what is a source of marks after an instruction: what a call pushes, an address that LXI names, and what is made of SP.
    fn forget_source(self, instr: Instr, taken: bool, plain: &mut FollowedState) {
        match (instr, &mut plain.stack) {
            (Instr::Call(_) | Instr::CallIf(_, _) | Instr::Rst(_), Some(bytes)) if taken => {
                for byte in bytes.iter_mut().take(2) {
                    *byte = ByteSpan::ANY;
                }
            }
            (Instr::Lxi(pair, word), _)
                if self.splits_addresses && entry_at(self.code, word).is_some() => plain.known =
                plain.known.with_span(pair, PairSpan::ANY),
            (Instr::Dad(Pair::Sp), _) => {
                plain.known = plain.known.with_span(Pair::Hl, PairSpan::ANY);
            }
            _ => {}
        }
    }

    /// What is known at an address, of quiet bytes alone: those that the instruction there stores get their cells.
    fn named(self, to: u16, known: Known) -> Known {
        let Cells { mut each } = known.cells;
        for cell in &mut each {
            if !is_marked(self.quiet, cell.at) {
                *cell = Cell::ANY;
            }
        }
        let stored = match fetch(to, self.image) {
            Ok(found) => stored_bytes(self.code, found.instr, known),
            Err(_) => (None, None),
        };
        for stored in [stored.0, stored.1].into_iter().flatten() {
            let at = stored.at.first;
            if stored.at.is_alone()
                && is_marked(self.quiet, at)
                && let Some(cell) = each.get_mut(usize::from(at % CELLS))
                && cell.at != at
            {
                *cell = Cell { at, ..Cell::ANY };
            }
        }
        Known {
            cells: Cells { each },
            source: known.source.filter(|at| is_marked(self.quiet, *at)),
            ..known
        }
    }
}

/// Why the stack after an instruction is refused.
fn refusal_of(instr: Instr, state: &FollowedState) -> StopReason {
    match instr {
        Instr::Lxi(_, _) => StopReason::LeavesStack,
        _ if state.stack.is_none() => StopReason::StackNotSet,
        Instr::Sphl if !state.known.hl.words.is_alone() => StopReason::UnknownPointer,
        _ => StopReason::LeavesStack,
    }
}

/// Whether an instruction leaves some bytes of A: an ANA, or a condition on what A was compared with.
fn asks_for_a(instr: Instr, before: Known) -> bool {
    let asks = match instr {
        Instr::Operate(Operation::And, operand) => {
            !matches!(operand, Operand::Register(Register::A))
        }
        Instr::JumpIf(_, _) | Instr::CallIf(_, _) | Instr::ReturnIf(_) => before.compared.is_some(),
        _ => false,
    };
    asks && !before.a.is_alone()
}
