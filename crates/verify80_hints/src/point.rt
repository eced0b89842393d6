//! Points that walks reach, as far as counts go.

use crate::lists::Turn;
use crate::writes::Writes;
use frames80::{Change, Code, Effect, Procedure, effect_of};

/// The counts of a frame.
#[derive(Clone, Copy, PartialEq, Eq)]
pub(crate) struct Counts {
    /// How many words the procedure has taken from beneath its own.
    pub(crate) taken: u32,
    /// How many words of its own the procedure has.
    pub(crate) height: u32,
}

/// A point that a walk reaches, with its counts, what its instruction does, and the step that reaches it.
#[derive(Clone, Copy)]
pub(crate) struct Point {
    pub(crate) procedure: Procedure,
    pub(crate) at: u16,
    /// The address after the instruction.
    pub(crate) next: u16,
    pub(crate) effect: Effect,
    pub(crate) counts: Counts,
    /// The rank of the address.
    pub(crate) rank: u32,
    /// The number of the first step that reaches the point.
    pub(crate) step: u32,
}

/// What the instruction at an address does, and the address after it. If none may be executed
/// there, `Halt` and the address itself.
pub(crate) fn effect_at<C: Code>(program: &C, at: u16) -> (Effect, u16) {
    match program.look(at) {
        Ok(found) => (effect_of(found.instr), found.next),
        Err(_) => (Effect::Halt, at),
    }
}

impl Point {
    /// Whether the point is at the entry of a procedure that is called. False for the main
    /// program's start.
    pub(crate) fn starts(self) -> bool {
        match self.procedure {
            Procedure::Main => false,
            Procedure::Entry(entry) => self.at == entry,
        }
    }

    /// Whether the point is at a return of a procedure that is called. False for the main program.
    pub(crate) fn returns(self) -> bool {
        let is_return = matches!(self.effect, Effect::Return | Effect::ReturnIf);
        is_return && self.procedure != Procedure::Main
    }

    /// Whether the point isn't at its procedure's entry and its instruction leads to one address
    /// only, without a call.
    pub(crate) fn leads_straight(self) -> bool {
        matches!(self.effect, Effect::Change(_) | Effect::Jump(_)) && !self.starts()
    }

    /// Whether each place of the frame keeps its word if this way on is taken.
    pub(crate) fn keeps(self, turn: Turn) -> bool {
        matches!(turn, Turn::Leads(_)) && self.effect.change() == Change::Keep
    }

    /// What the places of the frame get if this way on is taken: which are written, and with which
    /// words.
    pub(crate) fn writes(self, turn: Turn) -> Writes {
        match turn {
            Turn::Leads(_) => Writes::of_change(self.effect.change(), self.counts.height),
            Turn::OverCall => Writes::of_call(),
        }
    }

    /// The counts after the instruction, if no call is taken; `None` if it is refused for its
    /// counts or because the main program would return. `top` is the address just above the stack.
    pub(crate) fn counts_on(self, top: u16) -> Option<Counts> {
        match self.effect {
            Effect::Change(change) => self.counts_after(change, top),
            Effect::ReturnIf if !self.returns() || self.counts.height != 1 => None,
            _ => Some(self.counts),
        }
    }

    /// The counts after a change; `None` if it is refused. `top` is the address just above the
    /// stack.
    fn counts_after(self, change: Change, top: u16) -> Option<Counts> {
        let Counts { taken, height } = self.counts;
        let is_main = self.procedure == Procedure::Main;
        let (taken, height) = match change {
            Change::Keep | Change::Exchange | Change::Forget(_) => (taken, height),
            Change::Push(_) | Change::PushAny => (taken, height.saturating_add(1)),
            Change::Pop(_) | Change::Drop if height > 0 => (taken, height.saturating_sub(1)),
            Change::Swap if height > 0 => (taken, height),
            Change::Pop(_) | Change::Drop if !is_main => (taken.saturating_add(1), 0),
            Change::Swap if !is_main => (taken.saturating_add(1), 1),
            Change::SetStack(address) if is_main && address == top => (taken, 0),
            Change::Pop(_) | Change::Drop | Change::Swap | Change::SetStack(_) => return None,
        };
        Some(Counts { taken, height })
    }

    /// The counts after a call of a procedure that takes `taken` words; `None` if the caller has
    /// fewer above its bottom word, or the main program fewer in all.
    pub(crate) fn counts_over(self, taken: u32) -> Option<Counts> {
        let kept = match self.procedure {
            Procedure::Main => 0,
            Procedure::Entry(_) => 1,
        };
        if taken > self.counts.height.saturating_sub(kept) {
            return None;
        }
        Some(Counts {
            taken: self.counts.taken,
            height: self.counts.height.saturating_sub(taken),
        })
    }
}
