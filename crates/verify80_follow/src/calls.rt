//! Whether calls are stepped over, and summaries follow their procedures.

ghost use Rattle.std.specs.Prelude.{◌≡◌, ◌≤◌, ◌+◌, Ok, Some, false, true, All, Contains, IfOk, IfSome, length};
ghost use Rattle.decode80.specs.Facts.{flow};
ghost use Rattle.image80.specs.Image.{memory_of};
ghost use Rattle.verify80.specs.LookLaws.{fetch_at};
ghost use Rattle.verify80_states.specs.Known.{nothing_known};
ghost use Rattle.verify80_stores.specs.DataReach.{AreDataEnds};
ghost use Rattle.verify80_follow.specs.Follows.{FitsSummary, Goes, Has, PassesBy, ReturnsBack, StepsOver};
ghost use Rattle.verify80_follow.specs.Follows.{Summarizes, beside_call, called, entered_stack, is_return, stack_of, uses_pointer};
ghost use Rattle.verify80_follow.specs.Tables.{fitting_of};
ghost use Rattle.verify80_follow.specs.Held.{count_of};

use crate::fit::{Fit, Standing};
use crate::followed::FollowedState;
use crate::handling::{has_room, uses_pointer};
use crate::held::{Beside, count_of};
use crate::stack::StackBounds;
use decode80::{Fetched, Flow, fetch};
use std::alloc::{AllocError, Global};
use verify80_spans::ByteSpan;
use verify80_states::{Known, given};

/// A procedure with a table of states that follows it from where it is entered until it returns, wherever the stack is then.
#[derive(Drop)]
pub struct Summary {
    /// The address at which it is entered.
    pub at: u16,
    pub states: Vec<FollowedState>,
    /// The places of the table that the ways on from each state lead to; the first hint is that of the address at which the procedure is entered.
    pub hints: Vec<u32>,
    /// How many bytes it has on the stack, at most, the two of its return address among them.
    pub bytes: u16,
}

/// Where an instruction calls.
pub fn called(flow: Flow) -> Option<u16>
    ensures { result ≡ called flow }
{
    match flow {
        Flow::Calls(to) | Flow::CallsIf(_, to) => Some(to),
        _ => None,
    }
}

/// Whether an instruction calls an address.
fn calls(flow: Flow, at: u16) -> bool
    ensures { result ≡ true → called flow ≡ Some at }
{
    match flow {
        Flow::Calls(to) | Flow::CallsIf(_, to) => to == at,
        _ => false,
    }
}

/// Whether an instruction returns.
fn is_return(flow: Flow) -> bool
    ensures { result ≡ is_return flow }
{
    matches!(flow, Flow::Returns | Flow::ReturnsIf(_))
}

/// Whether an address to which a state returns is all that is on its stack.
pub fn is_last(state: &FollowedState) -> bool
    ensures back { result ≡ true → state.now.beside.back ≡ Some 2 }
    ensures alone { result ≡ true → count_of (stack_of state.now) ≡ 2 }
{
    state.beside.back == Some(2) && count_of(state.bytes()) == 2
}

impl Fit<'_> {
    /// Whether a call or return under a condition is covered behind it, by the third hint.
    fn passes_by(&self, alloc: Global, here: Standing<'_>) -> Result<bool, AllocError>
        ensures { IfOk result (λ passes. passes ≡ true → PassesBy self.now.bounds (fitting_of self.now) here.entry.state.now here.entry.found
            (flow here.entry.found.instr)) }
    {
        let known = here.state.known;
        match here.found.instr.flow() {
            Flow::CallsIf(condition, _) | Flow::ReturnsIf(condition) => {
                self.leads_to(alloc, here, here.passed(2), given(condition, false, known))
            }
            _ => Ok(true),
        }
    }

    /// The summary that a hint names.
    fn summary(&self, hint: u32) -> Option<&Summary>
        ensures { IfSome result (λ summary. Contains self.now.summaries.now summary.now) }
    {
        let Some(number) = self.hints.get(hint as usize) else {
            return None;
        };
        self.summaries.get(*number as usize)
    }

    /// Whether there is room for a summary's procedure below the bytes of a stack.
    fn has_room_for(&self, stack: &[ByteSpan], summary: &Summary) -> bool
        ensures { result ≡ true → length stack.now + summary.now.bytes ≤ self.now.bytes }
    {
        let most = usize::from(self.bytes);
        let bytes = usize::from(summary.bytes);
        bytes <= most && stack.len() <= most - bytes
    }

    /// Whether a call is stepped over: its second hint names a summary of what it calls, and its first one a state behind it.
    fn steps_over(&self, alloc: Global, state: &FollowedState) -> Result<bool, AllocError>
        requires regions { self.now.regions.now ≡ self.now.program.now.regions }
        requires ends { AreDataEnds self.now.regions.now self.now.ends.now }
        ensures { IfOk result (λ steps. steps ≡ true → StepsOver self.now.bounds (fitting_of self.now) state.now) }
    {
        let Some(executed) = self.executed(state.at) else {
            return Ok(false);
        };
        let found = executed.found;
        let Some(stack) = state.bytes() else {
            return Ok(false);
        };
        let Some(summary) = self.summary(state.hint.saturating_add(1)) else {
            return Ok(false);
        };
        let behind = Beside::behind_call(state.beside.back);
        if !self.may_stand(found.instr, state)
            || !calls(found.instr.flow(), summary.at)
            || !self.has_room_for(stack, summary)
            || !self.has(state.hint, found.next, Known::ANY, behind, Some(stack))
        {
            return Ok(false);
        }
        self.passes_by(alloc, Standing { state, found })
    }

    /// Whether a state fits, or its call is stepped over.
    fn goes(&self, alloc: Global, state: &FollowedState) -> Result<bool, AllocError>
        requires regions { self.now.regions.now ≡ self.now.program.now.regions }
        requires ends { AreDataEnds self.now.regions.now self.now.ends.now }
        ensures { IfOk result (λ goes. goes ≡ true → Goes self.now.bounds (fitting_of self.now) state.now) }
    {
        if self.state_follows(alloc, state)? {
            return Ok(true);
        }
        self.steps_over(alloc, state)
    }

    /// Whether each state of the table fits, or its call is stepped over.
    pub(crate) fn all_go(&self, alloc: Global) -> Result<bool, AllocError>
        requires regions { self.now.regions.now ≡ self.now.program.now.regions }
        requires ends { AreDataEnds self.now.regions.now self.now.ends.now }
        ensures { IfOk result (λ go. go ≡ true → All (Goes self.now.bounds (fitting_of self.now)) self.now.table.now) }
    {
        for place in 0..self.table.len() {
            if !self.goes(alloc, &self.table[place])? {
                return Ok(false);
            }
        }
        Ok(true)
    }

    /// Whether a summary's procedure returns at a state.
    fn returns_back(&self, alloc: Global, state: &FollowedState) -> Result<bool, AllocError>
        requires regions { self.now.regions.now ≡ self.now.program.now.regions }
        requires ends { AreDataEnds self.now.regions.now self.now.ends.now }
        ensures { IfOk result (λ returns. returns ≡ true → ReturnsBack self.now.bounds (fitting_of self.now) state.now) }
    {
        let Some(executed) = self.executed(state.at) else {
            return Ok(false);
        };
        let found = executed.found;
        if !is_last(state)
            || !is_return(found.instr.flow())
            || !self.may_stand(found.instr, state)
        {
            return Ok(false);
        }
        self.passes_by(alloc, Standing { state, found })
    }

    /// Whether there is an instruction at a state, and it doesn't depend on where the stack lies.
    fn is_fixed(&self, state: &FollowedState) -> bool
        ensures { result ≡ true → (found : Fetched) → fetch_at self.now.program.now.regions
            (memory_of self.now.program.now.chunks) state.now.at ≡ Ok found → uses_pointer found.instr ≡ false }
    {
        match fetch(state.at, self.program) {
            Ok(found) => !uses_pointer(found.instr),
            Err(_) => false,
        }
    }

    /// Whether a state is one of a summary.
    fn summarizes(&self, alloc: Global, state: &FollowedState) -> Result<bool, AllocError>
        requires regions { self.now.regions.now ≡ self.now.program.now.regions }
        requires ends { AreDataEnds self.now.regions.now self.now.ends.now }
        ensures { IfOk result (λ summarizes. summarizes ≡ true → Summarizes self.now.bounds (fitting_of self.now) state.now) }
    {
        if !has_room(state, self.bytes) || !self.is_fixed(state) {
            return Ok(false);
        }
        if self.returns_back(alloc, state)? {
            return Ok(true);
        }
        self.goes(alloc, state)
    }

    /// Whether each state of the table is one of a summary.
    fn all_summarize(&self, alloc: Global) -> Result<bool, AllocError>
        requires regions { self.now.regions.now ≡ self.now.program.now.regions }
        requires ends { AreDataEnds self.now.regions.now self.now.ends.now }
        ensures { IfOk result (λ summarize. summarize ≡ true → All (Summarizes self.now.bounds (fitting_of self.now)) self.now.table.now) }
    {
        for place in 0..self.table.len() {
            if !self.summarizes(alloc, &self.table[place])? {
                return Ok(false);
            }
        }
        Ok(true)
    }

    /// Whether the first hint names a state at a procedure that says no more than that its return address is on top of the stack.
    fn has_called(&self, at: u16) -> bool
        ensures { result ≡ true → Has self.now.table.now at nothing_known (beside_call (Some 2)) entered_stack }
    {
        let entered = [ByteSpan::ANY, ByteSpan::ANY];
        self.has(
            0,
            at,
            Known::ANY,
            Beside::behind_call(Some(2)),
            Some(&entered),
        )
    }

    /// Whether a summary follows its procedure.
    fn fits_summary(&self, alloc: Global, summary: &Summary) -> Result<bool, AllocError>
        requires regions { self.now.regions.now ≡ self.now.program.now.regions }
        requires ends { AreDataEnds self.now.regions.now self.now.ends.now }
        ensures { IfOk result (λ fits. fits ≡ true → FitsSummary (fitting_of self.now) summary.now) }
    {
        let fit = Fit {
            table: &summary.states,
            hints: &summary.hints,
            ways: self.ways,
            places: self.places,
            numbers: self.numbers,
            listed: self.listed,
            summaries: self.summaries,
            bytes: summary.bytes,
            bounds: StackBounds {
                top: self.bounds.top,
                length: summary.bytes,
            },
            interrupted: self.interrupted,
            code: self.code,
            program: self.program,
            regions: self.regions,
            ends: self.ends,
            quiet: self.quiet,
        };
        if !fit.has_called(summary.at) {
            return Ok(false);
        }
        fit.all_summarize(alloc)
    }

    /// Whether each summary follows its procedure.
    pub(crate) fn fits_summaries(&self, alloc: Global) -> Result<bool, AllocError>
        requires regions { self.now.regions.now ≡ self.now.program.now.regions }
        requires ends { AreDataEnds self.now.regions.now self.now.ends.now }
        ensures { IfOk result (λ fit. fit ≡ true → All (FitsSummary (fitting_of self.now)) self.now.summaries.now) }
    {
        for place in 0..self.summaries.len() {
            if !self.fits_summary(alloc, &self.summaries[place])? {
                return Ok(false);
            }
        }
        Ok(true)
    }
}
