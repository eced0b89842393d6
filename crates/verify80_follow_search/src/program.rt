//! The program that is followed, and where each way leads from a state.

use crate::handlers::sets_top;
use crate::marks::{AT_SP, count_bytes};
use crate::start::Start;
use crate::stop::StopReason;
use decode80::{Fetched, Flow, Instr, ahead, direct_bytes, fetch};
use frames80::{Code, LookFault};
use verify80::ImageCode;
use verify80_follow::{FollowedState, called, gives_back, is_last, return_address, uses_pointer};
use verify80_states::{Known, Span, given};
use verify80_stores::pointer_span;

/// A program that is followed.
#[derive(Clone, Copy)]
pub(crate) struct FollowedProgram<'a> {
    pub image: &'a ImageCode<'a>,
    /// The bytes of code, by address.
    pub code: &'a [Option<u8>],
    /// Marks of the quiet addresses.
    pub quiet: &'a [bool],
    /// How many quiet addresses are below each, and below 65,536.
    pub quiet_below: &'a [u32],
    /// Whether the program is interrupted.
    pub interrupted: bool,
    /// Where it is followed from.
    pub start: Start<'a>,
    /// What is known of the procedure at each address; empty if no calls are stepped over.
    pub procedures: &'a [Procedure],
    /// Whether addresses of code that LXI names tell states apart.
    pub splits_addresses: bool,
    /// Whether bytes of A tell states apart, where ANA or a comparison leaves few of them.
    pub splits_bytes: bool,
}

/// What is known of a procedure.
#[derive(Clone, Copy)]
pub(crate) enum Procedure {
    /// Nothing yet.
    Untried,
    /// It is being tried; its calls are followed meanwhile.
    Open,
    /// Its calls are followed.
    Followed,
    /// Its calls are stepped over, by the summary at a place, with a number of bytes on the stack.
    Stepped { place: u32, bytes: u16 },
}

/// A way on from a state: where it leads, whether the call or the return is taken, and what is known before the instruction then.
#[derive(Clone, Copy)]
pub(crate) struct Lead {
    pub to: u16,
    pub taken: bool,
    pub known: Known,
    /// Whether a call is stepped over.
    pub steps: bool,
}

impl FollowedProgram<'_> {
    /// The instruction at an address.
    ///
    /// # Errors
    /// Why none may be executed there.
    pub fn instruction(self, at: u16) -> Result<Fetched, StopReason> {
        match self.image.look(at) {
            Ok(found) => Ok(found),
            Err(LookFault::Pchl) => Ok(Fetched {
                instr: Instr::Pchl,
                next: ahead(at, 1),
            }),
            Err(LookFault::EnablesInterrupts) if self.interrupted => Ok(Fetched {
                instr: Instr::Ei,
                next: ahead(at, 1),
            }),
            Err(LookFault::Outside) => Err(StopReason::FetchOutside),
            Err(LookFault::Unused) => Err(StopReason::UnusedOpcode),
            Err(LookFault::EnablesInterrupts) => Err(StopReason::EnablesInterrupts),
            Err(LookFault::DirectStore) => Err(StopReason::DirectStore),
        }
    }

    /// How many hints the ways of an instruction have.
    pub fn count_hints(self, at: u16, instr: Instr) -> usize {
        match instr.flow() {
            _ if self.steps_over(instr).is_some() => 3,
            Flow::Halts => usize::from(self.interrupted),
            Flow::JumpsIf(_, _) | Flow::CallsIf(_, _) | Flow::Returns => 2,
            Flow::ReturnsIf(_) => 3,
            Flow::JumpsToHl => self.image.targets(at).len().max(2),
            _ => 1,
        }
    }

    /// What an instruction calls, with what is known of it; `None` if it is no call, or no calls are stepped over.
    fn procedure(self, instr: Instr) -> Option<(u16, Procedure)> {
        let to = called(instr.flow())?;
        Some((to, *self.procedures.get(usize::from(to))?))
    }

    /// The procedure that an instruction calls, if it wasn't tried.
    pub fn untried(self, instr: Instr) -> Option<u16> {
        match self.procedure(instr)? {
            (to, Procedure::Untried) => Some(to),
            _ => None,
        }
    }

    /// The place of the summary of what an instruction calls, and how many bytes that has on the stack; `None` if the call isn't stepped over.
    pub fn steps_over(self, instr: Instr) -> Option<(u32, u16)> {
        match self.procedure(instr)? {
            (_, Procedure::Stepped { place, bytes }) => Some((place, bytes)),
            _ => None,
        }
    }

    /// How many bytes a state's stack has, at most, with what its instruction steps over.
    pub fn count_deepest(self, state: &FollowedState, instr: Instr) -> usize {
        let stepped = self
            .steps_over(instr)
            .map_or(0, |(_, bytes)| usize::from(bytes));
        count_bytes(state)
            .saturating_sub(AT_SP)
            .saturating_add(stepped)
    }

    /// Whether the instruction at an address is a return, or a PCHL without declared targets.
    pub fn goes_by_number(self, at: u16, instr: Instr) -> bool {
        match instr.flow() {
            Flow::Returns | Flow::ReturnsIf(_) => true,
            Flow::JumpsToHl => self.image.targets(at).is_empty(),
            _ => false,
        }
    }

    /// Whether the code has a call at an address that returns to another.
    pub fn has_call(self, at: u16, to: u16) -> bool {
        match fetch(at, self.image) {
            Ok(Fetched { instr, next }) => {
                next == to && matches!(instr.flow(), Flow::Calls(_) | Flow::CallsIf(_, _))
            }
            Err(_) => false,
        }
    }

    /// The way on from a state that has the hint with this number; `None` if there is none.
    ///
    /// # Errors
    /// Why it isn't known where the way leads.
    pub fn lead(
        self,
        state: &FollowedState,
        found: Fetched,
        number: usize,
    ) -> Result<Option<Lead>, StopReason> {
        let Fetched { instr, next } = found;
        let known = state.known;
        if number == 0 && self.is_end(state, found)? {
            return Ok(None);
        }
        let steps = self.is_stepped(state, instr)?;
        let (to, taken, left) = match (instr.flow(), number) {
            (Flow::Calls(_) | Flow::CallsIf(_, _), 0) if steps => {
                (Some(next), false, Some(Known::ANY))
            }
            (Flow::CallsIf(_, _), 1) if steps => (None, false, None),
            (Flow::Calls(to), 0) => (Some(to), true, Some(known)),
            (Flow::Jumps(to), 0) => (Some(to), false, Some(known)),
            (Flow::JumpsIf(condition, to) | Flow::CallsIf(condition, to), 0) => {
                (Some(to), true, given(condition, true, known))
            }
            (Flow::JumpsIf(condition, _) | Flow::CallsIf(condition, _), 1)
            | (Flow::CallsIf(condition, _) | Flow::ReturnsIf(condition), 2) => {
                (Some(next), false, given(condition, false, known))
            }
            (Flow::Returns, 0) => (Some(returned_to(state)?), true, Some(known)),
            (Flow::ReturnsIf(condition), 0) => match given(condition, true, known) {
                Some(left) => (Some(returned_to(state)?), true, Some(left)),
                None => (None, true, None),
            },
            (Flow::Halts, 0) if self.interrupted && state.beside.is_enabled => {
                (Some(next), false, Some(known))
            }
            (Flow::JumpsToHl, number) => (self.jumped_to(state, number)?, false, Some(known)),
            (Flow::Continues | Flow::Pushes | Flow::Pops | Flow::Exchanges, 0) => {
                (Some(next), false, Some(known))
            }
            _ => (None, false, None),
        };
        Ok(match (to, left) {
            (Some(to), Some(known)) => Some(Lead {
                to,
                taken,
                known,
                steps: steps && number == 0,
            }),
            _ => None,
        })
    }

    /// Whether a state's call is stepped over.
    ///
    /// # Errors
    /// If there is no room for what it calls.
    fn is_stepped(self, state: &FollowedState, instr: Instr) -> Result<bool, StopReason> {
        let steps = self.steps_over(instr).is_some();
        if steps && state.stack.is_none() {
            return Err(StopReason::StackNotSet);
        }
        if steps && self.count_deepest(state, instr) > usize::from(self.image.stack()) {
            return Err(StopReason::LeavesStack);
        }
        Ok(steps)
    }

    /// Whether a procedure returns at a state, or a handler is over there.
    ///
    /// # Errors
    /// Why it doesn't do what its instruction there does.
    fn is_end(self, state: &FollowedState, found: Fetched) -> Result<bool, StopReason> {
        match self.start {
            Start::Program { .. } if self.interrupted && is_early(state, found.instr) => {
                Err(StopReason::StackNotSet)
            }
            Start::Program { .. } => Ok(false),
            Start::Handler { .. } => self.is_over(state, found),
            Start::Procedure { .. } if uses_pointer(found.instr) => Err(StopReason::UsesPointer),
            Start::Procedure { .. } => Ok(is_return(found.instr) && is_last(state)),
        }
    }

    /// Whether a handler is over at a state, with its RET, or with an LXI SP that begins the program anew.
    ///
    /// # Errors
    /// Why a handler doesn't do what its instruction there does.
    fn is_over(self, state: &FollowedState, found: Fetched) -> Result<bool, StopReason> {
        let Fetched { instr, next } = found;
        if sets_top(self.image, instr) {
            return Ok(true);
        }
        if uses_pointer(instr) {
            return Err(StopReason::UsesPointer);
        }
        if matches!(instr, Instr::Ei) && !(gives_back(state) && self.has_return(next)) {
            return Err(StopReason::EnablesEarly);
        }
        if self.stores_quiet(instr, state) {
            return Err(StopReason::StoresQuiet);
        }
        let is_last = state.bytes().unwrap_or(&[]).len() == 2;
        match (instr, gives_back(state)) {
            (Instr::Ret, true) => Ok(true),
            _ if is_return(instr) && is_last => Err(StopReason::NotGivenBack),
            _ => Ok(false),
        }
    }

    /// Whether a RET is at an address.
    fn has_return(self, at: u16) -> bool {
        matches!(
            fetch(at, self.image),
            Ok(Fetched {
                instr: Instr::Ret,
                ..
            })
        )
    }

    /// Whether an instruction may store to a quiet address.
    fn stores_quiet(self, instr: Instr, state: &FollowedState) -> bool {
        let is_direct = direct_bytes(instr)
            .into_iter()
            .flatten()
            .any(|address| self.has_quiet(address, address));
        is_direct
            || pointer_span(instr, state.known).is_some_and(|span| self.has_quiet(
                span.first, span.last,
            ))
    }

    /// Whether one of the addresses from one to another is quiet.
    fn has_quiet(self, first: u16, last: u16) -> bool {
        let below = |at: usize| self.quiet_below.get(at).copied().unwrap_or(0);
        below(usize::from(first)) < below(usize::from(last).saturating_add(1))
    }

    /// Where a PCHL goes with the hint that has this number, if it does.
    ///
    /// # Errors
    /// `UnknownJump` if no targets are declared, and HL isn't known.
    fn jumped_to(self, state: &FollowedState, number: usize) -> Result<Option<u16>, StopReason> {
        let words = state.known.hl.words;
        let targets = self.image.targets(state.at);
        match targets.get(number) {
            Some(to) => Ok(Span::alone(*to).is_inside(words).then_some(*to)),
            None if number > 0 || !targets.is_empty() => Ok(None),
            None if words.is_alone() => Ok(Some(words.first)),
            None => Err(StopReason::UnknownJump),
        }
    }
}

/// Whether an instruction enables interrupts before SP is set.
fn is_early(state: &FollowedState, instr: Instr) -> bool {
    matches!(instr, Instr::Ei) && state.stack.is_none()
}

/// Whether an instruction returns.
fn is_return(instr: Instr) -> bool {
    matches!(instr.flow(), Flow::Returns | Flow::ReturnsIf(_))
}

/// Where a return goes from a state.
///
/// # Errors
/// Why that isn't known.
fn returned_to(state: &FollowedState) -> Result<u16, StopReason> {
    match state.bytes() {
        None => Err(StopReason::StackNotSet),
        Some(bytes) if bytes.len() < 2 => Err(StopReason::LeavesStack),
        Some(bytes) => return_address(bytes).ok_or(StopReason::UnknownReturn),
    }
}
