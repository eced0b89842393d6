//! Whether a table of states follows an image.

ghost use Rattle.std.specs.Prelude.{◌≡◌, ◌⊎◌, ◌≤◌, ℕ, false, true, Any, Contains, IfOk, IfSome, IsSome, [], length};
ghost use Rattle.std.specs.Option.{option_map};
ghost use Rattle.image80.specs.{Image.memory_of, Regions.AreRegions, Regions.in_data};
ghost use Rattle.verify80_spans.specs.Span.{Within, ByteWithin, IsInside, byte_alone};
ghost use Rattle.verify80_states.specs.{Known.IsKnownInside, Known.cut, Known.nothing_known, Following.known_after, Marks.is_marked, QuietBoards.is_quiet, Steps.AreCodeBytes};
ghost use Rattle.verify80_follow.specs.Follows.{Covers, CoversStack, CoversThen, Follows, FollowsBy, Has, IsBehindCall, IsWay};
ghost use Rattle.verify80_follow.specs.Follows.{JumpsBy, IsExecuted, IsShownOrListed, JumpsByNumber, LeadsIf, LeadsTo, LeavesHalt, MayStand, ways_of};
ghost use Rattle.verify80_follow.specs.Follows.{ReturnsLeft, StateFollows, first_stack, is_call, stack_of};
ghost use Rattle.verify80_follow.specs.Held.{IsBesideInside, beside_then, nothing_beside};
ghost use Rattle.verify80_follow.specs.{Promise.PromiseOf, Reaching.places_of, Tables.IsFit, Tables.fitting_of};
ghost use Rattle.verify80_follow.specs.Stack.{IsStackInside, after_of, bounds_of};
ghost use Rattle.decode80.specs.{Facts.flow, declared.flow.Flow.TheVariants.JumpsToHl, declared.instr.Instr.TheVariants.Ei};
ghost use Rattle.verify80.specs.{LookLaws.fetch_at, Looking.declared_targets, Looking.is_declared};
ghost use Rattle.verify80_stores.specs.DataReach.{AreDataEnds};

use crate::calls::Summary;
use crate::followed::{FollowedState, Listed, RunKind, Way};
use crate::held::{Beside, beside_then};
use crate::laws::followed_programs_keep_the_promise;
use crate::reaching::places_of;
use crate::stack::{
    StackAfter, StackBounds, is_stack_inside, return_address, stack_then, top_of_stack,
};
use decode80::{Condition, Fetched, Flow, Instr, behind, fetch};
use frames80::{Code, LookFault};
use image80::{Image, Range, Regions};
use std::alloc::{AllocError, Global};
use verify80::{ImageCode, looks_are_exact};
use verify80_spans::ByteSpan;
use verify80_states::{APART, Known, Span, code_bytes, given, known_after, mark_quiet};
use verify80_stores::{find_data_ends, is_all_data, is_target, pointer_span};

/// A table of states, as a search proposes it.
#[derive(Drop)]
pub struct Table {
    /// The states; the first hint is that of the image's start.
    pub states: Vec<FollowedState>,
    /// The places of the table that the ways on from each state lead to; or, from `APART` on, where those for each byte of A begin.
    pub hints: Vec<u32>,
    /// Where returns, and PCHLs without declared targets, go beside the addresses behind calls at which states stand.
    pub ways: Vec<Way>,
    /// The stores and jumps that the states leave open.
    pub listed: Listed,
    /// How many bytes the stack has, at most.
    pub bytes: u16,
    /// Summaries of procedures, by which calls are stepped over.
    pub summaries: Vec<Summary>,
}

/// A table with the program that it has to follow.
#[derive(Clone, Copy)]
pub(crate) struct Fit<'a> {
    pub table: &'a [FollowedState],
    pub hints: &'a [u32],
    pub ways: &'a [Way],
    /// Where states stand behind whose calls a return may go.
    pub places: &'a [u16],
    /// By address the number of its place: 65,536 entries, of which those of other addresses count for nothing.
    pub numbers: &'a [u32],
    pub listed: &'a Listed,
    /// The summaries of procedures.
    pub summaries: &'a [Summary],
    pub bytes: u16,
    /// The stack's end and length.
    pub bounds: StackBounds,
    /// Whether the program is interrupted.
    pub interrupted: bool,
    /// The bytes of code, by address.
    pub code: &'a [Option<u8>],
    /// The image, address by address.
    pub program: &'a ImageCode<'a>,
    /// The regions of the image.
    pub regions: &'a Regions,
    /// For each address the first one from there on that is not data.
    pub ends: &'a [u32],
    /// Marks of the quiet addresses.
    pub quiet: &'a [bool],
}

/// A state with the instruction at its address.
#[derive(Clone, Copy)]
pub(crate) struct Standing<'a> {
    pub state: &'a FollowedState,
    pub found: Fetched,
}

/// An instruction that may be executed, and whether targets are declared for it, if it is a PCHL.
#[derive(Clone, Copy)]
pub(crate) struct Executed {
    pub found: Fetched,
    pub by_targets: bool,
}

/// A way on from a state: where it leads, whether a call or return is taken on it, and which hint names the states there.
#[derive(Clone, Copy)]
pub(crate) struct Onward {
    hint: u32,
    taken: bool,
    to: u16,
}

/// Whether a state says no more than this.
pub(crate) fn says_no_more(
    state: &FollowedState,
    known: Known,
    beside: Beside,
    stack: Option<&[ByteSpan]>,
) -> bool
    ensures known { result ≡ true → IsKnownInside [] known state.now.known }
    ensures beside { result ≡ true → IsBesideInside beside state.now.beside }
    ensures stack { result ≡ true → IsStackInside (option_map (λ bytes. bytes.now) stack.entry) (stack_of state.now) }
{
    known.is_inside(state.known, &[])
        && beside.is_inside(state.beside)
        && is_stack_inside(stack, state.bytes())
}

impl Standing<'_> {
    /// The way of a jump, call or return that is taken to an address, by the state's first hint.
    fn taken(&self, to: u16) -> Onward
        ensures taken { result.taken ≡ true }
        ensures to { result.to ≡ to }
    {
        Onward {
            hint: self.state.hint,
            taken: true,
            to,
        }
    }

    /// The way of a jump to an address, by the hint at this place of the state's.
    fn jumped(&self, place: usize, to: u16) -> Onward
        ensures taken { result.taken ≡ false }
        ensures to { result.to ≡ to }
    {
        let place = u32::try_from(place).unwrap_or(u32::MAX);
        Onward {
            hint: self.state.hint.saturating_add(place),
            taken: false,
            to,
        }
    }

    /// The way to the next instruction, by the hint at this place of the state's.
    pub(crate) fn passed(&self, place: usize) -> Onward
        ensures taken { result.taken ≡ false }
        ensures to { result.to ≡ self.now.found.next }
    {
        self.jumped(place, self.found.next)
    }
}

impl Fit<'_> {
    /// Whether a hint names a place of the table with a state at `to` that says no more than this.
    pub(crate) fn has(
        &self,
        hint: u32,
        to: u16,
        known: Known,
        beside: Beside,
        stack: Option<&[ByteSpan]>,
    ) -> bool
        ensures { result ≡ true → Has self.now.table.now to known beside (option_map (λ bytes. bytes.now) stack.entry) }
    {
        let Some(place) = self.hints.get(hint as usize) else {
            return false;
        };
        match self.table.get(*place as usize) {
            Some(state) => state.at == to && says_no_more(state, known, beside, stack),
            None => false,
        }
    }

    /// Whether the first hint names a state at the start that says nothing but, if SP is set there, that the stack is empty.
    fn has_start(&self, start: u16, is_set: bool) -> bool
        ensures { result ≡ true → Has self.now.table.now start nothing_known nothing_beside (first_stack is_set) }
    {
        if is_set {
            self.has(0, start, Known::ANY, Beside::NOTHING, Some(&[]))
        } else {
            self.has(0, start, Known::ANY, Beside::NOTHING, None)
        }
    }

    /// Whether a hint names states at `to` that together say no more than this: one, or one for each byte that A may be.
    fn covers(
        &self,
        hint: u32,
        to: u16,
        known: Known,
        beside: Beside,
        stack: Option<&[ByteSpan]>,
    ) -> bool
        ensures { result ≡ true → Covers self.now.table.now to known beside (option_map (λ bytes. bytes.now) stack.entry) }
    {
        self.has(hint, to, known, beside, stack) || self.has_each(hint, to, known, beside, stack)
    }

    /// Whether a hint names a state at `to` for each byte that A may be, which says no more than this with that byte in A.
    fn has_each(
        &self,
        hint: u32,
        to: u16,
        known: Known,
        beside: Beside,
        stack: Option<&[ByteSpan]>,
    ) -> bool
        ensures { result ≡ true → (byte : ℕ) → ByteWithin known.a byte →
            Has self.now.table.now to (cut known (byte_alone byte)) beside (option_map (λ bytes. bytes.now) stack.entry) }
    {
        let Some(first) = self.hints.get(hint as usize) else {
            return false;
        };
        if *first < APART {
            return false;
        }
        let mut next = *first - APART;
        for number in u32::from(known.a.first)..u32::from(known.a.last) + 1 {
            if !self.has(
                next,
                to,
                known.cut(ByteSpan::alone(number as u8)),
                beside,
                stack,
            ) {
                return false;
            }
            next = next.saturating_add(1);
        }
        true
    }

    /// Whether a way's hint names states that together say no more than what the instruction at a state makes of `known` on that way.
    fn covers_then(
        &self,
        alloc: Global,
        here: Standing<'_>,
        way: Onward,
        known: Known,
    ) -> Result<bool, AllocError>
        ensures { IfOk result (λ covers. covers ≡ true → CoversThen self.now.bounds
            (fitting_of self.now) here.entry.state.now here.entry.found way.taken way.to known) }
    {
        let Standing { state, found } = here;
        let bounds = self.bounds;
        let top = top_of_stack(bounds, state.bytes());
        let after = known_after(self.code, found.instr, top, known);
        let stack = stack_then(alloc, bounds, found, way.taken, known, state.bytes())?;
        let covers = self.covers_stack(here, way, after, &stack);
        Ok(covers)
    }

    /// Whether a way's hint names states that together say no more than this with what is left of a stack, which isn't too deep, and with what is
    /// said beside them then.
    fn covers_stack(
        &self,
        here: Standing<'_>,
        way: Onward,
        known: Known,
        stack: &StackAfter,
    ) -> bool
        ensures { result ≡ true → CoversStack self.now.table.now self.now.bytes way.to known (λ left. beside_then here.entry.found.instr
            (stack_of here.entry.state.now) left here.entry.state.now.beside) (after_of stack.now) }
    {
        let Onward { hint, to, .. } = way;
        let Standing { state, found } = here;
        match stack {
            StackAfter::Refused => false,
            StackAfter::Unset => {
                let beside = beside_then(found.instr, state.bytes(), None, state.beside);
                self.covers(hint, to, known, beside, None)
            }
            StackAfter::Set(bytes) => {
                let beside = beside_then(found.instr, state.bytes(), Some(bytes), state.beside);
                is_within(Some(bytes), self.bytes)
                    && self.covers(hint, to, known, beside, Some(bytes))
            }
        }
    }

    /// Whether a way's hint names states that cover what is left of a state on that way; true if nothing is left.
    pub(crate) fn leads_to(
        &self,
        alloc: Global,
        here: Standing<'_>,
        way: Onward,
        left: Option<Known>,
    ) -> Result<bool, AllocError>
        ensures { IfOk result (λ leads. leads ≡ true → LeadsTo self.now.bounds
            (fitting_of self.now) here.entry.state.now here.entry.found way.taken way.to left) }
    {
        match left {
            None => Ok(true),
            Some(known) => self.covers_then(alloc, here, way, known),
        }
    }

    /// Whether a jump or call under a condition is covered where it leads and behind it.
    fn leads_if(
        &self,
        alloc: Global,
        here: Standing<'_>,
        condition: Condition,
        to: u16,
    ) -> Result<bool, AllocError>
        ensures { IfOk result (λ leads. leads ≡ true → LeadsIf self.now.bounds
            (fitting_of self.now) here.entry.state.now here.entry.found condition to) }
    {
        let known = here.state.known;
        let taken = self.leads_to(alloc, here, here.taken(to), given(condition, true, known))?;
        if !taken {
            return Ok(false);
        }
        self.leads_to(alloc, here, here.passed(1), given(condition, false, known))
    }

    /// Whether an address is one of the places.
    fn is_place(&self, at: u16) -> bool
        ensures { result ≡ true → Contains self.now.places.now at }
    {
        let Some(number) = self.numbers.get(usize::from(at)) else {
            return false;
        };
        match self.places.get(*number as usize) {
            Some(place) => *place == at,
            None => false,
        }
    }

    /// Whether the code has a call at an address that returns to another, and a state stands there.
    fn has_call_at(&self, at: u16, to: u16) -> bool
        ensures { result ≡ true → IsBehindCall self.now.program.now self.now.places.now to }
    {
        if !self.is_place(at) {
            return false;
        }
        match fetch(at, self.program) {
            Ok(found) => found.next == to && is_call(found.instr.flow()),
            Err(_) => false,
        }
    }

    /// Whether a return or PCHL at an address may go to another: a state stands at a call before that, or a hint names the way.
    fn is_way(&self, hint: u32, at: u16, to: u16) -> bool
        ensures { result ≡ true → IsWay self.now.program.now (ways_of self.now.ways.now self.now.places.now) at to }
    {
        self.has_call_at(behind(to, 3), to)
            || self.has_call_at(behind(to, 1), to)
            || self.is_listed(hint, at, to)
    }

    /// Whether a hint names a way in the list.
    fn is_listed(&self, hint: u32, at: u16, to: u16) -> bool
        ensures { result ≡ true → Contains self.now.ways.now (record { at = at; to = to }) }
    {
        let Some(place) = self.hints.get(hint as usize) else {
            return false;
        };
        match self.ways.get(*place as usize) {
            Some(way) => way.at == at && way.to == to,
            None => false,
        }
    }

    /// Whether a state knows where a return goes that is taken, may go there, and is covered there.
    fn returns_to(
        &self,
        alloc: Global,
        here: Standing<'_>,
        left: Option<Known>,
    ) -> Result<bool, AllocError>
        ensures { IfOk result (λ returns. returns ≡ true → ReturnsLeft self.now.bounds
            (fitting_of self.now) here.entry.state.now here.entry.found left) }
    {
        let Some(known) = left else {
            return Ok(true);
        };
        let state = here.state;
        match state.bytes().and_then(return_address) {
            Some(to) if self.is_way(state.hint.saturating_add(1), state.at, to) => {
                self.covers_then(alloc, here, here.taken(to), known)
            }
            _ => Ok(false),
        }
    }

    /// Whether a PCHL without declared targets goes where HL is known to be, may go there, and the state is covered there.
    fn jumps_by_number(&self, alloc: Global, here: Standing<'_>) -> Result<bool, AllocError>
        ensures { IfOk result (λ jumps. jumps ≡ true → JumpsByNumber self.now.bounds (fitting_of self.now) here.entry.state.now here.entry.found) }
    {
        let state = here.state;
        let words = state.known.hl.words;
        if !words.is_alone() || !self.is_way(state.hint.saturating_add(1), state.at, words.first) {
            return Ok(false);
        }
        self.covers_then(alloc, here, here.jumped(0, words.first), state.known)
    }

    /// Whether a PCHL is covered at each of its declared targets that HL may be.
    fn jumps_to_each(&self, alloc: Global, here: Standing<'_>) -> Result<bool, AllocError>
        ensures { IfOk result (λ jumps. jumps ≡ true → JumpsBy self.now.bounds (fitting_of self.now) here.entry.state.now here.entry.found true) }
    {
        let targets = self.program.targets(here.state.at);
        for place in 0..targets.len() {
            if !self.covers_target(alloc, here, place, targets[place])? {
                return Ok(false);
            }
        }
        Ok(true)
    }

    /// Whether HL can't be the target at a place of a PCHL's targets, or the state is covered there.
    fn covers_target(
        &self,
        alloc: Global,
        here: Standing<'_>,
        place: usize,
        to: u16,
    ) -> Result<bool, AllocError>
        ensures { IfOk result (λ covers. covers ≡ true → Within here.entry.state.now.known.hl.words to →
            CoversThen self.now.bounds (fitting_of self.now) here.entry.state.now here.entry.found false to here.entry.state.now.known) }
    {
        let known = here.state.known;
        let words = known.hl.words;
        if !(words.first <= to && to <= words.last) {
            return Ok(true);
        }
        self.covers_then(alloc, here, here.jumped(place, to), known)
    }

    /// Whether what an instruction makes of a state is covered wherever it leads; `by_targets` says whether targets are declared for a PCHL.
    fn follows_by(
        &self,
        alloc: Global,
        here: Standing<'_>,
        by_targets: bool,
    ) -> Result<bool, AllocError>
        requires declared { flow here.found.instr ≡ JumpsToHl → is_declared self.now.program.now.regions here.state.now.at ≡ by_targets }
        ensures { IfOk result (λ follows. follows ≡ true → FollowsBy self.now.bounds (fitting_of self.now) here.entry.state.now here.entry.found
            (flow here.entry.found.instr)) }
    {
        let known = here.state.known;
        match here.found.instr.flow() {
            Flow::Jumps(to) => self.leads_to(alloc, here, here.jumped(0, to), Some(known)),
            Flow::Calls(to) => self.leads_to(alloc, here, here.taken(to), Some(known)),
            Flow::JumpsIf(condition, to) | Flow::CallsIf(condition, to) => {
                self.leads_if(alloc, here, condition, to)
            }
            Flow::JumpsToHl if by_targets => self.jumps_to_each(alloc, here),
            Flow::JumpsToHl => self.jumps_by_number(alloc, here),
            Flow::Returns => self.returns_to(alloc, here, Some(known)),
            Flow::ReturnsIf(condition) => {
                if !self.returns_to(alloc, here, given(condition, true, known))? {
                    return Ok(false);
                }
                self.leads_to(alloc, here, here.passed(2), given(condition, false, known))
            }
            Flow::Halts => Ok(self.leaves_halt(here)),
            Flow::Continues | Flow::Pushes | Flow::Pops | Flow::Exchanges => {
                self.leads_to(alloc, here, here.passed(0), Some(known))
            }
        }
    }

    /// Whether a HLT is covered behind it as it is come to, if the program is interrupted and interrupts may come.
    fn leaves_halt(&self, here: Standing<'_>) -> bool
        ensures { result ≡ true → LeavesHalt self.now.bounds (fitting_of self.now) here.entry.state.now here.entry.found }
    {
        let Standing { state, found } = here;
        !self.interrupted
            || !state.beside.is_enabled
            || self.covers(
                state.hint,
                found.next,
                state.known,
                state.beside,
                state.bytes(),
            )
    }

    /// Whether an instruction in a state stores by a pair to data, and jumps to a declared target if such are declared, or is listed.
    fn is_shown_or_listed(&self, instr: Instr, state: &FollowedState) -> bool
        requires ends { AreDataEnds self.now.regions.now self.now.ends.now }
        ensures { result ≡ true → IsShownOrListed self.now.regions.now self.now.listed.now instr state.now }
    {
        match pointer_span(instr, state.known) {
            Some(span) => {
                is_all_data(self.regions, self.ends, span) || self.lists_store(state.at, span)
            }
            None => !matches!(instr, Instr::Pchl) || self.jumps_as_listed(state),
        }
    }

    /// Whether a store is listed at an address with each of these addresses.
    fn lists_store(&self, at: u16, span: Span) -> bool
        ensures { result ≡ true → Any (λ store. (store.at ≡ at) × IsInside span store.span) self.now.listed.now.stores.items }
    {
        let stores = self.listed.stores.as_slice();
        let place = stores.partition_point(|store| store.at < at);
        match stores.get(place) {
            Some(store) => store.at == at && span.is_inside(store.span),
            None => false,
        }
    }

    /// Whether HL is a declared target at a state, if such are declared there, or the PCHL is listed.
    fn jumps_as_listed(&self, state: &FollowedState) -> bool
        ensures { result ≡ true → is_declared self.now.regions.now state.now.at ≡ true →
            ((to : ℕ) → Within state.now.known.hl.words to → Contains (declared_targets self.now.regions.now state.now.at) to) ⊎ Contains self.now.listed.now.jumps.items state.now.at }
    {
        match self.regions.targets(state.at) {
            Some(targets) => {
                is_target(targets, state.known.hl.words) || self.lists_jump(state.at)
            }
            None => true,
        }
    }

    /// Whether a PCHL is listed.
    fn lists_jump(&self, at: u16) -> bool
        ensures { result ≡ true → Contains self.now.listed.now.jumps.items at }
    {
        let jumps = self.listed.jumps.as_slice();
        let place = jumps.partition_point(|jump| *jump < at);
        match jumps.get(place) {
            Some(jump) => *jump == at,
            None => false,
        }
    }

    /// Whether an instruction lets no interrupts in before SP is set, if the program is interrupted.
    fn serves(&self, instr: Instr, state: &FollowedState) -> bool
        ensures { result ≡ true → self.now.interrupted ≡ true → instr ≡ Ei → IsSome (stack_of state.now) }
    {
        !self.interrupted || !matches!(instr, Instr::Ei) || state.bytes().is_some()
    }

    /// The instruction that is fetched at an address, with whether targets are declared.
    fn executed_by(&self, at: u16, by_targets: bool) -> Option<Executed>
        ensures { IfSome result (λ it. (fetch_at self.now.program.now.regions (memory_of self.now.program.now.chunks) at ≡ Ok it.found) ×
            (it.by_targets ≡ by_targets)) }
    {
        match fetch(at, self.program) {
            Ok(found) => Some(Executed { found, by_targets }),
            Err(_) => None,
        }
    }

    /// The instruction at an address, if one may be executed there.
    pub(crate) fn executed(&self, at: u16) -> Option<Executed>
        ensures executed { IfSome result (λ it. IsExecuted self.now.program.now self.now.interrupted at it.found) }
        ensures declared { IfSome result (λ it. flow it.found.instr ≡ JumpsToHl → is_declared self.now.program.now.regions at ≡ it.by_targets) }
    {
        looks_are_exact();
        match self.program.look(at) {
            Ok(found) => Some(Executed {
                found,
                by_targets: true,
            }),
            Err(LookFault::Pchl) => self.executed_by(at, false),
            Err(LookFault::EnablesInterrupts) if self.interrupted => self.executed_by(at, true),
            Err(_) => None,
        }
    }

    /// Whether an instruction may be executed in a state.
    pub(crate) fn may_stand(&self, instr: Instr, state: &FollowedState) -> bool
        requires regions { self.now.regions.now ≡ self.now.program.now.regions }
        requires ends { AreDataEnds self.now.regions.now self.now.ends.now }
        ensures { result ≡ true → MayStand (fitting_of self.now) instr state.now }
    {
        if !state.known.is_quiet(self.quiet)
            || !is_within(state.bytes(), self.bytes)
            || !self.is_shown_or_listed(instr, state)
            || !self.serves(instr, state)
        {
            return false;
        }
        true
    }

    /// Whether a state fits the instruction at its address.
    pub(crate) fn state_follows(
        &self,
        alloc: Global,
        state: &FollowedState,
    ) -> Result<bool, AllocError>
        requires regions { self.now.regions.now ≡ self.now.program.now.regions }
        requires ends { AreDataEnds self.now.regions.now self.now.ends.now }
        ensures { IfOk result (λ follows. follows ≡ true → StateFollows self.now.bounds (fitting_of self.now) state.now) }
    {
        let Some(executed) = self.executed(state.at) else {
            return Ok(false);
        };
        let found = executed.found;
        if !self.may_stand(found.instr, state) {
            return Ok(false);
        }
        self.follows_by(alloc, Standing { state, found }, executed.by_targets)
    }
}

/// Whether an instruction calls.
fn is_call(flow: Flow) -> bool
    ensures { result ≡ is_call flow }
{
    matches!(flow, Flow::Calls(_) | Flow::CallsIf(_, _))
}

/// The end and length of a program's stack.
fn bounds_of(program: &ImageCode<'_>) -> StackBounds
    ensures { result ≡ bounds_of program.now }
{
    StackBounds {
        top: program.top(),
        length: program.stack(),
    }
}

/// Whether no more bytes are on the stack than `most`.
fn is_within(bytes: Option<&[ByteSpan]>, most: u16) -> bool
    ensures { result ≡ true → IfSome (option_map (λ bytes. bytes.now) bytes.entry) (λ stack. length stack ≤ most) }
{
    match bytes {
        None => true,
        Some(bytes) => bytes.len() <= usize::from(most),
    }
}

/// Whether a table follows an image, so that every run of the image on a board that leaves the quiet addresses alone keeps the promise: those
/// of data in the ranges `quiet`.
///
/// `run.is_set` says whether SP is at the stack's top when a run begins; else it may be anywhere. `run.interrupted` says whether the program is
/// interrupted, by what gives back all but the bytes that devices may write, too.
///
/// # Errors
/// `AllocError` if memory runs out.
pub fn follows(
    alloc: Global,
    image: &Image,
    table: &Table,
    quiet: &[Range],
    run: RunKind,
) -> Result<bool, AllocError>
    ensures promise { IfOk result (λ follows. follows ≡ true →
        PromiseOf run.interrupted image.now (is_quiet image.now.regions quiet.now) run.is_set (places_of table.now []) table.now.ways.items table.now.listed table.now.bytes) }
    ensures fit { IfOk result (λ follows. follows ≡ true → IsFit image.now run.interrupted
        (is_quiet image.now.regions quiet.now) run.is_set table.now []) }
{
    image.regions.stack();
    let code = code_bytes(alloc, image)?;
    let marks = mark_quiet(alloc, &image.regions, quiet)?;
    follows_marked(alloc, image, table, &code, &marks, run)
}

/// Whether a table follows an image, with the image's code by address, and marks of the quiet addresses.
fn follows_marked(
    alloc: Global,
    image: &Image,
    table: &Table,
    code: &[Option<u8>],
    quiet: &[bool],
    run: RunKind,
) -> Result<bool, AllocError>
    requires rules { AreRegions image.now.regions }
    requires code { AreCodeBytes image.now code.now }
    requires quiet { (at : ℕ) → is_marked quiet.now at ≡ true → in_data image.now.regions at ≡ true }
    ensures promise { IfOk result (λ follows. follows ≡ true → PromiseOf run.interrupted image.now (is_marked quiet.now) run.is_set
        (places_of table.now [])
        table.now.ways.items table.now.listed table.now.bytes) }
    ensures fit { IfOk result (λ follows. follows ≡ true → IsFit image.now run.interrupted (is_marked quiet.now) run.is_set table.now []) }
{
    followed_programs_keep_the_promise();
    let places = places_of(alloc, table, &[])?;
    fits(alloc, image, table, &places, code, quiet, run)
}

/// By address the number of a place there: 65,536 entries. It is 0 elsewhere, too: who looks a number up compares the place's own address.
pub(crate) fn number_places(alloc: Global, places: &[u16]) -> Result<Vec<u32>, AllocError> {
    let mut numbers = vec![in alloc; 0; 65_536]?;
    for (number, place) in places.iter().enumerate() {
        if let Some(entry) = numbers.get_mut(usize::from(*place)) {
            *entry = u32::try_from(number).unwrap_or(u32::MAX);
        }
    }
    Ok(numbers)
}

/// Whether each state of a table fits an image, one of them at its start, and there is room for its stack; `places` are those behind whose calls
/// returns may go.
pub(crate) fn fits(
    alloc: Global,
    image: &Image,
    table: &Table,
    places: &[u16],
    code: &[Option<u8>],
    quiet: &[bool],
    run: RunKind,
) -> Result<bool, AllocError>
    requires code { AreCodeBytes image.now code.now }
    ensures fits { IfOk result (λ fits. fits ≡ true →
        (follows : Follows image.now run.interrupted (is_marked quiet.now) run.is_set (ways_of table.now.ways.items places.now) table.now.listed table.now.states.items table.now.bytes)
        × ((follows.summaries ≡ table.now.summaries.items) × (table.now.bytes ≤ image.now.regions.stack.length))) }
{
    let program = ImageCode::new(alloc, image)?;
    let ends = find_data_ends(alloc, &image.regions)?;
    let numbers = number_places(alloc, places)?;
    let fit = Fit {
        table: &table.states,
        hints: &table.hints,
        ways: &table.ways,
        places,
        numbers: &numbers,
        listed: &table.listed,
        summaries: &table.summaries,
        bytes: table.bytes,
        bounds: bounds_of(&program),
        interrupted: run.interrupted,
        code,
        program: &program,
        regions: &image.regions,
        ends: &ends,
        quiet,
    };
    if table.bytes > program.stack() || !fit.has_start(program.start(), run.is_set) {
        return Ok(false);
    }
    if !fit.fits_summaries(alloc)? {
        return Ok(false);
    }
    fit.all_go(alloc)
}
