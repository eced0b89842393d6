//! Whether a table of states fits a program.

ghost use Rattle.std.specs.List.{list_all};
ghost use Rattle.std.specs.Prelude.{◌≡◌, ◌<◌, ℕ, Bool, true, false, All, Contains, Some, length};
ghost use Rattle.decode80.specs.{declared.fetching.Fetched.Fetched, Facts.flow};
ghost use Rattle.image80.specs.Regions.{AreRegions, in_data};
ghost use Rattle.verify80.specs.{Looking.code_of, Looking.declared_targets, Reached.AreReached, Reached.found_at};
ghost use Rattle.verify80_states.specs.{State.cut_state, State.unknown_but, Following.is_steady, Following.state_after, Marks.is_marked};
ghost use Rattle.verify80_states.specs.{Steps.AreCodeBytes, FittingTable.AccountsAt, FittingTable.FitsWhereReached, Runs.IsKept};
ghost use Rattle.verify80_spans.specs.Span.{Within, ByteWithin, byte_alone};
ghost use Rattle.verify80_states.specs.Fitting.{CallsEntry, Has, Covers, CoversAfter, FitsAt, KnowsQuiet};
ghost use Rattle.verify80_states.specs.Calls.{AccountsFor, KnowsReturn, KnowsReturnsOf, returns_of};

use crate::fitting::calls::CallReturns;
use crate::fitting::laws::fitting_states_hold;
use crate::fitting::marks::{entry_at, is_marked};
use crate::fitting::reached::targets_at;
use crate::states::{Known, State, Variable, is_steady, state_after};
use decode80::{Fetched, Flow};
use image80::{Image, Regions};
use verify80_spans::{ByteSpan, Span};

/// The first hint that names no place in a table: less this, it says where the hints of A's bytes begin, one for each byte that A may be.
pub const APART: u32 = 0x8000_0000;

/// A state at an address.
#[derive(Clone, Copy)]
pub struct Placed {
    pub at: u16,
    pub state: State,
    /// Where the state's hints begin: one for each way on, which names a state that says no more, or one such state for each byte of A.
    pub hint: u32,
}

/// A table of states that is proposed for a program, with what has to be believed of the program beside them.
#[derive(Drop)]
pub struct StateTable {
    /// The states.
    pub states: Vec<Placed>,
    /// The places in the table that the ways on from each state lead to; or, from [`APART`] on, where those for each byte of A begin. The
    /// first is that of the program's start.
    pub hints: Vec<u32>,
    /// Whether procedures return, and whether it is known where to.
    pub returns: CallReturns,
    /// The variables that the states name.
    pub variables: Vec<Variable>,
}

impl StateTable {
    /// Whether the table fits an image, so that all runs of the image keep to it. `code` has the image's code by address, `reached` the
    /// instructions on its walks, and `quiet` the marks of addresses: the table may know bytes of these alone.
    pub fn fits(
        &self,
        image: &Image,
        code: &[Option<u8>],
        reached: &[Option<Fetched>],
        quiet: &[bool],
    ) -> bool
        requires reached { AreReached (code_of image.now) reached.now }
        requires whole { length reached.now ≡ 65536 }
        requires rules { AreRegions image.now.regions }
        requires code { AreCodeBytes image.now code.now }
        ensures { result ≡ true → (is_quiet : ℕ → Bool) → ((at : ℕ) → is_marked quiet.now at ≡ true → is_quiet at ≡ true) →
            ((at : ℕ) → is_quiet at ≡ true → in_data image.now.regions at ≡ true) → IsKept image.now is_quiet self.now.states.items }
    {
        let fit = Fit {
            table: &self.states,
            hints: &self.hints,
            returns: &self.returns,
            variables: &self.variables,
            code,
            regions: &image.regions,
            reached,
        };
        fit.fits(image, quiet)
    }
}

/// A table of states with its hints, and the program that it has to fit.
#[derive(Clone, Copy)]
pub(crate) struct Fit<'a> {
    /// The states of the table.
    pub table: &'a [Placed],
    /// The places in the table that the ways on from each state lead to; or, from `APART` on, where those for each byte of A begin.
    pub hints: &'a [u32],
    /// Whether procedures return, and whether it is known where to.
    pub returns: &'a CallReturns,
    /// The variables that the states of the table name.
    pub variables: &'a [Variable],
    /// The bytes of code, by address.
    pub code: &'a [Option<u8>],
    /// The regions, with the targets of each PCHL.
    pub regions: &'a Regions,
    /// The instructions that are reached, by address.
    pub reached: &'a [Option<Fetched>],
}

impl Fit<'_> {
    /// Whether a hint names a place of the table with a state at `to` that says no more than `state`.
    fn has(&self, hint: u32, to: u16, state: State) -> bool
        ensures { result ≡ true → Has self.now.variables.now self.now.table.now to state }
    {
        let Some(place) = self.hints.get(hint as usize) else {
            return false;
        };
        match self.table.get(*place as usize) {
            Some(placed) => placed.at == to && state.is_inside(placed.state, self.variables),
            None => false,
        }
    }

    /// Whether a hint names states at `to` that together say no more than `state`: one, or one for each byte that A may be.
    fn covers(&self, hint: u32, to: u16, state: State) -> bool
        ensures { result ≡ true → Covers self.now.variables.now self.now.table.now to state }
    {
        self.has(hint, to, state) || self.has_each(hint, to, state)
    }

    /// Whether a hint names a state at `to` for each byte that A may be, which says no more than `state` with this byte in A.
    fn has_each(&self, hint: u32, to: u16, state: State) -> bool
        ensures { result ≡ true → (byte : ℕ) → ByteWithin state.known.a byte →
            Has self.now.variables.now self.now.table.now to (cut_state state (byte_alone byte)) }
    {
        let Some(first) = self.hints.get(hint as usize) else {
            return false;
        };
        if *first < APART {
            return false;
        }
        let mut next = *first - APART;
        for number in u32::from(state.known.a.first)..u32::from(state.known.a.last) + 1 {
            if !self.has(next, to, state.cut(ByteSpan::alone(number as u8))) {
                return false;
            }
            next = next.saturating_add(1);
        }
        true
    }

    /// Whether a hint names states at `to` that together say no more than what an instruction makes of `left`; true if no state is left.
    /// `taken` says whether its call or return is taken.
    fn covers_after(
        &self,
        hint: u32,
        to: u16,
        found: Fetched,
        taken: bool,
        left: Option<State>,
    ) -> bool
        ensures { result ≡ true → CoversAfter self.now.variables.now self.now.table.now to
            (λ t. state_after self.now.code.now found.instr taken found.next t) left }
    {
        match left {
            None => true,
            Some(state) => self.covers(hint, to, self.after(found, taken, state)),
        }
    }

    /// The state after an instruction; `taken` says whether its call or return is taken.
    fn after(&self, found: Fetched, taken: bool, state: State) -> State
        ensures { result ≡ state_after self.now.code.now found.instr taken found.next state }
    {
        state_after(self.code, found.instr, taken, found.next, state)
    }

    /// Whether hints name states at each of these targets that HL may be, which together say no more than `state`.
    fn has_at_each(&self, hint: u32, targets: &[u16], hl: Span, state: State) -> bool
        ensures { result ≡ true → (to : ℕ) → Contains targets.now to → Within hl to → Covers self.now.variables.now self.now.table.now to state }
    {
        targets.iter().enumerate().all(|(place, to)| {
            self.covers_target(hint, place, *to, hl, state)
        })
    }

    /// Whether HL can't be the target `to`, or the hint at a place from `hint` on names states there, which together say no more than
    /// `state`.
    fn covers_target(&self, hint: u32, place: usize, to: u16, hl: Span, state: State) -> bool
        ensures { result ≡ true → Within hl to → Covers self.now.variables.now self.now.table.now to state }
    {
        let next = hint.saturating_add(u32::try_from(place).unwrap_or(u32::MAX));
        !(hl.first <= to && to <= hl.last) || self.covers(next, to, state)
    }

    /// Whether the table covers what the instruction at a state's address makes of it, wherever the instruction leads but by a return.
    fn state_fits(&self, targets: &[u16], placed: Placed, found: Fetched) -> bool
        ensures { result ≡ true → FitsAt self.now.code.now targets.now self.now.variables.now self.now.table.now placed.state found }
    {
        let Placed { at: _, state, hint } = placed;
        let Fetched { instr, next } = found;
        let second = hint.saturating_add(1);
        match instr.flow() {
            Flow::Continues => self.covers_after(hint, next, found, false, Some(state)),
            Flow::Pushes => self.covers_after(hint, next, found, false, Some(state)),
            Flow::Pops => self.covers_after(hint, next, found, false, Some(state)),
            Flow::Exchanges => self.covers_after(hint, next, found, false, Some(state)),
            Flow::Jumps(to) => self.covers_after(hint, to, found, false, Some(state)),
            Flow::JumpsIf(condition, to) | Flow::CallsIf(condition, to) => {
                self.covers_after(hint, to, found, true, state.given(condition, true))
                    && self.covers_after(second, next, found, false, state.given(condition, false))
            }
            Flow::JumpsToHl => self.has_at_each(
                hint,
                targets,
                state.known.hl.words,
                self.after(found, false, state),
            ),
            Flow::Calls(to) => self.covers_after(hint, to, found, true, Some(state)),
            Flow::ReturnsIf(condition) => {
                self.covers_after(hint, next, found, false, state.given(condition, false))
            }
            Flow::Returns | Flow::Halts => true,
        }
    }

    /// Whether each state of the table fits the instruction at its address.
    fn all_fit(&self) -> bool
        ensures { result ≡ true → All (FitsWhereReached self.now.regions.now self.now.code.now
            (returns_of self.now.returns.now) self.now.reached.now self.now.variables.now self.now.table.now) self.now.table.now }
    {
        self.table.iter().all(|placed| self.placed_fits(*placed))
    }

    /// Whether a state of the table fits the instruction at its address; true if none is reached there.
    fn placed_fits(&self, placed: Placed) -> bool
        ensures { result ≡ true → FitsWhereReached self.now.regions.now self.now.code.now
            (returns_of self.now.returns.now) self.now.reached.now self.now.variables.now self.now.table.now placed }
    {
        match entry_at(self.reached, placed.at) {
            Some(found) => {
                if !self.state_fits(targets_at(self.regions, placed.at), placed, found) {
                    return false;
                }
                if !self.keeps_behind(placed, found) {
                    return false;
                }
                if !self.are_steady(placed, found) {
                    return false;
                }
                self.keeps_returns(placed, found)
            }
            None => true,
        }
    }

    /// Whether a state at a return knows where that goes, and the table covers what comes of the state there; true if the states at its
    /// address need not know it.
    fn keeps_returns(&self, placed: Placed, found: Fetched) -> bool
        ensures { result ≡ true → (returns_of self.now.returns.now).known placed.at ≡ true →
            KnowsReturnsOf self.now.variables.now self.now.table.now (λ t. state_after self.now.code.now found.instr true found.next t) placed.state
            (flow found.instr) }
    {
        if !self.returns.know_return(placed.at) {
            return true;
        }
        match found.instr.flow() {
            Flow::Returns => self.knows_return(placed.hint, found, placed.state),
            Flow::ReturnsIf(condition) => match placed.state.given(condition, true) {
                Some(left) => self.knows_return(placed.hint.saturating_add(1), found, left),
                None => true,
            },
            _ => true,
        }
    }

    /// Whether a state knows where a return that is taken goes, and the table covers what comes of the state there.
    fn knows_return(&self, hint: u32, found: Fetched, state: State) -> bool
        ensures { result ≡ true → KnowsReturn self.now.variables.now self.now.table.now
            (λ t. state_after self.now.code.now found.instr true found.next t) state }
    {
        match state.words.first {
            Some(word) => {
                word.words.is_alone()
                    && self.covers(hint, word.words.first, self.after(found, true, state))
            }
            None => false,
        }
    }

    /// Whether the table has a state behind a state's call that says nothing but of the caller's variables; true if the instruction is no
    /// call, or if no return comes or each is known.
    fn keeps_behind(&self, placed: Placed, found: Fetched) -> bool
        ensures { result ≡ true → (entry : ℕ) → CallsEntry (flow found.instr) entry → (returns_of self.now.returns.now).may entry ≡ true →
            (returns_of self.now.returns.now).known entry ≡ false → Has self.now.variables.now self.now.table.now found.next
            (unknown_but placed.state.known.set) }
    {
        let Fetched { instr, next } = found;
        let Placed { at: _, state, hint } = placed;
        match instr.flow() {
            Flow::Calls(entry) => {
                self.has_behind(hint.saturating_add(1), entry, next, state.known.set)
            }
            Flow::CallsIf(_, entry) => {
                self.has_behind(hint.saturating_add(2), entry, next, state.known.set)
            }
            _ => true,
        }
    }

    /// Whether the table has a state at `next` that says nothing but of the variables of `set`; true if no return comes from `entry` on, or
    /// each is known.
    fn has_behind(&self, hint: u32, entry: u16, next: u16, set: u64) -> bool
        ensures { result ≡ true → (returns_of self.now.returns.now).may entry ≡ true → (returns_of self.now.returns.now).known entry ≡ false →
            Has self.now.variables.now self.now.table.now next (unknown_but set) }
    {
        !self.returns.may_return(entry)
            || self.returns.know_return(entry)
            || self.has(
                hint,
                next,
                State {
                    known: Known { set, ..Known::ANY },
                    ..State::ANY
                },
            )
    }

    /// Whether the table fits the image whose program this is: all runs of the image keep to it.
    fn fits(&self, image: &Image, quiet: &[bool]) -> bool
        requires reached { AreReached (code_of image.now) self.now.reached.now }
        requires whole { length self.now.reached.now ≡ 65536 }
        requires rules { AreRegions image.now.regions }
        requires regions { self.now.regions.now ≡ image.now.regions }
        requires code { AreCodeBytes image.now self.now.code.now }
        ensures { result ≡ true → (is_quiet : ℕ → Bool) → ((at : ℕ) → is_marked quiet.now at ≡ true → is_quiet at ≡ true) →
            ((at : ℕ) → is_quiet at ≡ true → in_data image.now.regions at ≡ true) → IsKept image.now is_quiet self.now.table.now }
    {
        fitting_states_hold();
        if !all_know_quiet(self.table, quiet) {
            return false;
        }
        if !are_quiet(self.variables, quiet) {
            return false;
        }
        if !self.has(0, image.start, State::ANY) {
            return false;
        }
        if !all_account(self.regions, self.returns, self.reached) {
            return false;
        }
        self.all_fit()
    }

    /// Whether each byte that a state's instruction stores where a variable may be is one of the variable's bytes, for all variables.
    fn are_steady(&self, placed: Placed, found: Fetched) -> bool
        ensures { result ≡ list_all (is_steady self.now.code.now found.instr placed.state.known) self.now.variables.now }
    {
        let known = placed.state.known;
        self.variables.iter().all(|variable| is_steady(self.code, found.instr, known, *variable))
    }
}

/// Whether each reached address accounts for the addresses where its instruction leads.
fn all_account(regions: &Regions, returns: &CallReturns, reached: &[Option<Fetched>]) -> bool
    ensures { result ≡ true → (at : ℕ) → at < 65536 → AccountsAt regions.now (returns_of returns.now) reached.now at }
{
    for at in 0..65_536_usize {
        if !accounts_at(regions, returns, reached, at as u16) {
            return false;
        }
    }
    true
}

/// Whether `at` accounts for the addresses where its instruction leads; true if no instruction is reached there.
fn accounts_at(
    regions: &Regions,
    returns: &CallReturns,
    reached: &[Option<Fetched>],
    at: u16,
) -> bool
    ensures { result ≡ true → AccountsAt regions.now (returns_of returns.now) reached.now at }
{
    entry_at(reached, at).is_none_or(|found| returns.accounts_for(
        targets_at(regions, at),
        at,
        found,
    ))
}

/// Whether each state of a table says something of quiet addresses alone.
fn all_know_quiet(table: &[Placed], quiet: &[bool]) -> bool
    ensures { result ≡ true → KnowsQuiet (is_marked quiet.now) table.now }
{
    table
        .iter()
        .all(|placed| placed.state.known.is_quiet(quiet))
}

/// Whether each variable is at a quiet address.
fn are_quiet(variables: &[Variable], quiet: &[bool]) -> bool
    ensures { result ≡ list_all (λ v. is_marked quiet.now v.at) variables.now }
{
    variables
        .iter()
        .all(|variable| is_marked(quiet, variable.at))
}
