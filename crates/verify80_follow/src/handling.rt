//! Whether a table of states follows a handler, wherever the stack is when it is entered.

ghost use Rattle.std.specs.Prelude.{◌≡◌, ◌<◌, ◌≤◌, ◌+◌, ◌∷◌, ℕ, Some, [], false, true, All, IfOk, IfSome, length, map};
ghost use Rattle.decode80.specs.{Fetch.direct_bytes, declared.instr.Instr.TheVariants.Ei};
ghost use Rattle.image80.specs.Regions.{AreRegions, in_data};
ghost use Rattle.verify80_spans.specs.Span.{Within};
ghost use Rattle.verify80_states.specs.{Known.IsKnownInside, Known.nothing_known, Marks.is_marked, QuietBoards.is_quiet, Steps.AreCodeBytes};
ghost use Rattle.verify80_stores.specs.{DataReach.AreDataEnds, Opening.pointer_span};
ghost use Rattle.verify80_follow.specs.Follows.{Has, stack_of, uses_pointer, entered_stack};
ghost use Rattle.verify80_follow.specs.Held.{IsBesideInside, count_of, nothing_beside};
ghost use Rattle.verify80_follow.specs.Handling.{BeginsAnew, GivesBack, Handles, IsHandled, IsReturn, entered_beside};
ghost use Rattle.verify80_follow.specs.Tables.{AreFit, IsHandledAround, PromiseOfTables, fitting_of};
ghost use Rattle.verify80_follow.specs.Stack.{IsStackInside};
ghost use Rattle.verify80_follow.specs.Writes.{AreWriteEnds, MayBeWritten};

use crate::fit::{Fit, Table, fits, number_places, says_no_more};
use crate::followed::{FollowedState, Listed, RunKind};
use crate::held::{Beside, count_of};
use crate::laws::live_machines_keep_the_promise;
use crate::reaching::places_of;
use crate::stack::StackBounds;
use crate::writes::{Writes, find_write_ends};
use decode80::{Fetched, Instr, Pair, fetch};
use frames80::Code;
use image80::{Image, Range};
use std::alloc::{AllocError, Global};
use verify80::ImageCode;
use verify80_spans::ByteSpan;
use verify80_states::{Known, code_bytes, is_marked, mark_quiet};
use verify80_stores::{find_data_ends, pointer_span};

/// A handler with a table of states that follows it.
#[derive(Drop)]
pub struct Handler {
    /// The address at which it is entered.
    pub at: u16,
    pub table: Table,
}

/// What is asked of a program with handlers.
#[derive(Clone, Copy)]
pub struct LiveRun<'a> {
    /// Ranges of data that devices and handlers leave alone.
    pub quiet: &'a [Range],
    /// Ranges of data that handlers write, and no other.
    pub writes: &'a [Range],
    /// Whether SP is at the stack's top when a run begins; else it may be anywhere.
    pub is_set: bool,
    /// How many bytes a handler has on the stack, at most, the two of the interrupt among them.
    pub most: u16,
}

/// What a handler's states are held against beside their own table.
#[derive(Clone, Copy)]
pub(crate) struct Around<'a> {
    /// The states of the program.
    pub main: &'a [FollowedState],
    /// Marks of the addresses at which a handler may begin the program anew.
    pub anew: &'a [bool],
    /// The data that handlers write.
    pub writes: Writes<'a>,
    /// Where states stand behind whose calls returns may go.
    pub places: &'a [u16],
    /// The stores and jumps that may be left open.
    pub listed: &'a Listed,
    /// How many bytes a handler has on the stack, at most.
    pub most: u16,
}

impl Fit<'_> {
    /// Whether the first hint names a state at a handler that says no more than that all is what it was, and that its return address is on top of
    /// the stack.
    pub(crate) fn has_entry(&self, at: u16) -> bool
        ensures { result ≡ true → Has self.now.table.now at nothing_known entered_beside entered_stack }
    {
        let entered = [ByteSpan::ANY, ByteSpan::ANY];
        self.has(0, at, Known::ANY, Beside::ENTERED, Some(&entered))
    }

    /// Whether the code has a RET at an address.
    fn returns_at(&self, at: u16) -> bool
        ensures { result ≡ true → IsReturn self.now.program.now at }
    {
        match fetch(at, self.program) {
            Ok(found) => found.instr == Instr::Ret,
            Err(_) => false,
        }
    }

    /// Whether an instruction lets interrupts in only directly before the handler returns, if it does.
    fn lets_in_late(&self, found: Fetched, state: &FollowedState) -> bool
        ensures { result ≡ true → found.instr ≡ Ei → GivesBack state.now × IsReturn self.now.program.now found.next }
    {
        found.instr != Instr::Ei || gives_back(state) && self.returns_at(found.next)
    }

    /// Whether an instruction sets SP to the stack's top, and the program may begin anew behind it.
    fn begins_anew(&self, found: Fetched, around: Around<'_>) -> bool
        requires { (at : ℕ) → is_marked around.anew.now at ≡ true → Has around.main.now at nothing_known nothing_beside (Some []) }
        ensures { result ≡ true → BeginsAnew self.now.program.now around.entry.main.now found }
    {
        found.instr == Instr::Lxi(Pair::Sp, self.program.top())
            && is_marked(around.anew, found.next)
    }

    /// Whether a state is one of a handler.
    pub(crate) fn handles_state(
        &self,
        alloc: Global,
        state: &FollowedState,
        around: Around<'_>,
    ) -> Result<bool, AllocError>
        requires regions { self.now.regions.now ≡ self.now.program.now.regions }
        requires written { around.writes.regions.now ≡ self.now.program.now.regions }
        requires ends { AreDataEnds self.now.regions.now self.now.ends.now }
        requires anew { (at : ℕ) → is_marked around.anew.now at ≡ true → Has around.main.now at nothing_known nothing_beside (Some []) }
        requires writes { AreWriteEnds around.writes.regions.now around.writes.marks.now around.writes.ends.now }
        ensures { IfOk result (λ handles. handles ≡ true → Handles around.entry.main.now (is_marked around.entry.writes.marks.now) self.now.bounds
            (fitting_of self.now) state.now) }
    {
        let Some(executed) = self.executed(state.at) else {
            return Ok(false);
        };
        let found = executed.found;
        if !has_room(state, self.bytes)
            || !self.lets_in_late(found, state)
            || !stores_to(around.writes, found.instr, state)
            || !state.known.is_quiet(self.quiet)
        {
            return Ok(false);
        }
        if found.instr == Instr::Ret && gives_back(state) || self.begins_anew(found, around) {
            return Ok(true);
        }
        if uses_pointer(found.instr) {
            return Ok(false);
        }
        self.state_follows(alloc, state)
    }

    /// Whether each state of the table is one of a handler.
    pub(crate) fn all_handle(&self, alloc: Global, around: Around<'_>) -> Result<bool, AllocError>
        requires regions { self.now.regions.now ≡ self.now.program.now.regions }
        requires written { around.writes.regions.now ≡ self.now.program.now.regions }
        requires ends { AreDataEnds self.now.regions.now self.now.ends.now }
        requires anew { (at : ℕ) → is_marked around.anew.now at ≡ true → Has around.main.now at nothing_known nothing_beside (Some []) }
        requires writes { AreWriteEnds around.writes.regions.now around.writes.marks.now around.writes.ends.now }
        ensures { IfOk result (λ handle. handle ≡ true → All (Handles around.entry.main.now (is_marked around.entry.writes.marks.now) self.now.bounds
            (fitting_of self.now)) self.now.table.now) }
    {
        for place in 0..self.table.len() {
            if !self.handles_state(alloc, &self.table[place], around)? {
                return Ok(false);
            }
        }
        Ok(true)
    }
}

/// Whether an instruction in a state stores to no data but that which handlers write.
fn stores_to(writes: Writes<'_>, instr: Instr, state: &FollowedState) -> bool
    requires { AreWriteEnds writes.regions.now writes.marks.now writes.ends.now }
    ensures direct { result ≡ true → All (MayBeWritten writes.entry.regions.now writes.entry.marks.now) (direct_bytes instr) }
    ensures pointed { result ≡ true → IfSome (pointer_span instr state.now.known) (λ span. (a : ℕ) → Within span a →
        MayBeWritten writes.entry.regions.now writes.entry.marks.now a) }
{
    writes.have_direct(instr)
        && match pointer_span(instr, state.known) {
            Some(span) => writes.have_all(span),
            None => true,
        }
}

/// Whether a state gives all back: each pair is what it was, and only the word to which the handler returns is on the stack.
pub fn gives_back(state: &FollowedState) -> bool
    ensures { result ≡ true → GivesBack state.now }
{
    let Beside {
        psw,
        bc,
        de,
        hl,
        back,
        ..
    } = state.beside;
    psw.in_place
        && bc.in_place
        && de.in_place
        && hl.in_place
        && back == Some(2)
        && count_of(state.bytes()) == 2
}

/// Whether a state has at least the word to which the handler returns on the stack, and no more bytes than `most`.
pub(crate) fn has_room(state: &FollowedState, most: u16) -> bool
    ensures enough { result ≡ true → 2 ≤ count_of (stack_of state.now) }
    ensures few { result ≡ true → count_of (stack_of state.now) ≤ most }
{
    let count = count_of(state.bytes());
    2 <= count && count <= usize::from(most)
}

/// Whether what an instruction does depends on where the stack lies.
pub fn uses_pointer(instr: Instr) -> bool
    ensures { result ≡ uses_pointer instr }
{
    matches!(
        instr,
        Instr::Lxi(Pair::Sp, _) | Instr::Dad(Pair::Sp) | Instr::Sphl
    )
}

/// Whether a table follows an image to which interrupts come, and each handler's table its handler, so that every live machine on a board that leaves
/// the quiet addresses alone keeps the promise: those of data in the ranges `run.quiet`. Of stores and jumps the handlers' tables leave open what the
/// image's table lists. A machine to which only one of the handlers comes keeps it with the bytes of that handler's table.
///
/// # Errors
/// `AllocError` if memory runs out.
pub fn follows_live(
    alloc: Global,
    image: &Image,
    table: &Table,
    handlers: &[Handler],
    run: LiveRun<'_>,
) -> Result<bool, AllocError>
    ensures promise { IfOk result (λ follows. follows ≡ true →
        PromiseOfTables image.now (is_quiet image.now.regions run.entry.quiet.now) (is_quiet image.now.regions run.entry.writes.now) run.entry.is_set
        table.now handlers.now (map (λ handler. handler.at) handlers.now) run.entry.most) }
    ensures each { IfOk result (λ follows. follows ≡ true → All (λ handler.
        PromiseOfTables image.now (is_quiet image.now.regions run.entry.quiet.now) (is_quiet image.now.regions run.entry.writes.now) run.entry.is_set
        table.now handlers.now (handler.at ∷ []) handler.table.bytes) handlers.now) }
    ensures fit { IfOk result (λ follows. follows ≡ true →
        AreFit image.now (is_quiet image.now.regions run.entry.quiet.now) (is_quiet image.now.regions run.entry.writes.now) run.entry.is_set
        table.now handlers.now run.entry.most) }
{
    image.regions.stack();
    let code = code_bytes(alloc, image)?;
    let marks = mark_quiet(alloc, &image.regions, run.quiet)?;
    let written = mark_quiet(alloc, &image.regions, run.writes)?;
    let looked = Looked {
        code: &code,
        quiet: &marks,
        written: &written,
    };
    follows_live_marked(alloc, image, table, handlers, looked, run.is_set, run.most)
}

/// What is looked up by address.
#[derive(Clone, Copy)]
struct Looked<'a> {
    /// The bytes of code.
    code: &'a [Option<u8>],
    /// Marks of the quiet addresses.
    quiet: &'a [bool],
    /// Marks of the data that handlers write.
    written: &'a [bool],
}

/// Whether a table follows an image, and each handler's table its handler, by the image's code and marks by address.
fn follows_live_marked(
    alloc: Global,
    image: &Image,
    table: &Table,
    handlers: &[Handler],
    looked: Looked<'_>,
    is_set: bool,
    most: u16,
) -> Result<bool, AllocError>
    requires rules { AreRegions image.now.regions }
    requires code { AreCodeBytes image.now looked.code.now }
    requires quiet { (at : ℕ) → is_marked looked.quiet.now at ≡ true → in_data image.now.regions at ≡ true }
    ensures promise { IfOk result (λ follows. follows ≡ true →
        PromiseOfTables image.now (is_marked looked.entry.quiet.now) (is_marked looked.entry.written.now) is_set
        table.now handlers.now (map (λ handler. handler.at) handlers.now) most) }
    ensures each { IfOk result (λ follows. follows ≡ true → All (λ handler.
        PromiseOfTables image.now (is_marked looked.entry.quiet.now) (is_marked looked.entry.written.now) is_set
        table.now handlers.now (handler.at ∷ []) handler.table.bytes) handlers.now) }
    ensures fit { IfOk result (λ follows. follows ≡ true →
        AreFit image.now (is_marked looked.entry.quiet.now) (is_marked looked.entry.written.now) is_set table.now handlers.now most) }
{
    live_machines_keep_the_promise();
    let run = RunKind {
        is_set,
        interrupted: true,
    };
    let places = places_of(alloc, table, handlers)?;
    if !has_room_for(image, table.bytes, most)
        || !are_apart(looked.quiet, looked.written)
        || !fits(alloc, image, table, &places, looked.code, looked.quiet, run)?
    {
        return Ok(false);
    }
    are_all_handled(alloc, image, table, handlers, &places, looked, most)
}

/// Whether an image's stack has room for a number of bytes, and others below them.
fn has_room_for(image: &Image, main: u16, most: u16) -> bool
    ensures { result ≡ true → main + most ≤ image.now.regions.stack.length }
{
    usize::from(main) + usize::from(most) <= usize::from(image.regions.stack().length)
}

/// Whether no address has a mark of both.
fn are_apart(one: &[bool], other: &[bool]) -> bool
    ensures { result ≡ true → (at : ℕ) → is_marked one.now at ≡ true → is_marked other.now at ≡ false }
{
    for at in 0..one.len() {
        if one[at] && other.get(at).copied().unwrap_or(false) {
            return false;
        }
    }
    true
}

/// Whether a state says nothing but that the stack is empty.
fn knows_nothing(state: &FollowedState) -> bool
    ensures known { result ≡ true → IsKnownInside [] nothing_known state.now.known }
    ensures beside { result ≡ true → IsBesideInside nothing_beside state.now.beside }
    ensures stack { result ≡ true → IsStackInside (Some []) (stack_of state.now) }
{
    says_no_more(state, Known::ANY, Beside::NOTHING, Some(&[]))
}

/// Marks of the addresses at which a state says nothing but that the stack is empty.
fn mark_anew(alloc: Global, states: &[FollowedState]) -> Result<Vec<bool>, AllocError>
    ensures { IfOk result (λ marks. (at : ℕ) → is_marked marks.items at ≡ true → Has states.now at nothing_known nothing_beside (Some [])) }
{
    let mut marks = vec![in alloc; false; 65_536]?;
    for place in 0..states.len() {
        note_anew(&mut marks, states, place);
    }
    Ok(marks)
}

/// Marks the address of the state at a place if that says nothing but that the stack is empty. There must be an entry for each address.
fn note_anew(marks: &mut Vec<bool>, states: &[FollowedState], place: usize)
    requires whole { length marks.old.items ≡ 65536 }
    requires place { place < length states.now }
    requires marked { (at : ℕ) → is_marked marks.old.items at ≡ true → Has states.now at nothing_known nothing_beside (Some []) }
    ensures whole { length marks.new.items ≡ 65536 }
    ensures marked { (at : ℕ) → is_marked marks.new.items at ≡ true → Has states.now at nothing_known nothing_beside (Some []) }
{
    let state = &states[place];
    if knows_nothing(state) {
        marks[usize::from(state.at)] = true;
    }
}

/// Whether each handler's table follows it, beside the program's table; `places` are those behind whose calls returns may go.
fn are_all_handled<'a>(
    alloc: Global,
    image: &'a Image,
    table: &'a Table,
    handlers: &[Handler],
    places: &'a [u16],
    looked: Looked<'a>,
    most: u16,
) -> Result<bool, AllocError>
    requires code { AreCodeBytes image.now looked.code.now }
    ensures { IfOk result (λ handled. handled ≡ true → All (IsHandled image.now table.now.states.items (is_marked looked.entry.written.now)
        (is_marked looked.entry.quiet.now) places.now table.now.listed most) handlers.now) }
{
    let anew = mark_anew(alloc, &table.states)?;
    let ends = find_write_ends(alloc, &image.regions, looked.written)?;
    let around = Around {
        main: &table.states,
        anew: &anew,
        writes: Writes {
            regions: &image.regions,
            marks: looked.written,
            ends: &ends,
        },
        places,
        listed: &table.listed,
        most,
    };
    are_handled(alloc, image, handlers, looked, around)
}

/// Whether each handler's table follows it.
fn are_handled(
    alloc: Global,
    image: &Image,
    handlers: &[Handler],
    looked: Looked<'_>,
    around: Around<'_>,
) -> Result<bool, AllocError>
    requires code { AreCodeBytes image.now looked.code.now }
    requires written { around.writes.regions.now ≡ image.now.regions }
    requires anew { (at : ℕ) → is_marked around.anew.now at ≡ true → Has around.main.now at nothing_known nothing_beside (Some []) }
    requires writes { AreWriteEnds around.writes.regions.now around.writes.marks.now around.writes.ends.now }
    ensures { IfOk result (λ handled. handled ≡ true → All (IsHandledAround image.now around.entry (is_marked looked.entry.quiet.now)) handlers.now) }
{
    for place in 0..handlers.len() {
        if !is_handled(alloc, image, &handlers[place], looked, around)? {
            return Ok(false);
        }
    }
    Ok(true)
}

/// Whether a handler's table follows it.
fn is_handled(
    alloc: Global,
    image: &Image,
    handler: &Handler,
    looked: Looked<'_>,
    around: Around<'_>,
) -> Result<bool, AllocError>
    requires code { AreCodeBytes image.now looked.code.now }
    requires written { around.writes.regions.now ≡ image.now.regions }
    requires anew { (at : ℕ) → is_marked around.anew.now at ≡ true → Has around.main.now at nothing_known nothing_beside (Some []) }
    requires writes { AreWriteEnds around.writes.regions.now around.writes.marks.now around.writes.ends.now }
    ensures { IfOk result (λ handled. handled ≡ true → IsHandledAround image.now around.entry (is_marked looked.entry.quiet.now) handler.now) }
{
    let program = ImageCode::new(alloc, image)?;
    let ends = find_data_ends(alloc, &image.regions)?;
    let numbers = number_places(alloc, around.places)?;
    let table = &handler.table;
    let fit = Fit {
        table: &table.states,
        hints: &table.hints,
        ways: &table.ways,
        places: around.places,
        numbers: &numbers,
        listed: around.listed,
        summaries: &[],
        bytes: table.bytes,
        bounds: StackBounds {
            top: program.top(),
            length: table.bytes,
        },
        interrupted: true,
        code: looked.code,
        program: &program,
        regions: &image.regions,
        ends: &ends,
        quiet: looked.quiet,
    };
    if table.bytes > around.most || !fit.has_entry(handler.at) {
        return Ok(false);
    }
    fit.all_handle(alloc, around)
}
