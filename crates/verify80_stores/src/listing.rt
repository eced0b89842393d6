//! What is listed of the instructions that are reached.

ghost use Rattle.std.specs.Prelude.{◌≡◌, ◌⊎◌, ◌<◌, ℕ, true, false, Some, Contains, IfOk, length, map};
ghost use Rattle.verify80.specs.{Looking.declared_targets, Reached.found_at};
ghost use Rattle.verify80_spans.specs.Span.{Within};
ghost use Rattle.verify80_stores.specs.DataReach.{AreDataEnds};
ghost use Rattle.verify80_stores.specs.Opening.{joined, pointer_span, span_in, StaysIn, IsLeftOpen};
ghost use Rattle.verify80_stores.specs.Listing.{AreNotes, AreOpen, addresses_where, is_at, is_listed, is_of, note_at, store_at};

use crate::data_ends::{find_data_ends, is_all_data};
use crate::stores::OpenStore;
use decode80::{Fetched, Instr, Storing};
use image80::Regions;
use std::alloc::{AllocError, Global};
use verify80_states::{Known, Placed, Span, entry_at, index_words, targets_at};

/// What is noted of the instruction at an address.
#[derive(Clone, Copy)]
pub(crate) struct Note {
    /// Whether a state leaves the instruction open.
    pub is_open: bool,
    /// The words that a pair may be, if the instruction stores by it.
    pub span: Option<Span>,
}

impl Note {
    /// Nothing is noted.
    pub const NONE: Note = Note {
        is_open: false,
        span: None,
    };
}

/// What is noted of an address.
pub(crate) fn note_at(notes: &[Note], at: u16) -> Note
    ensures { result ≡ note_at notes.now at }
{
    notes.get(usize::from(at)).copied().unwrap_or(Note::NONE)
}

/// The kinds of instructions that are listed.
#[derive(Clone, Copy)]
pub enum Kind {
    /// A register-indirect store.
    Store,
    /// PCHL, which goes on where HL points to.
    Jump,
}

impl Kind {
    /// Whether an instruction is of this kind.
    fn has(self, instr: Instr) -> bool
        ensures { result ≡ is_of self instr }
    {
        match self {
            Kind::Store => matches!(instr.storing(), Storing::ThroughHl | Storing::Through(_)),
            Kind::Jump => matches!(instr, Instr::Pchl),
        }
    }
}

/// The addresses of the instructions of a kind; of the open ones, if they alone are asked for.
///
/// # Errors
/// `AllocError` if memory runs out.
#[tactic(auto, unfolding(crate::specs::Listing::addresses_where))]
pub(crate) fn addresses_of(
    alloc: Global,
    kind: Kind,
    only_open: bool,
    reached: &[Option<Fetched>],
    notes: &[Note],
) -> Result<Vec<u16>, AllocError>
    ensures { IfOk result (λ addresses. addresses.items ≡ addresses_where (is_listed (is_of kind) only_open reached.now notes.now)) }
{
    (0..65_536_u32)
        .map(|at| at as u16)
        .filter(|at| is_listed(kind, only_open, reached, notes, *at))
        .collect(alloc)
}

/// The addresses of the instructions of a kind that are reached, ascending.
///
/// # Errors
/// `AllocError` if memory runs out.
pub fn addresses_of_kind(
    alloc: Global,
    kind: Kind,
    reached: &[Option<Fetched>],
) -> Result<Vec<u16>, AllocError>
    ensures { IfOk result (λ addresses. addresses.items ≡ addresses_where (is_at (is_of kind) reached.now)) }
{
    addresses_of(alloc, kind, false, reached, &[])
}

/// Whether an instruction of a kind is reached at an address.
pub fn is_kind_at(kind: Kind, reached: &[Option<Fetched>], at: u16) -> bool
    ensures { result ≡ is_at (is_of kind) reached.now at }
{
    entry_at(reached, at).is_some_and(|found| kind.has(found.instr))
}

/// Whether a register-indirect store or a PCHL is reached.
pub(crate) fn has_any(reached: &[Option<Fetched>]) -> bool {
    reached.iter().flatten().any(|found| Kind::Store.has(found.instr)
        || Kind::Jump.has(found.instr))
}

/// Whether an instruction of a kind is reached at an address, and is open, if that is asked for.
fn is_listed(
    kind: Kind,
    only_open: bool,
    reached: &[Option<Fetched>],
    notes: &[Note],
    at: u16,
) -> bool
    ensures { result ≡ is_listed (is_of kind) only_open reached.now notes.now at }
{
    (!only_open || note_at(notes, at).is_open) && is_kind_at(kind, reached, at)
}

/// Whether an instruction in a state stores to data and jumps to a declared target, if it does so by a pair.
fn stays_in(regions: &Regions, ends: &[u32], targets: &[u16], instr: Instr, state: Known) -> bool
    requires { AreDataEnds regions.now ends.now }
    ensures stays { result ≡ true → StaysIn regions.now targets.now instr state }
    ensures leaves { result ≡ false → IsLeftOpen regions.now instr state }
{
    match pointer_span(instr, state) {
        Some(span) => is_all_data(regions, ends, span),
        None => match instr {
            Instr::Pchl => is_target(targets, state.hl.words),
            _ => true,
        },
    }
}

/// Where an instruction may store by a pair, given what is known of the registers; `None` if it stores by none.
pub fn pointer_span(instr: Instr, state: Known) -> Option<Span>
    ensures { result ≡ pointer_span instr state }
{
    match instr.storing() {
        Storing::ThroughHl => Some(state.hl.words),
        Storing::Through(pair) => Some(index_words(state, pair)),
        Storing::Nowhere | Storing::Byte(_) | Storing::Word(_) => None,
    }
}

/// Whether a pair is one of these targets, and no other word.
pub fn is_target(targets: &[u16], words: Span) -> bool
    ensures { result ≡ true → (to : ℕ) → Within words to → Contains targets.now to }
{
    words.is_alone() && targets.contains(&words.first)
}

/// By address whether a state of the table leaves the instruction there open, and the words that a pair may be in the states if the
/// instruction stores by it.
///
/// # Errors
/// `AllocError` if memory runs out.
pub(crate) fn notes_of(
    alloc: Global,
    regions: &Regions,
    reached: &[Option<Fetched>],
    table: &[Placed],
) -> Result<Vec<Note>, AllocError>
    ensures { IfOk result (λ notes. AreNotes regions.now reached.now table.now notes.items) }
{
    let ends = find_data_ends(alloc, regions)?;
    let mut notes = no_notes(alloc, 65_536)?;
    for placed in table {
        let note = note_at(&notes, placed.at);
        notes[usize::from(placed.at)] = note.with(regions, &ends, reached, *placed);
    }
    Ok(notes)
}

/// Nothing is noted of any of `count` addresses.
fn no_notes(alloc: Global, count: usize) -> Result<Vec<Note>, AllocError>
    ensures count { IfOk result (λ notes. length notes.items ≡ count) }
    ensures none { IfOk result (λ notes. (at : ℕ) → (note_at notes.items at).is_open ≡ false) }
{
    Ok(vec![in alloc; Note::NONE; count]?)
}

impl Note {
    /// This note of the address of a state with what the state says of the instruction there.
    fn with(
        self,
        regions: &Regions,
        ends: &[u32],
        reached: &[Option<Fetched>],
        placed: Placed,
    ) -> Note
        requires { AreDataEnds regions.now ends.now }
        ensures stays { result.is_open ≡ false → (self.is_open ≡ false) × ((found : Fetched) → found_at reached.now placed.at ≡ Some found →
            StaysIn regions.now (declared_targets regions.now placed.at) found.instr placed.state.known) }
        ensures leaves { result.is_open ≡ true → (self.is_open ≡ true)
            ⊎ ((found : Fetched) × ((found_at reached.now placed.at ≡ Some found) × IsLeftOpen regions.now found.instr placed.state.known)) }
        ensures span { result.span ≡ joined self.span (span_in (found_at reached.now placed.at) placed.state.known) }
        ensures address { placed.at < 65536 }
    {
        let Placed { at, state, hint: _ } = placed;
        let known = state.known;
        match entry_at(reached, at) {
            Some(Fetched { instr, next: _ }) => Note {
                is_open: self.is_open
                    || !stays_in(regions, ends, targets_at(regions, at), instr, known),
                span: joined(self.span, pointer_span(instr, known)),
            },
            None => self,
        }
    }
}

/// The words of two spans, as far as there are such.
fn joined(old: Option<Span>, new: Option<Span>) -> Option<Span>
    ensures { result ≡ joined old new }
{
    match (old, new) {
        (Some(old), Some(new)) => Some(old.hull(new)),
        (old, None) => old,
        (None, new) => new,
    }
}

/// The open stores, with their spans.
///
/// # Errors
/// `AllocError` if memory runs out.
pub(crate) fn open_stores(
    alloc: Global,
    reached: &[Option<Fetched>],
    notes: &[Note],
) -> Result<Vec<OpenStore>, AllocError>
    ensures { IfOk result (λ stores. AreOpen reached.now notes.now stores.items) }
{
    let addresses = addresses_of(alloc, Kind::Store, true, reached, notes)?;
    let stores = stores_at(alloc, reached, notes, &addresses)?;
    Ok(stores)
}

/// The stores at these addresses, with their spans.
fn stores_at(
    alloc: Global,
    reached: &[Option<Fetched>],
    notes: &[Note],
    addresses: &[u16],
) -> Result<Vec<OpenStore>, AllocError>
    ensures { IfOk result (λ stores. stores.items ≡ map (store_at reached.now notes.now) addresses.now) }
{
    addresses
        .iter()
        .map(|at| store_at(reached, notes, *at))
        .collect(alloc)
}

/// The store at an address, with its span: any address, if no span is noted.
fn store_at(reached: &[Option<Fetched>], notes: &[Note], at: u16) -> OpenStore
    ensures { result ≡ store_at reached.now notes.now at }
{
    OpenStore {
        at,
        instr: entry_at(reached, at).map_or(Instr::Nop, |found| found.instr),
        span: note_at(notes, at).span.unwrap_or(Span::ANY),
    }
}
