//! What sets the pair of a store or a jump that isn't shown to stay inside, and why nothing is known of it. This is advice: it is searched
//! for, and what it says of instructions, of memory and of the search is so.

ghost use Rattle.std.specs.Prelude.{◌≡◌, true, All, IfOk, List, Option, map};
ghost use Rattle.frames80.specs.Code.{Code};
ghost use Rattle.verify80.specs.{Looking.code_of, Reached.AreReached};
ghost use Rattle.verify80_stores.specs.Listing.{is_at, is_kind};
ghost use Rattle.verify80_stores.specs.Causes.{AreCauses, IsCause, IsSetBy, IsSo, asks, is_count, is_joined, is_undecided, jump_pointer, pointer_of, pointers_of, writes_to};
ghost use Rattle.verify80_stores.specs.WrittenPairs.{AreWritten, has_pair, is_written};

use crate::reasons::{Reason, Reasons};
use crate::stores::{OpenStore, Stores};
use decode80::{Fetched, Flow, IndexPair, Instr, Pair, Storing};
use image80::{Image, Range};
use std::alloc::{AllocError, Global};
use std::fmt;
use verify80::{Vouched, find_reached};
use verify80_proposals::{Groups, ReachedProgram, SearchNotes};
use verify80_states::{code_bytes, entry_at, is_marked, is_quiet, mark_quiet};

/// The pair by which an open store or jump goes.
#[derive(Clone, Copy, PartialEq, Eq)]
pub struct Pointer {
    /// The address of the store or jump.
    pub at: u16,
    pub pair: Pair,
}

/// What sets a pair.
#[derive(Clone, Copy, PartialEq, Eq)]
pub enum Setter {
    /// The instruction at this address, no INX or DCX, sets the pair, or a half of it.
    Instruction(u16),
    /// The INX or DCX at this address counts the pair, in a loop.
    Count(u16),
    /// No instruction that is reached sets the pair.
    Nothing,
    /// An instruction sets the pair, but on no way to the store or jump that was found.
    Unseen,
}

/// What sets the pair of an open store or jump.
#[derive(Clone, Copy, PartialEq, Eq)]
pub struct Cause {
    pub pointer: Pointer,
    pub setter: Setter,
    /// Why nothing is known of the pair, if that is seen.
    pub reason: Option<Reason>,
}

impl fmt::Display for Cause {
    fn fmt<W: fmt::Write>(&self, f: &mut fmt::Formatter<W>) -> fmt::Result {
        let at = self.pointer.at;
        let pair = match self.pointer.pair {
            Pair::Bc => "BC",
            Pair::De => "DE",
            Pair::Hl => "HL",
            Pair::Sp => "SP",
        };
        match self.setter {
            Setter::Instruction(by) => write!(f, "{at:04X}: {pair} is set at {by:04X}")?,
            Setter::Count(by) => write!(f, "{at:04X}: {pair} is counted at {by:04X}")?,
            Setter::Nothing => write!(f, "{at:04X}: nothing sets {pair}")?,
            Setter::Unseen => write!(f, "{at:04X}: no way was found on which {pair} is set")?,
        }
        match self.reason {
            Some(Reason::NotQuiet(byte)) => write!(
                f,
                "; nothing is known of {byte:04X}, which isn't quiet"
            ),
            Some(Reason::NotCode(table)) => write!(f, "; the table at {table:04X} isn't CODE"),
            Some(Reason::UnknownEnd(there)) => write!(
                f,
                "; what ends its loop at {there:04X} isn't known"
            ),
            Some(Reason::TooManyStates(there)) => write!(f, "; too many states at {there:04X}"),
            Some(Reason::TooManyWays) => write!(f, "; too many ways to follow"),
            None => Ok(()),
        }
    }
}

/// For each open store, and behind them for each open jump, the nearest instruction that sets its pair to what isn't known: on some way to
/// it, and in procedures that return before. An LXI is named only if nothing else is found; so is an instruction that counts the pair. What
/// the search for states noted is that of `stores`: the program isn't searched again.
///
/// # Errors
/// `AllocError` if memory runs out.
pub fn find_causes(
    alloc: Global,
    vouched: &Vouched,
    quiet: &[Range],
    stores: &Stores,
) -> Result<Vec<Cause>, AllocError>
    ensures { IfOk result (λ causes. AreCauses vouched.now.image quiet.now stores.now causes.items) }
{
    let image = vouched.image();
    let found = find_reached(alloc, vouched)?;
    let reached = found.instructions();
    let code = code_bytes(alloc, image)?;
    let marks = mark_quiet(alloc, &image.regions, quiet)?;
    let program = ReachedProgram::new(image, reached, &code, &marks);
    let groups = Groups::new(alloc, program, vouched.rows())?;
    let search = &stores.search;
    let reasons = Reasons::new(alloc, image, quiet, program, &groups, search)?;
    let pointers = pointers_of(alloc, stores)?;
    let causes = causes_of(alloc, image, quiet, reached, search, &reasons, &pointers)?;
    Ok(causes)
}

/// The pairs of the open stores, and behind them those of the open jumps.
///
/// # Errors
/// `AllocError` if memory runs out.
fn pointers_of(alloc: Global, stores: &Stores) -> Result<Vec<Pointer>, AllocError>
    ensures { IfOk result (λ pointers. pointers.items ≡ pointers_of stores.now.open.items stores.now.open_jumps.items) }
{
    let mut pointers = store_pointers(alloc, &stores.open)?;
    let jumps = jump_pointers(alloc, &stores.open_jumps)?;
    pointers.extend_from_slice(&jumps)?;
    Ok(pointers)
}

/// The pairs of open stores.
fn store_pointers(alloc: Global, stores: &[OpenStore]) -> Result<Vec<Pointer>, AllocError>
    ensures { IfOk result (λ pointers. pointers.items ≡ map pointer_of stores.now) }
{
    let mut pointers = Vec::new(alloc);
    for store in stores {
        pointers.push(pointer_of(*store))?;
    }
    Ok(pointers)
}

/// The pairs of open jumps.
fn jump_pointers(alloc: Global, jumps: &[u16]) -> Result<Vec<Pointer>, AllocError>
    ensures { IfOk result (λ pointers. pointers.items ≡ map jump_pointer jumps.now) }
{
    jumps.iter().map(|at| jump_pointer(*at)).collect(alloc)
}

/// The pair by which a PCHL jumps.
fn jump_pointer(at: u16) -> Pointer
    ensures { result ≡ jump_pointer at }
{
    Pointer { at, pair: Pair::Hl }
}

/// The pair by which a store goes.
#[tactic(auto, unfolding(crate::specs::Causes::pointer_of))]
fn pointer_of(store: OpenStore) -> Pointer
    ensures { result ≡ pointer_of store }
{
    let pair = match store.instr.storing() {
        Storing::Through(IndexPair::Bc) => Pair::Bc,
        Storing::Through(IndexPair::De) => Pair::De,
        Storing::ThroughHl | Storing::Nowhere | Storing::Byte(_) | Storing::Word(_) => Pair::Hl,
    };
    Pointer { at: store.at, pair }
}

/// What is found of each of these pairs.
///
/// # Errors
/// `AllocError` if memory runs out.
fn causes_of(
    alloc: Global,
    image: &Image,
    quiet: &[Range],
    reached: &[Option<Fetched>],
    search: &Option<SearchNotes>,
    reasons: &Reasons<'_>,
    pointers: &[Pointer],
) -> Result<Vec<Cause>, AllocError>
    requires { AreReached (code_of image.now) reached.now }
    ensures each { IfOk result (λ causes. map (λ cause. cause.pointer) causes.items ≡ pointers.now) }
    ensures so { IfOk result (λ causes. All (IsCause image.now quiet.now search.now) causes.items) }
{
    let written = WrittenPairs::of(reached);
    let mut causes = Vec::new(alloc);
    for pointer in pointers {
        let cause = cause_of(image, quiet, reached, search, written, reasons, *pointer);
        causes.push(cause)?;
    }
    Ok(causes)
}

/// What is found of the pair of an open store or jump, without what isn't so.
fn cause_of(
    image: &Image,
    quiet: &[Range],
    reached: &[Option<Fetched>],
    search: &Option<SearchNotes>,
    written: WrittenPairs,
    reasons: &Reasons<'_>,
    pointer: Pointer,
) -> Cause
    requires reached { AreReached (code_of image.now) reached.now }
    requires written { AreWritten reached.now written }
    ensures pointer { result.pointer ≡ pointer }
    ensures so { IsCause image.now quiet.now search.now result }
{
    let setter = setter_of(
        reached,
        written,
        pointer.pair,
        reasons.setter(pointer.at, pointer.pair),
    );
    let reason = match setter {
        Setter::Nothing | Setter::Unseen => None,
        _ => reasons.reason(pointer.at, pointer.pair),
    };
    Cause {
        pointer,
        setter,
        reason: reason.filter(|reason| is_so(image, quiet, reached, search, *reason)),
    }
}

/// Which pairs some instruction that is reached sets, or a half of them.
#[derive(Clone, Copy)]
pub(crate) struct WrittenPairs {
    bc: bool,
    de: bool,
    hl: bool,
    sp: bool,
}

impl WrittenPairs {
    /// The pairs that instructions which are reached set.
    fn of(reached: &[Option<Fetched>]) -> WrittenPairs
        ensures { AreWritten reached.now result }
    {
        WrittenPairs {
            bc: is_written(reached, Pair::Bc),
            de: is_written(reached, Pair::De),
            hl: is_written(reached, Pair::Hl),
            sp: is_written(reached, Pair::Sp),
        }
    }

    /// Whether a pair is one of these.
    fn has(self, pair: Pair) -> bool
        ensures { result ≡ has_pair self pair }
    {
        match pair {
            Pair::Bc => self.bc,
            Pair::De => self.de,
            Pair::Hl => self.hl,
            Pair::Sp => self.sp,
        }
    }
}

/// Whether an instruction that is reached sets a pair, or a half of it.
fn is_written(reached: &[Option<Fetched>], pair: Pair) -> bool
    ensures { result ≡ is_written reached.now pair }
{
    reached.iter().any(|entry| sets(*entry, pair))
}

/// Whether an instruction, if there is one, sets a pair, or a half of it.
fn sets(entry: Option<Fetched>, pair: Pair) -> bool
    ensures { result ≡ is_kind (writes_to pair) entry }
{
    entry.is_some_and(|found| found.instr.writes().includes(pair))
}

/// The setter of a pair at an address, if there is one: an instruction that is reached there and writes the pair.
fn setter_of(
    reached: &[Option<Fetched>],
    written: WrittenPairs,
    pair: Pair,
    at: Option<u16>,
) -> Setter
    requires { AreWritten reached.now written }
    ensures { (code : Code) → AreReached code reached.now → IsSetBy code pair result }
{
    let Some(at) = at else {
        return unset(written, pair);
    };
    match entry_at(reached, at) {
        Some(found) if found.instr.writes().includes(pair) => if is_count(found.instr) {
            Setter::Count(at)
        } else {
            Setter::Instruction(at)
        },
        _ => unset(written, pair),
    }
}

/// What is said of a pair that nothing was found to set.
fn unset(written: WrittenPairs, pair: Pair) -> Setter
    ensures { (code : Code) (reached : List (Option Fetched)) → AreReached code reached → AreWritten reached written → IsSetBy code pair result }
{
    if written.has(pair) {
        Setter::Unseen
    } else {
        Setter::Nothing
    }
}

/// Whether an instruction counts a pair.
fn is_count(instr: Instr) -> bool
    ensures { result ≡ is_count instr }
{
    matches!(instr, Instr::Inx(_) | Instr::Dcx(_))
}

/// Whether what a reason says of memory, of an address or of the search is so.
fn is_so(
    image: &Image,
    quiet: &[Range],
    reached: &[Option<Fetched>],
    search: &Option<SearchNotes>,
    reason: Reason,
) -> bool
    requires { AreReached (code_of image.now) reached.now }
    ensures { result ≡ true → IsSo image.now quiet.now search.now reason }
{
    let regions = &image.regions;
    match reason {
        Reason::NotQuiet(at) => regions.in_data(at) && !is_quiet(regions, quiet, at),
        Reason::NotCode(at) => !regions.in_code(at) && !regions.in_data(at),
        Reason::UnknownEnd(at) => asks_at(reached, at) && is_undecided(search, at),
        Reason::TooManyStates(at) => entry_at(reached, at).is_some() && is_joined(search, at),
        Reason::TooManyWays => search.is_none(),
    }
}

/// Whether a conditional jump or return is reached at an address.
fn asks_at(reached: &[Option<Fetched>], at: u16) -> bool
    ensures { result ≡ is_at asks reached.now at }
{
    entry_at(reached, at).is_some_and(|found| asks(found.instr))
}

/// Whether an instruction is a conditional jump or return.
fn asks(instr: Instr) -> bool
    ensures { result ≡ asks instr }
{
    matches!(instr.flow(), Flow::JumpsIf(_, _) | Flow::ReturnsIf(_))
}

/// Whether the search joined states at an address.
fn is_joined(search: &Option<SearchNotes>, at: u16) -> bool
    ensures { result ≡ is_joined search.now at }
{
    match search {
        Some(notes) => is_marked(&notes.joined, at),
        None => false,
    }
}

/// Whether the search found no state that decides what is asked at an address.
fn is_undecided(search: &Option<SearchNotes>, at: u16) -> bool
    ensures { result ≡ is_undecided search.now at }
{
    match search {
        Some(notes) => is_marked(&notes.undecided, at),
        None => false,
    }
}
