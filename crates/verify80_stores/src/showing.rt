//! What is shown of a program's register-indirect stores and jumps, by one table of states after the other.

ghost use Rattle.std.specs.Prelude.{◌≡◌, ℕ, true, IfOk, IfSome, length, map};
ghost use Rattle.std.specs.List.{range_with_len};
ghost use Rattle.image80.specs.Regions.{AreRegions};
ghost use Rattle.verify80.specs.{Looking.code_of, Reached.AreReached};
ghost use Rattle.verify80_stores.specs.{Boards.is_quiet, Shown.AreShown, Shown.noted_by_both};
ghost use Rattle.verify80_states.specs.{Marks.is_marked, Steps.AreCodeBytes, Runs.IsKept};

use crate::listing::{Note, has_any, note_at, notes_of};
use decode80::Fetched;
use image80::{Image, Range};
use std::alloc::{AllocError, Global};
use verify80::ProcRow;
use verify80_proposals::{Groups, Proposal, ReachedProgram, Search, TABLE_KINDS};
use verify80_states::{Placed, anything, code_bytes, mark_quiet};

/// What is shown of a program, in whose quiet ranges of data nobody but it writes: by address whether each table leaves the store or jump
/// there open, and the words that a pair may be, if the instruction stores by it.
///
/// A table is tried only if those before left something open, and none if there is nothing to show. The spans are those of the first that
/// fits.
///
/// # Errors
/// `AllocError` if memory runs out.
pub(crate) fn show(
    alloc: Global,
    image: &Image,
    rows: &[ProcRow],
    reached: &[Option<Fetched>],
    quiet: &[Range],
    search: &mut Search,
) -> Result<Vec<Note>, AllocError>
    requires reached { AreReached (code_of image.now) reached.now }
    requires whole { length reached.now ≡ 65536 }
    requires rules { AreRegions image.now.regions }
    ensures { IfOk result (λ shown. AreShown image.now (is_quiet image.now.regions quiet.now) reached.now shown.items) }
{
    let code = code_bytes(alloc, image)?;
    let marks = mark_quiet(alloc, &image.regions, quiet)?;
    let program = ReachedProgram::new(image, reached, &code, &marks);
    let groups = Groups::new(alloc, program, rows)?;
    let is_searched = has_any(reached);
    let mut shown = None;
    for kind in TABLE_KINDS {
        if is_searched && is_open(&shown) {
            let found = search.propose(alloc, program, &groups, kind)?;
            shown = show_more(alloc, image, reached, quiet, &code, &marks, found, shown)?;
        }
    }
    match shown {
        Some(shown) => Ok(shown),
        None => {
            let table = anything(alloc, image, reached)?;
            show_with(alloc, image, reached, quiet, &table, None)
        }
    }
}

/// Whether something is still open.
fn is_open(shown: &Option<Vec<Note>>) -> bool {
    shown
        .as_ref()
        .is_none_or(|notes| notes.iter().any(|note| note.is_open))
}

/// What is shown with a table that is proposed, if it fits.
///
/// # Errors
/// `AllocError` if memory runs out.
fn show_more(
    alloc: Global,
    image: &Image,
    reached: &[Option<Fetched>],
    quiet: &[Range],
    code: &[Option<u8>],
    marks: &[bool],
    found: Option<Proposal>,
    shown: Option<Vec<Note>>,
) -> Result<Option<Vec<Note>>, AllocError>
    requires reached { AreReached (code_of image.now) reached.now }
    requires whole { length reached.now ≡ 65536 }
    requires rules { AreRegions image.now.regions }
    requires code { AreCodeBytes image.now code.now }
    requires marks { (at : ℕ) → is_marked marks.now at ≡ true → is_quiet image.now.regions quiet.now at ≡ true }
    requires shown { IfSome shown (λ s. AreShown image.now (is_quiet image.now.regions quiet.now) reached.now s.items) }
    ensures { IfOk result (λ more. IfSome more (λ s. AreShown image.now (is_quiet image.now.regions quiet.now) reached.now s.items)) }
{
    let Some(found) = found else {
        return Ok(shown);
    };
    if !found.table.fits(image, code, reached, marks) {
        return Ok(shown);
    }
    Ok(Some(show_with(alloc, image, reached, quiet, &found.table.states, shown)?))
}

/// What is shown with a table that fits.
///
/// # Errors
/// `AllocError` if memory runs out.
fn show_with(
    alloc: Global,
    image: &Image,
    reached: &[Option<Fetched>],
    quiet: &[Range],
    table: &[Placed],
    shown: Option<Vec<Note>>,
) -> Result<Vec<Note>, AllocError>
    requires whole { length reached.now ≡ 65536 }
    requires kept { IsKept image.now (is_quiet image.now.regions quiet.now) table.now }
    requires shown { IfSome shown (λ s. AreShown image.now (is_quiet image.now.regions quiet.now) reached.now s.items) }
    ensures { IfOk result (λ s. AreShown image.now (is_quiet image.now.regions quiet.now) reached.now s.items) }
{
    let notes = notes_of(alloc, &image.regions, reached, table)?;
    match shown {
        Some(before) => Ok(all_noted(alloc, &before, &notes)?),
        None => Ok(notes),
    }
}

/// What is noted by both: an address is open if both leave it open, and its span is that of `first`.
///
/// # Errors
/// `AllocError` if memory runs out.
fn all_noted(alloc: Global, first: &[Note], other: &[Note]) -> Result<Vec<Note>, AllocError>
    ensures { IfOk result (λ notes. notes.items ≡ map (noted_by_both first.now other.now) (range_with_len 0 65536)) }
{
    (0..65_536_u32)
        .map(|at| noted_by_both(first, other, at as u16))
        .collect(alloc)
}

/// What is noted of an address by both.
fn noted_by_both(first: &[Note], other: &[Note], at: u16) -> Note
    ensures { result ≡ noted_by_both first.now other.now at }
{
    let Note { is_open, span } = note_at(first, at);
    Note {
        is_open: is_open && note_at(other, at).is_open,
        span,
    }
}
