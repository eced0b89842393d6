//! An image that is gone through, and what it suggests for a PCHL.

ghost use Rattle.std.specs.Prelude.{◌≡◌, ◌≤◌, IfOk, IfSome, true};
ghost use Rattle.verify80_cases.specs.Suggested.{IsBegun, IsExplored, IsNote, IsSearched, IsSuggestedCase, goes_on_behind, is_open};

use crate::before::run_before;
use crate::covered::find_covered;
use crate::marks::is_marked;
use crate::reach::Visited;
use crate::reading::Reader;
use crate::returning::{find_heights, has_return_address};
use crate::table::{EntryRun, address_of, goals_of, is_ended, is_free, is_undeclared};
use frames80::Code;
use image80::{Case, Image};
use std::alloc::{AllocError, Global};
use std::marker::Model;
use verify80::ImageCode;

/// The case that a table suggests for a PCHL.
#[derive(Drop)]
pub struct SuggestedCase {
    /// The PCHL's address and its targets.
    pub case: Case,
    /// The address of the table.
    pub table: u16,
    /// The address after the table's last entry, up to 65536.
    pub end: u32,
    /// Whether the table may be longer: no reached code comes after it, CODE goes on there, and
    /// neither a number of entries nor a key ends it.
    pub may_go_on: bool,
}

/// A remark on a PCHL that is reached and has no declared targets.
#[derive(Clone, Copy, PartialEq, Eq)]
pub enum Note {
    /// The table at `table` is taken to end at `end`, but nothing that is reached shows that it
    /// does.
    MayEnd { table: u16, end: u32 },
    /// No table is seen for the PCHL at this address.
    Tableless(u16),
    /// The PCHL at this address returns: HL has the return address of its procedure.
    Returns(u16),
}

/// What of an image is reached along each branch, after each call whether it returns or not, from a
/// PCHL to its declared targets, and to those that its table has. Which instructions show a table
/// is advice: no contract says when one is seen.
#[derive(Drop)]
pub struct Search {
    /// For each address whether it was reached.
    reached: Vec<bool>,
    /// For each address whether it is a byte of an instruction that is reached.
    taken: Vec<bool>,
    /// For each address how many words a procedure has on the stack there above its return address,
    /// if that is known.
    heights: Vec<Option<i32>>,
}

impl Model for Search {
    ghost use Rattle.verify80_cases.specs.Suggested.{Searched};

    ghost Value = { Searched };

    ghost view = { λ s. record { reached = s.reached.items; taken = s.taken.items } };
}

impl Search {
    /// Searches an image from its start and from these entries, whether anything leads to them or not.
    ///
    /// # Errors
    /// `AllocError` only if memory runs out.
    pub fn of(alloc: Global, code: &ImageCode<'_>, entries: &[u16]) -> Result<Search, AllocError>
        ensures { IfOk result (λ search. IsSearched code.now entries.now search.reached search.taken) }
    {
        let visited = explore_with_tables(alloc, code, entries)?;
        let taken = find_covered(alloc, code, &visited.marks)?;
        let heights = find_heights(alloc, code, &visited.order)?;
        Ok(Search {
            reached: visited.marks,
            taken,
            heights,
        })
    }

    /// Whether an address holds a PCHL that is reached and has no declared targets. `code` must be
    /// that of `image`.
    pub fn is_open(&self, image: &Image, code: &ImageCode<'_>, at: u16) -> bool
        requires { code.now ≡ image.now }
        ensures { result ≡ is_open image.now self.now.reached at }
    {
        is_marked(&self.reached, at) && is_undeclared(image, code, at)
    }

    /// The case of the PCHL at `at`, which must be reached and without declared targets, if a table
    /// is seen for it. `code` must be that of `image`. `None` says only that none is seen.
    ///
    /// # Errors
    /// `AllocError` only if memory runs out.
    pub fn suggest(
        &self,
        alloc: Global,
        image: &Image,
        code: &ImageCode<'_>,
        at: u16,
    ) -> Result<Option<SuggestedCase>, AllocError>
        requires seen { code.now ≡ image.now }
        requires reached { is_open image.now self.now.reached at ≡ true }
        ensures { IfOk result (λ found. IfSome found (λ found.
            IsSuggestedCase image.now self.now.reached self.now.taken found × (found.case.at ≡ at))) }
    {
        let Some(run) = run_before(code, &self.reached, at) else {
            return Ok(None);
        };
        case_of_run(alloc, image, code, &self.reached, &self.taken, at, run)
    }

    /// The remark on the PCHL at `at`, for which `found` was suggested: where its table may not
    /// end, that it returns, or that no table is seen. `None` if something shows where its table
    /// ends.
    pub fn note(&self, code: &ImageCode<'_>, at: u16, found: &Option<SuggestedCase>) -> Option<Note>
        ensures { IsNote at found.now result }
    {
        match found {
            Some(found) if found.may_go_on => Some(Note::MayEnd {
                table: found.table,
                end: found.end,
            }),
            Some(_) => None,
            None if has_return_address(code, &self.reached, &self.heights, at) => Some(
                Note::Returns(at),
            ),
            None => Some(Note::Tableless(at)),
        }
    }
}

/// Searches an image from its start, from these entries, and from the targets of each table that is
/// found on the way. `AllocError` if memory runs out.
fn explore_with_tables(
    alloc: Global,
    code: &ImageCode<'_>,
    entries: &[u16],
) -> Result<Visited, AllocError>
    ensures { IfOk result (λ visited. IsExplored code.now entries.now visited.marks.items visited.order.items) }
{
    let mut reader = Reader::new(alloc)?;
    let mut visited = Visited::of(alloc, code, entries)?;
    // Each table has an end.
    for _ in 0..u64::MAX {
        let Some(target) = reader.next_target(code, &visited)? else {
            break;
        };
        visited.explore(code, target)?;
    }
    Ok(visited)
}

/// The case of a PCHL that goes by these entries of a table; `None` if there is no entry. The PCHL
/// at `at` must be reached and without declared targets, and `run` must be a table that is begun
/// before it, with its limit, at most 65,536. `code` must be that of `image`.
/// `AllocError` if memory runs out.
fn case_of_run(
    alloc: Global,
    image: &Image,
    code: &ImageCode<'_>,
    reached: &[bool],
    taken: &[bool],
    at: u16,
    run: EntryRun,
) -> Result<Option<SuggestedCase>, AllocError>
    requires seen { code.now ≡ image.now }
    requires reached { is_open image.now reached.now at ≡ true }
    requires begun { IsBegun image.now reached.now at run.kind run.first run.limit }
    requires small { run.limit ≤ 65536 }
    ensures { IfOk result (λ found. IfSome found (λ found.
        IsSuggestedCase image.now reached.now taken.now found × (found.case.at ≡ at))) }
{
    let mut targets = goals_of(alloc, code, reached, taken, run)?;
    let count = targets.len();
    if count == 0 {
        return Ok(None);
    }
    targets.sort_unstable();
    targets.dedup();
    let end = address_of(run.kind, run.first, count);
    Ok(Some(SuggestedCase {
        case: Case { at, targets },
        table: run.first,
        end: end as u32,
        may_go_on: count < run.limit
            && goes_on_behind(code, taken, end)
            && !is_ended(code, run.kind, end as u16),
    }))
}

/// Whether the bytes at address `end` and after it are both code and belong to no instruction that
/// is reached.
fn goes_on_behind(code: &ImageCode<'_>, taken: &[bool], end: usize) -> bool
    ensures { result ≡ goes_on_behind code.now taken.now end }
{
    end < 65_535 && is_free(code, taken, end as u16) && is_free(code, taken, (end + 1) as u16)
}
