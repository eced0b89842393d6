//! The tables that are found on the way, and the targets that they have.

ghost use Rattle.std.specs.Prelude.{◌≡◌, [], IfOk, IfSome, OnOk};
ghost use Rattle.verify80_cases.specs.Reading.{AreRests, IsBehindFirst, IsFirstGoal, IsRest};
ghost use Rattle.verify80_cases.specs.Suggested.{IsTableTarget};

use crate::before::run_before;
use crate::marks::{is_marked, mark};
use crate::reach::Visited;
use crate::table::{EntryRun, holds_pchl, stride, target_at};
use decode80::{ahead, fetch};
use frames80::{Code, table};
use std::alloc::{AllocError, Global};
use verify80::ImageCode;

/// How many addresses there are.
const ADDRESSES: usize = 65_536;

/// Finds the tables of PCHLs without declared targets as a search goes on, and reads their targets
/// one by one.
#[derive(Drop)]
pub(crate) struct Reader {
    /// For each address whether it is a byte of an instruction that is reached.
    taken: Vec<bool>,
    /// For each address whether the table there was begun.
    begun: Vec<bool>,
    /// How many addresses of the search's order have been gone through.
    known: usize,
    /// What is left to read of each table that isn't read to its end.
    pub(crate) unfinished: Vec<EntryRun>,
}

impl Reader {
    /// No table is found. `AllocError` if memory runs out.
    pub(crate) fn new(alloc: Global) -> Result<Reader, AllocError>
        ensures { IfOk result (λ reader. reader.unfinished.items ≡ []) }
    {
        Ok(Reader {
            taken: table(alloc, false, ADDRESSES)?,
            begun: table(alloc, false, ADDRESSES)?,
            known: 0,
            unfinished: Vec::new(alloc),
        })
    }

    /// The next target that a table has, or `None` if all tables are read to their ends. The table
    /// that was found last comes first, and the caller must explore what a target leads to before
    /// it asks for the next. Each unfinished table must be the rest of one by which an undeclared
    /// PCHL goes, as `visited` has it; each is so afterwards.
    pub(crate) fn next_target(
        &mut self,
        code: &ImageCode<'_>,
        visited: &Visited,
    ) -> Result<Option<u16>, AllocError>
        requires { AreRests code.now visited.now.marks.items self.old.unfinished.items }
        ensures target { IfOk result (λ target. IfSome target (IsTableTarget code.now visited.now.marks.items)) }
        ensures rests { OnOk result (AreRests code.now visited.now.marks.items self.new.unfinished.items) }
    {
        self.notice(code, visited)?;
        // Each table is taken out for good in the end.
        for _ in 0..u64::MAX {
            let Some(rest) = self.unfinished.pop() else {
                break;
            };
            if let Some(goal) = first_goal(code, visited, &self.taken, rest) {
                if let Some(next) = behind_first(rest) {
                    self.unfinished.push(next)?;
                }
                return Ok(Some(goal));
            }
        }
        Ok(None)
    }

    /// Goes through the addresses that were reached since the last call: marks the bytes of their
    /// instructions, and begins the tables of their PCHLs. Each unfinished table must be the rest
    /// of one by which an undeclared PCHL goes, as `visited` has it; each is so afterwards.
    /// `AllocError` if memory runs out.
    fn notice(&mut self, code: &ImageCode<'_>, visited: &Visited) -> Result<(), AllocError>
        requires { AreRests code.now visited.now.marks.items self.old.unfinished.items }
        ensures { OnOk result (AreRests code.now visited.now.marks.items self.new.unfinished.items) }
    {
        let from = self.known;
        let to = visited.order.len();
        for number in from..to {
            self.take(code, visited.order[number]);
        }
        for number in from..to {
            self.begin(code, visited, visited.order[number])?;
        }
        self.known = to;
        Ok(())
    }

    /// Marks the bytes of the instruction at an address as taken.
    fn take(&mut self, code: &ImageCode<'_>, at: u16)
        ensures { self.new.unfinished.items ≡ self.old.unfinished.items }
    {
        let Ok(found) = fetch(at, code) else {
            return;
        };
        for place in 0..3 {
            let address = ahead(at, place);
            if address == found.next {
                return;
            }
            mark(&mut self.taken, address);
        }
    }

    /// Begins to read the table of the PCHL at an address, if there is one without declared targets
    /// and its table is seen, unless that table was begun before. Each unfinished table must be the
    /// rest of one by which an undeclared PCHL goes, as `visited` has it; each is so afterwards.
    /// `AllocError` if memory runs out.
    fn begin(&mut self, code: &ImageCode<'_>, visited: &Visited, at: u16) -> Result<(), AllocError>
        requires { AreRests code.now visited.now.marks.items self.old.unfinished.items }
        ensures { OnOk result (AreRests code.now visited.now.marks.items self.new.unfinished.items) }
    {
        let Some(run) = undeclared_run(code, visited, at) else {
            return Ok(());
        };
        if !is_marked(&self.begun, run.first) {
            mark(&mut self.begun, run.first);
            self.unfinished.push(run)?;
        }
        Ok(())
    }
}

/// The entries of the table of the PCHL at an address; `None` if there is no PCHL, it has declared
/// targets, or no table is seen.
fn undeclared_run(code: &ImageCode<'_>, visited: &Visited, at: u16) -> Option<EntryRun>
    ensures { IfSome result (IsRest code.now visited.now.marks.items) }
{
    if !holds_pchl(code, at) || !code.targets(at).is_empty() {
        return None;
    }
    run_before(code, &visited.marks, at)
}

/// The address to which the PCHL goes by the first of the entries that are left; `None` if none are
/// left or there can be no entry.
fn first_goal(
    code: &ImageCode<'_>,
    visited: &Visited,
    taken: &[bool],
    rest: EntryRun,
) -> Option<u16>
    ensures { IfSome result (IsFirstGoal code.now rest) }
{
    if rest.limit == 0 {
        return None;
    }
    target_at(
        code,
        &visited.marks,
        taken,
        rest.kind,
        usize::from(rest.first),
    )
}

/// The entries that are left after the first; `None` at the end of memory.
fn behind_first(rest: EntryRun) -> Option<EntryRun>
    ensures { IfSome result (IsBehindFirst rest) }
{
    let limit = rest.limit.checked_sub(1)?;
    let first = usize::from(rest.first) + stride(rest.kind);
    if first >= ADDRESSES {
        return None;
    }
    Some(EntryRun {
        kind: rest.kind,
        first: first as u16,
        limit,
    })
}
