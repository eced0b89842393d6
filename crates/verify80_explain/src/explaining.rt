//! A refusal is explained.

ghost use Rattle.std.specs.Prelude.{IfOk};
ghost use Rattle.verify80.specs.Looking.{code_of};
ghost use Rattle.verify80_explain.specs.Evidence.{ShowsKind};
ghost use Rattle.verify80_explain.specs.Shows.{Shows};

use crate::explanation::Explanation;
use crate::sought::Sought;
use frames80::Code;
use image80::Image;
use std::alloc::Global;
use verify80::ImageCode;
use verify80_flow::Refusal;
use verify80_walks::{Search, Unexplained};

/// At which weight of its points a search stops first to see whether they show the refusal; the
/// weight doubles each time.
const FIRST_WEIGHT: usize = 1_024;

/// The ways that show a refusal: the walks of the image's program are followed one by one, breadth first, and no frames are
/// merged.
///
/// For `Recursion` it is the calls that lead back to a procedure. `StackTooSmall` has a chain of calls instead of a way:
/// [`find_chain`](crate::find_chain). The limit is on what the points that are found weigh together: eight for each point, one for
/// each word of its frame and each word taken, and as much again for each target that is declared at its address.
///
/// # Errors
/// `NotShown` if every walk was followed to its end and none shows the refusal; and for `StackTooSmall`, `TooManyPoints` and
/// `Memory`, which no ways show. `Limit` if the points that were found weigh more than the limit, or one has more than 1,000,000
/// words, its own or those taken. `Memory` if memory runs out.
pub fn explain(
    alloc: Global,
    image: &Image,
    refusal: Refusal,
    limit: usize,
) -> Result<Explanation, Unexplained>
    ensures shown { IfOk result (Shows (code_of image.now) refusal) }
{
    let code = ImageCode::new(alloc, image)?;
    match Sought::of(refusal) {
        Some(sought) => explain_sought(alloc, &code, sought, limit),
        None => Err(Unexplained::NotShown),
    }
}

/// Searches a program for points that show what is sought, and returns the ways to them. The faults
/// are those of [`explain`].
fn explain_sought<C: Code>(
    alloc: Global,
    program: &C,
    sought: Sought,
    limit: usize,
) -> Result<Explanation, Unexplained>
    ensures { IfOk result (ShowsKind (C.code program.now) sought.at sought.kind) }
{
    let mut search = Search::new(alloc);
    show_sought(alloc, program, sought, limit, &mut search)
}

/// Lets a search grow, in steps of doubled weight, until its points show what is sought, and returns
/// the ways to them. The faults are those of [`explain`].
fn show_sought<C: Code>(
    alloc: Global,
    program: &C,
    sought: Sought,
    limit: usize,
    search: &mut Search,
) -> Result<Explanation, Unexplained>
    ensures { IfOk result (ShowsKind (C.code program.now) sought.at sought.kind) }
{
    let mut weight = FIRST_WEIGHT;
    for _ in 0..usize::BITS {
        let is_whole = search.grow(alloc, program, weight)?;
        if let Some(shown) = sought.show(alloc, program, search)? {
            return Ok(shown);
        }
        if is_whole {
            return Err(Unexplained::NotShown);
        }
        if weight >= limit {
            break;
        }
        weight = weight.saturating_mul(2).min(limit);
    }
    Err(Unexplained::Limit)
}
