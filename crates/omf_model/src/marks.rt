//! The bytes of a content record that a reference has: a mark for each byte, so that a test looks at one mark.

ghost use Rattle.std.specs.Prelude.{◌≡◌, ◌<◌, true, false, not, ℕ, List, [], ◌∷◌, ◌++◌, length, IsTrue, IfOk, slice_index_or, slice_set, vec_len};
ghost use Rattle.omf_model.specs.declared.fixup.Fixup.{Fixup};
ghost use Rattle.omf_model.specs.Contents.{is_taken, is_inside, shares_a_byte};
ghost use Rattle.omf_model.specs.Marks.{AreMarks};
ghost use Rattle.omf_model.specs.Rules.{each_after, is_fitting, has_target};

use crate::fixup::{Fixup, Target};
use crate::rules::has_segment;
use crate::symbols::Common;
use omf_body::Field;
use std::alloc::{AllocError, Global};

/// Whether the target of a fixup exists in a module with these commons and this number of
/// externals.
fn has_target(commons: &[Common], externals: usize, target: Target) -> bool
    ensures { result ≡ has_target commons.now externals target }
{
    match target {
        Target::Segment(id) => has_segment(commons, id),
        Target::External(index) => (index as usize) < externals,
    }
}

/// Whether each byte of the fixup is one of the `size` bytes from offset `first` on.
pub fn is_inside(first: u16, size: usize, fixup: Fixup) -> bool
    ensures { result ≡ is_inside first size fixup }
{
    if fixup.offset < first {
        return false;
    }
    let place = (fixup.offset - first) as usize;
    match fixup.field {
        Field::Low | Field::High => place < size,
        Field::Both => place < size && place + 1 < size,
    }
}

/// Marks the byte at index `place`; `true` if it had no mark before. `place` must be below the
/// number of marks.
fn take_byte(marks: &mut Vec<bool>, place: usize) -> bool
    requires { place < vec_len marks.old }
    ensures marked { marks.new.items ≡ slice_set marks.old.items place true }
    ensures free { result ≡ not (slice_index_or marks.old.items place false) }
{
    let was_taken = marks[place];
    marks[place] = true;
    !was_taken
}

/// Whether no byte of the fixup has a mark. The marks are those of a content at offset `first`,
/// inside which the fixup must lie.
pub fn is_free(marks: &[bool], first: u16, fixup: Fixup) -> bool
    requires { IsTrue (is_inside first (length marks.now) fixup) }
    ensures { (before : List Fixup)
        → AreMarks marks.now first (is_taken before)
        → result ≡ not (shares_a_byte before fixup) }
{
    let place = (fixup.offset - first) as usize;
    match fixup.field {
        Field::Low | Field::High => !marks[place],
        Field::Both => !marks[place] && !marks[place + 1],
    }
}

/// Marks the bytes of the fixup; `true` if none of them had a mark before. The marks are those of a
/// content at offset `first`, inside which the fixup must lie.
pub fn mark(marks: &mut Vec<bool>, first: u16, fixup: Fixup) -> bool
    requires { IsTrue (is_inside first (vec_len marks.old) fixup) }
    ensures free { (before : List Fixup)
        → AreMarks marks.old.items first (is_taken before)
        → result ≡ not (shares_a_byte before fixup) }
    ensures marked { (before : List Fixup)
        → AreMarks marks.old.items first (is_taken before)
        → AreMarks marks.new.items first (is_taken (before ++ fixup ∷ [])) }
    ensures as_many { vec_len marks.new ≡ vec_len marks.old }
{
    let place = (fixup.offset - first) as usize;
    match fixup.field {
        Field::Low | Field::High => take_byte(marks, place),
        Field::Both => {
            let low = take_byte(marks, place);
            let high = take_byte(marks, place + 1);
            low && high
        }
    }
}

/// The marks of a content of `size` bytes without fixups: `false` for each byte. `Err` only if
/// memory runs out.
pub fn no_marks(alloc: Global, size: usize) -> Result<Vec<bool>, AllocError>
    ensures none { IfOk result (λ marks. (first : ℕ) → AreMarks marks.items first (is_taken [])) }
    ensures as_many { IfOk result (λ marks. vec_len marks ≡ size) }
{
    let marks = vec![in alloc; false; size]?;
    Ok(marks)
}

/// Whether each fixup lies inside the `size` bytes from offset `first` on, shares no byte with one
/// before it, and has a target that exists in a module with these commons and this number of
/// externals. `Err` only if memory runs out.
pub(crate) fn are_fitting(
    alloc: Global,
    commons: &[Common],
    externals: usize,
    first: u16,
    size: usize,
    fixups: &[Fixup],
) -> Result<bool, AllocError>
    ensures { IfOk result (λ kept. kept ≡ each_after (is_fitting commons.now externals first size) [] fixups.now) }
{
    let mut marks = no_marks(alloc, size)?;
    for fixup in fixups {
        let fits = is_inside(first, size, *fixup) && has_target(commons, externals, fixup.target);
        if !fits || !mark(&mut marks, first, *fixup) {
            return Ok(false);
        }
    }
    Ok(true)
}
