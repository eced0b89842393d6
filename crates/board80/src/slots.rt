//! What lines take for themselves, as numbers, and marks of it.

ghost use Rattle.std.specs.Prelude.{◌≡◌, ◌+◌, ◌≤◌, ℕ, ◌↔◌, ◌||◌, true, false, length, IsTrue, IfOk};
ghost use Rattle.board80.specs.Reading.{AreUnmarked, in_slots, is_marked, one_slot, range_slots};

use image80::Range;
use std::alloc::{AllocError, Global};

/// The slot of the interrupt at address 0; those before it are the addresses of memory.
pub(crate) const INTERRUPTS: usize = 65536;
/// The slot of the cell at address 0.
pub(crate) const CELLS: usize = 131072;
/// The slot of port 0.
pub(crate) const PORTS: usize = 196608;
/// How many slots there are.
pub(crate) const SLOTS: usize = 196864;

/// Consecutive slots.
#[derive(Clone, Copy)]
pub(crate) struct Slots {
    /// The lowest.
    pub first: usize,
    /// How many.
    pub count: usize,
}

impl Slots {
    /// The slots of a range's addresses.
    pub(crate) fn of(range: Range) -> Slots
        ensures { result ≡ range_slots range }
    {
        Slots {
            first: usize::from(range.first),
            count: usize::from(range.length),
        }
    }

    /// One slot.
    pub(crate) fn one(slot: usize) -> Slots
        ensures { result ≡ one_slot slot }
    {
        Slots {
            first: slot,
            count: 1,
        }
    }
}

/// `count` slots, none of them marked.
pub(crate) fn no_marks(alloc: Global, count: usize) -> Result<Vec<bool>, AllocError>
    ensures { IfOk result (λ marks. AreUnmarked marks.items count) }
{
    Ok(vec![in alloc; false; count]?)
}

/// Whether none of the slots, which must be among the marks, is marked.
pub(crate) fn are_free(marks: &[bool], slots: Slots) -> bool
    requires { slots.first + slots.count ≤ length marks.now }
    ensures { IsTrue result ↔ ((slot : ℕ) → in_slots slots slot ≡ true → is_marked marks.now slot ≡ false) }
{
    let end = slots.first + slots.count;
    for slot in slots.first..end {
        if marks[slot] {
            return false;
        }
    }
    true
}

/// Marks the slots, which must be among the marks.
pub(crate) fn mark(marks: &mut [bool], slots: Slots)
    requires { slots.first + slots.count ≤ length marks.old }
    ensures { (slot : ℕ) → is_marked marks.new slot ≡ (is_marked marks.old slot || in_slots slots slot) }
{
    let end = slots.first + slots.count;
    for slot in slots.first..end {
        marks[slot] = true;
    }
}
