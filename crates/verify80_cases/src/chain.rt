//! The instructions that stand before an address, one after another.

ghost use Rattle.std.specs.Prelude.{IfSome};
ghost use Rattle.verify80_cases.specs.Standing.{GoesOn};

use crate::leads::falls_to;
use crate::marks::is_marked;
use decode80::{Instr, behind, fetch};
use verify80::ImageCode;

/// An instruction that is reached and that may go on to the next one.
#[derive(Clone, Copy)]
pub(crate) struct Passed {
    /// The instruction.
    pub(crate) instr: Instr,
    /// The address after it.
    pub(crate) next: u16,
}

/// The instruction at an address, if the address is reached and the instruction may go on to the
/// next one; else `None`.
pub(crate) fn passed_at(code: &ImageCode<'_>, reached: &[bool], at: u16) -> Option<Passed>
    ensures { IfSome result (λ passed. GoesOn code.now reached.now at passed.next) }
{
    if !is_marked(reached, at) {
        return None;
    }
    let Ok(found) = fetch(at, code) else {
        return None;
    };
    let next = falls_to(found)?;
    Some(Passed {
        instr: found.instr,
        next,
    })
}

/// The address where the instructions begin that lead to `at` one after another: each is reached
/// and may go on to the next one, and no other reached instruction does. `at` itself if there are
/// none.
pub(crate) fn first_before(code: &ImageCode<'_>, reached: &[bool], at: u16) -> u16 {
    // Behind a given number of instructions the addresses come again.
    first_within(code, reached, at, 65_536)
}

/// The address where the instructions begin that lead to `at` one after another, as [`first_before`]
/// has them, but `most` of them at most.
pub(crate) fn first_within(code: &ImageCode<'_>, reached: &[bool], at: u16, most: u32) -> u16 {
    let mut first = at;
    for _ in 0..most {
        match the_one_before(code, reached, first) {
            Some(before) => first = before,
            None => break,
        }
    }
    first
}

/// The address of the only reached instruction that goes on to `at`; `None` if there are none or
/// several.
fn the_one_before(code: &ImageCode<'_>, reached: &[bool], at: u16) -> Option<u16> {
    let mut found = None;
    for bytes in 1..4_u16 {
        let before = behind(at, bytes);
        if goes_on_to(code, reached, before, at) {
            if found.is_some() {
                return None;
            }
            found = Some(before);
        }
    }
    found
}

/// Whether the instruction at `before` is reached and may go on to `at`, which must be the next
/// address.
fn goes_on_to(code: &ImageCode<'_>, reached: &[bool], before: u16, at: u16) -> bool {
    match passed_at(code, reached, before) {
        Some(passed) => passed.next == at,
        None => false,
    }
}
