//! Instructions that lead to an address: they stand before it, or before a jump to where instructions stand before it.

ghost use Rattle.std.specs.Prelude.{◌≡◌, ◌⊎◌, true};
ghost use Rattle.image80.specs.Image.{memory_of};
ghost use Rattle.verify80.specs.LookLaws.{fetch_at};
ghost use Rattle.verify80_cases.specs.Standing.{LeadsTo, StandsBefore, jumps_to};

use crate::chain::passed_at;
use crate::marks::is_marked;
use decode80::{Instr, fetch};
use verify80::ImageCode;

/// How many instructions are gone through at most.
pub(crate) const REACH: u32 = 64;

/// Whether the instruction at `place` is seen to lead to `at`: to stand before it, or before the jump at the address `jump`, if there is one.
pub(crate) fn leads_to(
    code: &ImageCode<'_>,
    reached: &[bool],
    place: u16,
    jump: Option<u16>,
    at: u16,
) -> bool
    ensures { result ≡ true → LeadsTo code.now reached.now place at }
{
    match jump {
        None => stands_before(code, reached, place, at),
        Some(jump) => leads_by_jump(code, reached, place, jump, at),
    }
}

/// Whether the instruction at `place` is seen to stand before the jump at `jump`, and that to go to `at`, or to an instruction that is seen
/// to stand before it.
fn leads_by_jump(code: &ImageCode<'_>, reached: &[bool], place: u16, jump: u16, at: u16) -> bool
    ensures { result ≡ true → LeadsTo code.now reached.now place at }
{
    let Some(to) = jumps_to(code, jump) else {
        return false;
    };
    if !is_marked(reached, jump) {
        return false;
    }
    if !stands_before(code, reached, place, jump) {
        return false;
    }
    comes_to(code, reached, to, at)
}

/// Whether `to` is `at`, or the instruction there is seen to stand before it.
fn comes_to(code: &ImageCode<'_>, reached: &[bool], to: u16, at: u16) -> bool
    ensures { result ≡ true → (to ≡ at) ⊎ StandsBefore code.now reached.now to at }
{
    if to == at {
        return true;
    }
    stands_before(code, reached, to, at)
}

/// The address that the instruction at an address may jump to; `None` if it is no jump.
pub(crate) fn jumps_to(code: &ImageCode<'_>, at: u16) -> Option<u16>
    ensures { result ≡ jumps_to (fetch_at code.now.regions (memory_of code.now.chunks) at) }
{
    match fetch(at, code) {
        Ok(found) => match found.instr {
            Instr::Jmp(to) | Instr::JumpIf(_, to) => Some(to),
            _ => None,
        },
        Err(_) => None,
    }
}

/// Whether the instruction at `place` is seen to stand before `at`.
pub(crate) fn stands_before(code: &ImageCode<'_>, reached: &[bool], place: u16, at: u16) -> bool
    ensures { result ≡ true → StandsBefore code.now reached.now place at }
{
    let Some(first) = passed_at(code, reached, place) else {
        return false;
    };
    let mut next = first.next;
    for _ in 0..REACH {
        if next == at {
            return true;
        }
        let Some(passed) = passed_at(code, reached, next) else {
            return false;
        };
        next = passed.next;
    }
    false
}
