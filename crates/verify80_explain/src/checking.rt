//! Whether conditions are of a program. The search that looks for them is not believed.

ghost use Rattle.std.specs.Prelude.{◌≡◌, true, All, IfOk, IfSome};
ghost use Rattle.verify80.specs.Looking.{code_of};
ghost use Rattle.verify80_explain.specs.Conditions.{AreConditionsOf, IsCalledIn, IsPassable, MayBegin};

use crate::conditions::Conditions;
use frames80::{Change, Code, Effect, LookFault, effect_of};
use indexmap::IndexMap;
use std::alloc::{AllocError, Global};
use verify80::ImageCode;

/// The conditions that are of the program. `calls` names an address at which each procedure is called; nothing rests on it.
pub(crate) fn keep_conditions(
    alloc: Global,
    code: &ImageCode,
    calls: &IndexMap<u16, u16>,
    conditions: &Conditions,
) -> Result<Conditions, AllocError>
    ensures { IfOk result (AreConditionsOf (code_of code.now)) }
{
    let begins = keep_begin(code, conditions.begins);
    let passed = keep_passable(alloc, code, &conditions.passed)?;
    let returning = keep_called(alloc, code, calls, &conditions.returning)?;
    Ok(Conditions {
        begins,
        passed,
        returning,
    })
}

/// The address at which the program begins anew, if it may; else `None`, for its start.
fn keep_begin(code: &ImageCode, begin: Option<u16>) -> Option<u16>
    ensures { MayBegin (code_of code.now) result }
{
    if may_begin(code, begin) { begin } else { None }
}

/// The addresses at which the program may begin; `None` is its start.
pub(crate) fn keep_begins(
    alloc: Global,
    code: &ImageCode,
    begins: &[Option<u16>],
) -> Result<Vec<Option<u16>>, AllocError>
    ensures { IfOk result (λ kept. All (MayBegin (code_of code.now)) kept.items) }
{
    let mut kept = Vec::new(alloc);
    for begin in begins {
        if may_begin(code, *begin) {
            kept.push(*begin)?;
        }
    }
    Ok(kept)
}

/// The addresses whose instructions may be passed over.
fn keep_passable(alloc: Global, code: &ImageCode, passed: &[u16]) -> Result<Vec<u16>, AllocError>
    ensures { IfOk result (λ kept. All (IsPassable (code_of code.now)) kept.items) }
{
    let mut kept = Vec::new(alloc);
    for at in passed {
        if is_passable(code, *at) {
            kept.push(*at)?;
        }
    }
    Ok(kept)
}

/// The entries that are called where `calls` says.
fn keep_called(
    alloc: Global,
    code: &ImageCode,
    calls: &IndexMap<u16, u16>,
    returning: &[u16],
) -> Result<Vec<u16>, AllocError>
    ensures { IfOk result (λ kept. All (IsCalledIn (code_of code.now)) kept.items) }
{
    let mut kept = Vec::new(alloc);
    for entry in returning {
        if is_called(code, calls, *entry) {
            kept.push(*entry)?;
        }
    }
    Ok(kept)
}

/// Whether the program may begin here: at its start, or anew if the instruction loads the stack's top into SP.
pub(crate) fn may_begin(code: &ImageCode, begin: Option<u16>) -> bool
    ensures { result ≡ true → MayBegin (code_of code.now) begin }
{
    let Some(at) = begin else {
        return true;
    };
    let Ok(found) = code.look(at) else {
        return false;
    };
    match effect_of(found.instr) {
        Effect::Change(Change::SetStack(top)) => top == code.top(),
        _ => false,
    }
}

/// Whether the instruction at an address may be passed over: a refused EI, STA or SHLD.
fn is_passable(code: &ImageCode, at: u16) -> bool
    ensures { result ≡ true → IsPassable (code_of code.now) at }
{
    match code.look(at) {
        Err(LookFault::EnablesInterrupts) | Err(LookFault::DirectStore) => true,
        _ => false,
    }
}

/// Whether a procedure is called where `calls` says.
fn is_called(code: &ImageCode, calls: &IndexMap<u16, u16>, entry: u16) -> bool
    ensures { result ≡ true → IsCalledIn (code_of code.now) entry }
{
    match calls.get(&entry) {
        Some(at) => called_at(code, *at) == Some(entry),
        None => false,
    }
}

/// The procedure that the instruction at an address calls; `None` if it calls none.
pub(crate) fn called_at(code: &ImageCode, at: u16) -> Option<u16>
    ensures { IfSome result (IsCalledIn (code_of code.now)) }
{
    let Ok(found) = code.look(at) else {
        return None;
    };
    match effect_of(found.instr) {
        Effect::Call(to) | Effect::CallIf(to) => Some(to),
        _ => None,
    }
}
