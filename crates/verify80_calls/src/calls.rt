//! The calls of a procedure.

ghost use Rattle.std.specs.Prelude.{◌≡◌, IfOk};
ghost use Rattle.std.specs.List.{filter_map};
ghost use Rattle.verify80.specs.Looking.{code_of};
ghost use Rattle.verify80_calls.specs.Calls.{AreCalls};
ghost use Rattle.verify80_calls.specs.Points.{call_at, called_by};

use crate::points::points_of;
use frames80::{Code, Effect, depth_by, effect_of, role_of};
use std::alloc::{AllocError, Global};
use verify80::{ImageCode, ProgramPoint, Vouched};
use verify80_flow::{Procedure, fitting_tables_cover_walks};

/// A call of a procedure.
#[derive(Clone, Copy, PartialEq, Eq)]
pub struct Call {
    /// The address of the call.
    pub at: u16,
    /// By how many bytes the stack has grown there since the caller's start, its return address not
    /// counted; negative if it has shrunk.
    pub depth: i64,
    /// The address that is called, which is the callee's entry.
    pub target: u16,
}

/// The calls of a procedure of a vouched image, by address: exactly those of its walks, with the
/// depth of the walk there. Empty if the image has no such procedure.
///
/// # Errors
/// `AllocError` if memory runs out.
pub fn find_calls(
    alloc: Global,
    vouched: &Vouched,
    procedure: Procedure,
) -> Result<Vec<Call>, AllocError>
    ensures { IfOk result (λ calls. AreCalls (code_of vouched.now.image) procedure calls.items) }
{
    let code = ImageCode::new(alloc, vouched.image())?;
    calls_among(alloc, vouched, &code, procedure)
}

/// The calls of a procedure of a vouched image, as [`find_calls`] gives them; `code` must be that
/// of the image.
///
/// # Errors
/// `AllocError` if memory runs out.
pub(crate) fn calls_among(
    alloc: Global,
    vouched: &Vouched,
    code: &ImageCode,
    procedure: Procedure,
) -> Result<Vec<Call>, AllocError>
    requires { code.now ≡ vouched.now.image }
    ensures { IfOk result (λ calls. AreCalls (code_of vouched.now.image) procedure calls.items) }
{
    fitting_tables_cover_walks();
    let calls = calls_at(alloc, code, points_of(vouched.points(), procedure))?;
    Ok(calls)
}

/// The calls at those of the points whose instruction is a call, in the order of the points.
///
/// # Errors
/// `AllocError` if memory runs out.
fn calls_at(
    alloc: Global,
    code: &ImageCode,
    points: &[ProgramPoint],
) -> Result<Vec<Call>, AllocError>
    ensures { IfOk result (λ calls. calls.items ≡ filter_map (call_at (code_of code.now)) points.now) }
{
    points
        .iter()
        .filter_map(|point| call_at(code, point))
        .collect(alloc)
}

/// The call at a point; `None` if its instruction is no call.
fn call_at(code: &ImageCode, point: &ProgramPoint) -> Option<Call>
    ensures { result ≡ call_at (code_of code.now) point.now }
{
    let found = code.look(point.at).ok()?;
    let target = target_of(effect_of(found.instr))?;
    Some(Call {
        at: point.at,
        depth: depth_by(role_of(code, point.procedure), point.words, point.taken),
        target,
    })
}

/// The address that an effect calls; `None` if it is no call.
fn target_of(effect: Effect) -> Option<u16>
    ensures { result ≡ called_by effect }
{
    match effect {
        Effect::Call(to) | Effect::CallIf(to) => Some(to),
        _ => None,
    }
}
