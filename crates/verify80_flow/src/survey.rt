//! The depths and the calls of a program, read off its table.

ghost use Rattle.std.specs.Prelude.{◌≡◌, ◌<◌, [], ◌∷◌, ◌++◌, IfOk, IfErr, OnOk, length};
ghost use Rattle.verify80_flow.specs.Known.{Refused, Stands, is_exact};
ghost use Rattle.verify80_flow.specs.Survey.{AreWants, IsSurvey, IsSeen, noted};
ghost use Rattle.verify80_flow.specs.Walks.{called};
ghost use Rattle.frames80.specs.StackFrame.{StackFrame};
ghost use Rattle.frames80_interned.specs.Admitted.{move_of};

use crate::laws::frame_laws;
use crate::refusal::Refusal;
use crate::table::Table;
use frames80::{Code, Effect, Procedure, slot};
use std::alloc::{AllocError, Global};
use verify80_bounds::{CallSite, Depth};

/// The depths of a program's frames, and its calls.
#[derive(Drop)]
pub(crate) struct CallGraph {
    /// The depth of each point's frame.
    pub(crate) depths: Vec<Depth>,
    /// The calls at the points.
    pub(crate) calls: Vec<CallSite>,
}

/// The depth of the frame of each point of a table, and the calls at these points. `wants` must
/// have for each slot the most words that are taken at one of its procedure's points.
///
/// # Errors
/// `ShortArguments`, and any other refusal that holds; out of memory.
pub(crate) fn find_calls<C: Code>(
    alloc: Global,
    program: &C,
    table: &Table,
    wants: &[u32],
) -> Result<CallGraph, Refusal>
    requires slots { length wants.now ≡ 65537 }
    requires wants { AreWants table.now.known.points wants.now (length table.now.known.points) }
    ensures surveyed { IfOk result (λ s.
        IsSurvey (C.code program.now) table.now.known wants.now (length table.now.known.points) s.depths.items s.calls.items) }
    ensures refused { IfErr result (λ refusal.
        Stands (is_exact table.now.known.forgets) (C.code program.now) table.now.known →
        Refused (is_exact table.now.known.forgets) (C.code program.now) refusal) }
{
    let mut graph = CallGraph {
        depths: Vec::new(alloc),
        calls: Vec::new(alloc),
    };
    for point in 0..table.len() {
        let (depth, call) = look_at(program, table, wants, point)?;
        graph.note(depth, call)?;
    }
    Ok(graph)
}

impl CallGraph {
    /// Appends the depth of a point's frame, and the call there, if there is one. `AllocError` if
    /// memory runs out.
    fn note(&mut self, depth: Depth, call: Option<CallSite>) -> Result<(), AllocError>
        ensures depths { OnOk result (self.new.depths.items ≡ self.old.depths.items ++ depth ∷ []) }
        ensures calls { OnOk result (self.new.calls.items ≡ noted self.old.calls.items call) }
    {
        self.depths.push(depth)?;
        if let Some(call) = call {
            self.calls.push(call)?;
        }
        Ok(())
    }
}

/// The depth of a point's frame, and the call at the point, if its instruction is one. A caller
/// without the words that its callee wants is refused. There must be a point with index `point`.
/// `wants` must have for each slot the most words that are taken at one of its procedure's points.
///
/// # Errors
/// `ShortArguments`, and any other refusal that holds.
fn look_at<C: Code>(
    program: &C,
    table: &Table,
    wants: &[u32],
    point: usize,
) -> Result<(Depth, Option<CallSite>), Refusal>
    requires slots { length wants.now ≡ 65537 }
    requires wants { AreWants table.now.known.points wants.now (length table.now.known.points) }
    requires there { point < length table.now.known.points }
    ensures seen { IfOk result (λ seen. IsSeen (C.code program.now) table.now.known wants.now point seen.0 seen.1) }
    ensures refused { IfErr result (λ refusal.
        Stands (is_exact table.now.known.forgets) (C.code program.now) table.now.known →
        Refused (is_exact table.now.known.forgets) (C.code program.now) refusal) }
{
    frame_laws();
    let (site, effect) = table.effect_at(program, point)?;
    let depth = table.frames().depth(site.frame, site.role);
    let noted = Depth {
        procedure: site.procedure,
        depth,
    };
    let Some(target) = target_of(effect) else {
        return Ok((noted, None));
    };
    let wanted = wants[slot(Procedure::Entry(target))];
    if table.frames().room(site.frame, site.role) < wanted {
        return Err(Refusal::ShortArguments(site.at));
    }
    let call = CallSite {
        caller: site.procedure,
        at: site.at,
        depth,
        target,
    };
    Ok((noted, Some(call)))
}

/// The address that an effect calls; `None` if it is no call.
pub(crate) fn target_of(effect: Effect) -> Option<u16>
    ensures { (frame : StackFrame) → result ≡ called (move_of effect frame) }
{
    match effect {
        Effect::Call(target) | Effect::CallIf(target) => Some(target),
        _ => None,
    }
}
