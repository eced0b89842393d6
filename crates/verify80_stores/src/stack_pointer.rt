//! Whether a program sets SP before it uses it.
//!
//! The addresses that the main program may reach with SP not set are searched, and nothing rests on how: that none is forgotten is
//! looked at address by address.

ghost use Rattle.std.specs.Prelude.{◌≡◌, true, IfOk, length};
ghost use Rattle.std.specs.List.{list_all};
ghost use Rattle.decode80.specs.declared.flow.Flow.TheVariants.{JumpsToHl};
ghost use Rattle.decode80.specs.Facts.{flow};
ghost use Rattle.verify80.specs.Boards.{SetsStack, sets_sp, uses_sp};
ghost use Rattle.verify80_states.specs.Marks.{is_marked};
ghost use Rattle.verify80_stores.specs.StackPointer.{AreClosed, IsClosedAt, LeadsToMarked};

use crate::ways::Ways;
use decode80::{Fetched, Flow, Instr, Pair, fetch};
use image80::{Image, Regions};
use std::alloc::{AllocError, Global};
use verify80::{ImageCode, ProcRow};
use verify80_proposals::{Groups, ReachedProgram};
use verify80_states::{entry_at, is_marked};

/// Whether the main program of an image sets SP, on each way, before an instruction uses it. If it does, SP may be anything where a
/// run begins.
///
/// # Errors
/// `AllocError` if memory runs out.
pub(crate) fn sets_stack(
    alloc: Global,
    image: &Image,
    rows: &[ProcRow],
    reached: &[Option<Fetched>],
) -> Result<bool, AllocError>
    ensures { IfOk result (λ sets. sets ≡ true → SetsStack image.now) }
{
    let code = ImageCode::new(alloc, image)?;
    let marks = find_unset(alloc, image, rows, reached)?;
    if !is_marked(&marks, image.start) {
        return Ok(false);
    }
    Ok(are_closed(&code, &image.regions, &marks))
}

/// Whether each marked address is closed.
fn are_closed(code: &ImageCode, regions: &Regions, marks: &[bool]) -> bool
    requires { regions.now ≡ code.now.regions }
    ensures { result ≡ true → AreClosed code.now marks.now 65536 }
{
    for address in 0..65_536_u32 {
        if !is_closed(code, regions, marks, address as u16) {
            return false;
        }
    }
    true
}

/// Whether an address isn't marked, or the instruction there doesn't use SP, and, unless it sets it, leads to marked addresses alone. If
/// no instruction is there, nothing is wanted.
fn is_closed(code: &ImageCode, regions: &Regions, marks: &[bool], at: u16) -> bool
    requires { regions.now ≡ code.now.regions }
    ensures { result ≡ true → is_marked marks.now at ≡ true → IsClosedAt code.now marks.now at }
{
    if !is_marked(marks, at) {
        return true;
    }
    match fetch(at, code) {
        Ok(found) if uses_sp(found.instr) => false,
        Ok(found) => sets_sp(found.instr) || leads_to_marked(regions, marks, at, found),
        Err(_) => true,
    }
}

/// Whether each address to which an instruction leads is marked.
fn leads_to_marked(regions: &Regions, marks: &[bool], at: u16, found: Fetched) -> bool
    ensures { result ≡ true → LeadsToMarked regions.now marks.now at (flow found.instr) found.next }
{
    match found.instr.flow() {
        Flow::Continues => is_marked(marks, found.next),
        Flow::Jumps(to) => is_marked(marks, to),
        Flow::JumpsIf(_, to) => is_marked(marks, found.next) && is_marked(marks, to),
        Flow::JumpsToHl => targets_are_marked(regions, marks, at),
        Flow::Calls(_)
        | Flow::CallsIf(_, _)
        | Flow::Returns
        | Flow::ReturnsIf(_)
        | Flow::Pushes
        | Flow::Pops
        | Flow::Exchanges
        | Flow::Halts => true,
    }
}

/// Whether targets are declared for an address, and each is marked.
fn targets_are_marked(regions: &Regions, marks: &[bool], at: u16) -> bool
    ensures { result ≡ true → LeadsToMarked regions.now marks.now at JumpsToHl 0 }
{
    match regions.targets(at) {
        Some(targets) => are_marked(marks, targets),
        None => false,
    }
}

/// Whether each of these addresses is marked.
fn are_marked(marks: &[bool], targets: &[u16]) -> bool
    ensures { result ≡ list_all (is_marked marks.now) targets.now }
{
    targets.iter().all(|target| is_marked(marks, *target))
}

/// Whether an instruction sets SP to a word of its own.
fn sets_sp(instr: Instr) -> bool
    ensures { result ≡ sets_sp instr }
{
    matches!(instr, Instr::Lxi(Pair::Sp, _))
}

/// Whether what an instruction does depends on SP.
fn uses_sp(instr: Instr) -> bool
    ensures { result ≡ uses_sp instr }
{
    matches!(
        instr,
        Instr::Dad(Pair::Sp)
            | Instr::Inx(Pair::Sp)
            | Instr::Dcx(Pair::Sp)
            | Instr::Sphl
            | Instr::Push(_)
            | Instr::Pop(_)
            | Instr::Xthl
            | Instr::Call(_)
            | Instr::CallIf(_, _)
            | Instr::Ret
            | Instr::ReturnIf(_)
            | Instr::Rst(_)
    )
}

/// The addresses that the main program may reach before it has set SP, marked by address.
///
/// # Errors
/// `AllocError` if memory runs out.
fn find_unset(
    alloc: Global,
    image: &Image,
    rows: &[ProcRow],
    reached: &[Option<Fetched>],
) -> Result<Vec<bool>, AllocError>
    ensures { IfOk result (λ marks. length marks.items ≡ 65536) }
{
    let program = ReachedProgram::new(image, reached, &[], &[]);
    let groups = Groups::new(alloc, program, rows)?;
    let mut ways = Ways::new(alloc, program, &groups)?;
    ways.spread(
        |at, instr| at == image.start && !sets_sp(instr),
        |instr| !sets_sp(instr),
    )?;
    (0..65_536_u32)
        .map(|at| at as u16 == image.start || entry_at(&ways.found, at as u16).is_some())
        .collect(alloc)
}
