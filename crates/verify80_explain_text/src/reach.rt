//! Where walks stand, a line for each call and each refusal.

ghost use Rattle.std.specs.Prelude.{◌≡◌, ◌++◌, IfOk, None, OnOk};
ghost use Rattle.verify80.specs.Looking.{code_of};
ghost use Rattle.verify80_explain_text.specs.Explained.{with_address};
ghost use Rattle.verify80_explain_text.specs.Reaching.{call_lines, called_at as called_in, heading, headed_lines, lines_by, point_lines, procedure_line};
ghost use Rattle.verify80_explain_text.specs.Reaching.{reach_text as text_of_reach, refusal_text, refused_lines, standing_text, target_text};

use crate::calls::{append_address, append_end};
use frames80::{Code, Effect, effect_of};
use image80::Image;
use image80_text::PublicTable;
use std::alloc::{AllocError, Global};
use verify80::ImageCode;
use verify80_explain::{ReachedPoint, Standing};
use verify80_flow::{Procedure, Refusal};

/// The procedures at whose addresses walks stand, line by line, as `PROC 3004 BOUND ?`; below each its calls, as
/// `  AT 3005 DEPTH 2 CALLS 300A NEEDS ?`, with the bytes that the procedure has on the stack there, and what is refused in it, as
/// `  AT 3008 DEPTH 4 REFUSED 3 EnablesInterrupts`. A line ends with the name of the procedure, of the call's target or of the refused
/// address, if the publics have one. A procedure has one line for all its points that follow one another.
///
/// # Errors
/// `AllocError` only if memory runs out.
pub fn reach_text(
    alloc: Global,
    image: &Image,
    publics: &PublicTable,
    points: &[ReachedPoint],
) -> Result<Vec<u8>, AllocError>
    ensures { IfOk result (λ text. text.items ≡ text_of_reach image.now publics.now points.now) }
{
    let code = ImageCode::new(alloc, image)?;
    let mut text = Vec::new(alloc);
    append_points(alloc, &mut text, image, &code, publics, points)?;
    Ok(text)
}

/// Appends the lines of points, each procedure's below its own. `code` must be that of the image.
fn append_points(
    alloc: Global,
    text: &mut Vec<u8>,
    image: &Image,
    code: &ImageCode<'_>,
    publics: &PublicTable,
    points: &[ReachedPoint],
) -> Result<(), AllocError>
    requires { code.now ≡ image.now }
    ensures { OnOk result (text.new.items ≡ text.old.items ++ lines_by (headed_lines image.now publics.now) None points.now) }
{
    let mut before = None;
    let mut rest = points;
    while let [point, after @ ..] = rest {
        append_heading(
            alloc,
            text,
            image,
            publics,
            before,
            point.standing.procedure,
        )?;
        append_point(alloc, text, image, code, publics, *point)?;
        before = Some(point.standing.procedure);
        rest = after;
    }
    Ok(())
}

/// Appends the line of a procedure, unless it is the one `before`.
fn append_heading(
    alloc: Global,
    text: &mut Vec<u8>,
    image: &Image,
    publics: &PublicTable,
    before: Option<Procedure>,
    procedure: Procedure,
) -> Result<(), AllocError>
    ensures { OnOk result (text.new.items ≡ text.old.items ++ heading image.now publics.now before procedure) }
{
    if before == Some(procedure) {
        return Ok(());
    }
    append_procedure_line(alloc, text, image, publics, procedure)
}

/// Appends the line of a procedure, whose bound isn't known.
fn append_procedure_line(
    alloc: Global,
    text: &mut Vec<u8>,
    image: &Image,
    publics: &PublicTable,
    procedure: Procedure,
) -> Result<(), AllocError>
    ensures { OnOk result (text.new.items ≡ text.old.items ++ procedure_line image.now publics.now procedure) }
{
    let (word, address) = match procedure {
        Procedure::Main => (b"MAIN ".as_slice(), image.start),
        Procedure::Entry(entry) => (b"PROC ".as_slice(), entry),
    };
    append_address(text, word, address)?;
    text.extend_from_slice(b" BOUND ?".as_slice())?;
    append_end(alloc, text, image, publics, address)
}

/// Appends the line of the call at a point, if its instruction calls, and that of its refusal, if it is refused.
fn append_point(
    alloc: Global,
    text: &mut Vec<u8>,
    image: &Image,
    code: &ImageCode<'_>,
    publics: &PublicTable,
    point: ReachedPoint,
) -> Result<(), AllocError>
    requires { code.now ≡ image.now }
    ensures { OnOk result (text.new.items ≡ text.old.items ++ point_lines image.now publics.now point) }
{
    append_call(
        alloc,
        text,
        image,
        publics,
        point.standing,
        called_at(code, point.standing.at),
    )?;
    append_refused(alloc, text, image, publics, point.standing, point.refusal)
}

/// The address that the instruction at an address calls; `None` if it is no call.
pub(crate) fn called_at(code: &ImageCode<'_>, at: u16) -> Option<u16>
    ensures { result ≡ called_in (code_of code.now) at }
{
    let found = code.look(at).ok()?;
    match effect_of(found.instr) {
        Effect::Call(to) | Effect::CallIf(to) => Some(to),
        _ => None,
    }
}

/// Appends the line of a call, with the name of its target; nothing if there is no target.
fn append_call(
    alloc: Global,
    text: &mut Vec<u8>,
    image: &Image,
    publics: &PublicTable,
    standing: Standing,
    target: Option<u16>,
) -> Result<(), AllocError>
    ensures { OnOk result (text.new.items ≡ text.old.items ++ call_lines image.now publics.now standing target) }
{
    let Some(target) = target else {
        return Ok(());
    };
    append_standing(alloc, text, standing)?;
    append_target(alloc, text, image, publics, target)
}

/// Appends what is called, and that it isn't known what this needs.
fn append_target(
    alloc: Global,
    text: &mut Vec<u8>,
    image: &Image,
    publics: &PublicTable,
    target: u16,
) -> Result<(), AllocError>
    ensures { OnOk result (text.new.items ≡ text.old.items ++ target_text image.now publics.now target) }
{
    append_address(text, b" CALLS ".as_slice(), target)?;
    text.extend_from_slice(b" NEEDS ?".as_slice())?;
    append_end(alloc, text, image, publics, target)?;
    Ok(())
}

/// Appends the line of a refusal, with the name of its address; nothing if there is none.
fn append_refused(
    alloc: Global,
    text: &mut Vec<u8>,
    image: &Image,
    publics: &PublicTable,
    standing: Standing,
    refusal: Option<Refusal>,
) -> Result<(), AllocError>
    ensures { OnOk result (text.new.items ≡ text.old.items ++ refused_lines image.now publics.now standing refusal) }
{
    let Some(refusal) = refusal else {
        return Ok(());
    };
    append_standing(alloc, text, standing)?;
    append_refusal(alloc, text, refusal)?;
    append_end(alloc, text, image, publics, standing.at)
}

/// Appends an address, and how many bytes the procedure has on the stack there.
fn append_standing(alloc: Global, text: &mut Vec<u8>, standing: Standing) -> Result<(), AllocError>
    ensures { OnOk result (text.new.items ≡ text.old.items ++ standing_text standing) }
{
    append_address(text, b"  AT ".as_slice(), standing.at)?;
    let depth = standing.depth;
    let shown = format!(in alloc; " DEPTH {depth}")?;
    text.extend_from_slice(shown.as_bytes())
}

/// Appends the number and the name of a refusal.
pub(crate) fn append_refusal(
    alloc: Global,
    text: &mut Vec<u8>,
    refusal: Refusal,
) -> Result<(), AllocError>
    ensures { OnOk result (text.new.items ≡ text.old.items ++ refusal_text refusal) }
{
    let code = refusal.code();
    let name = refusal.name();
    let shown = format!(in alloc; " REFUSED {code} {name}")?;
    text.extend_from_slice(shown.as_bytes())
}
