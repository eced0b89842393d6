//! The text of what shows a refusal.

ghost use Rattle.std.specs.Prelude.{◌≡◌, ◌++◌, IfOk, OnOk};
ghost use Rattle.verify80_explain_text.specs.Explained.{explanation_text, first_heading, route_text, second_heading};

use crate::calls::append_calls;
use crate::way::append_way;
use image80::Image;
use image80_text::PublicTable;
use std::alloc::{AllocError, Global};
use verify80::ImageCode;
use verify80_explain::Explanation;
use verify80_flow::Refusal;
use verify80_walks::Route;

/// The text of what shows a refusal: the calls and the ways, line by line.
///
/// A way has a line for each instruction, as a listing has it, and after a bar what is known of the stack before it, as
/// `3007 C1     POP B      | RET .. DE=RET TAKEN 1`: the words from bottom to top, the pairs that hold the return address, and how
/// many words were taken from beneath it. An instruction is shown if each of its bytes is code, of whichever ranges; otherwise its
/// text is `??`. Of more than 40 in a row that leave the frame as it is only the first and the last 20 are shown. A public at the
/// address of an instruction stands on a line above it, and the name of a call's target at the end of the call's line.
///
/// # Errors
/// `AllocError` only if memory runs out.
pub fn explanation_text(
    alloc: Global,
    image: &Image,
    publics: &PublicTable,
    refusal: Refusal,
    explanation: &Explanation,
) -> Result<Vec<u8>, AllocError>
    ensures { IfOk result (λ text. text.items ≡ explanation_text image.now publics.now refusal explanation.now) }
{
    let code = ImageCode::new(alloc, image)?;
    let mut text = Vec::new(alloc);
    match explanation {
        Explanation::Way(route) => {
            append_route(alloc, &mut text, image, &code, publics, route)?;
        }
        Explanation::Ways(one, other) => {
            text.extend_from_slice(first_heading(refusal))?;
            append_route(alloc, &mut text, image, &code, publics, one)?;
            text.extend_from_slice(second_heading(refusal))?;
            append_route(alloc, &mut text, image, &code, publics, other)?;
        }
        Explanation::Ring { calls, ring } => {
            append_calls(alloc, &mut text, image, publics, calls)?;
            text.extend_from_slice(b"RING\n".as_slice())?;
            append_calls(alloc, &mut text, image, publics, ring)?;
        }
    }
    Ok(text)
}

/// The line over the first of two ways: `CALLER` for `ShortArguments`, else `ONE WAY`.
fn first_heading(refusal: Refusal) -> &'static [u8]
    ensures { result.now ≡ first_heading refusal }
{
    match refusal {
        Refusal::ShortArguments(_) => b"CALLER\n".as_slice(),
        _ => b"ONE WAY\n".as_slice(),
    }
}

/// The line over the second of two ways: `CALLEE` for `ShortArguments`, else `ANOTHER`.
fn second_heading(refusal: Refusal) -> &'static [u8]
    ensures { result.now ≡ second_heading refusal }
{
    match refusal {
        Refusal::ShortArguments(_) => b"CALLEE\n".as_slice(),
        _ => b"ANOTHER\n".as_slice(),
    }
}

/// Appends the calls that lead to a procedure, and the way through it. `code` must be that of
/// `image`.
fn append_route(
    alloc: Global,
    text: &mut Vec<u8>,
    image: &Image,
    code: &ImageCode<'_>,
    publics: &PublicTable,
    route: &Route,
) -> Result<(), AllocError>
    requires { code.now ≡ image.now }
    ensures { OnOk result (text.new.items ≡ text.old.items ++ route_text image.now publics.now route.now) }
{
    append_calls(alloc, text, image, publics, &route.calls)?;
    append_way(alloc, text, code, publics, &route.way)
}
