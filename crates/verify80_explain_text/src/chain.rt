//! The text of a chain of calls.

ghost use Rattle.std.specs.Prelude.{◌≡◌, ◌++◌, IfOk, OnOk};
ghost use Rattle.std.specs.List.{flat_map};
ghost use Rattle.verify80_explain_text.specs.Explained.{callee_text, chain_text, depth_text, site_line, standing_line};

use crate::calls::{append_address, append_end, append_procedure};
use image80::Image;
use image80_text::PublicTable;
use std::alloc::{AllocError, Global};
use verify80_bounds::CallSite;
use verify80_explain::{Chain, Standing};
use verify80_flow::Procedure;

/// The text of a chain: a line for each call, and one for where its last procedure stands, as `MAIN
/// 3000 AT 3002 HAS 4, CALLS 3006`. After a call comes the name of its target, and at the end of
/// the last line that of its address, if the publics have one.
///
/// # Errors
/// `AllocError` only if memory runs out.
pub fn chain_text(
    alloc: Global,
    image: &Image,
    publics: &PublicTable,
    chain: &Chain,
) -> Result<Vec<u8>, AllocError>
    ensures { IfOk result (λ text. text.items ≡ chain_text image.now publics.now chain.now) }
{
    let mut text = Vec::new(alloc);
    append_sites(alloc, &mut text, image, publics, &chain.calls)?;
    append_standing(alloc, &mut text, image, publics, chain.last)?;
    Ok(text)
}

/// Appends a line for each call of a chain.
fn append_sites(
    alloc: Global,
    text: &mut Vec<u8>,
    image: &Image,
    publics: &PublicTable,
    calls: &[CallSite],
) -> Result<(), AllocError>
    ensures { OnOk result (text.new.items ≡ text.old.items ++ flat_map (site_line image.now publics.now) calls.now) }
{
    for call in calls {
        append_site(alloc, text, image, publics, *call)?;
    }
    Ok(())
}

/// Appends the line of a call of a chain: its caller, address and depth, and its target with its
/// name.
fn append_site(
    alloc: Global,
    text: &mut Vec<u8>,
    image: &Image,
    publics: &PublicTable,
    call: CallSite,
) -> Result<(), AllocError>
    ensures { OnOk result (text.new.items ≡ text.old.items ++ site_line image.now publics.now call) }
{
    append_depth(alloc, text, image.start, call.caller, call.at, call.depth)?;
    append_callee(alloc, text, image, publics, call.target)
}

/// Appends the target of a call, with its name, and ends the line.
fn append_callee(
    alloc: Global,
    text: &mut Vec<u8>,
    image: &Image,
    publics: &PublicTable,
    target: u16,
) -> Result<(), AllocError>
    ensures { OnOk result (text.new.items ≡ text.old.items ++ callee_text image.now publics.now target) }
{
    append_address(text, b", CALLS ".as_slice(), target)?;
    append_end(alloc, text, image, publics, target)?;
    Ok(())
}

/// Appends the line of where the last procedure of a chain stands, with the name of the address.
fn append_standing(
    alloc: Global,
    text: &mut Vec<u8>,
    image: &Image,
    publics: &PublicTable,
    last: Standing,
) -> Result<(), AllocError>
    ensures { OnOk result (text.new.items ≡ text.old.items ++ standing_line image.now publics.now last) }
{
    append_depth(
        alloc,
        text,
        image.start,
        last.procedure,
        last.at,
        last.depth,
    )?;
    append_end(alloc, text, image, publics, last.at)
}

/// Appends a procedure, an address, and how many bytes the procedure has on the stack there, as
/// `3006 AT 3007 HAS 2`.
fn append_depth(
    alloc: Global,
    text: &mut Vec<u8>,
    start: u16,
    procedure: Procedure,
    at: u16,
    depth: i64,
) -> Result<(), AllocError>
    ensures { OnOk result (text.new.items ≡ text.old.items ++ depth_text start procedure at depth) }
{
    append_procedure(text, start, procedure)?;
    append_address(text, b" AT ".as_slice(), at)?;
    let has = format!(in alloc; " HAS {depth}")?;
    text.extend_from_slice(has.as_bytes())
}
