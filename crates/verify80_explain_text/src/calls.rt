//! Calls, a line each.

ghost use Rattle.std.specs.Prelude.{◌≡◌, ◌++◌, OnOk};
ghost use Rattle.std.specs.List.{flat_map};
ghost use Rattle.verify80_explain_text.specs.Explained.{call_line, call_text, end_text, procedure_text, with_address};

use image80::Image;
use image80_text::{PublicTable, append_name};
use std::alloc::{AllocError, Global};
use text80::word_digits;
use verify80_flow::Procedure;
use verify80_walks::Call;

/// Appends a line for each call, with the name of its target.
pub(crate) fn append_calls(
    alloc: Global,
    text: &mut Vec<u8>,
    image: &Image,
    publics: &PublicTable,
    calls: &[Call],
) -> Result<(), AllocError>
    ensures { OnOk result (text.new.items ≡ text.old.items ++ flat_map (call_line image.now publics.now) calls.now) }
{
    for call in calls {
        append_call(alloc, text, image, publics, *call)?;
    }
    Ok(())
}

/// Appends the line of a call, as `MAIN 3000 CALLS 3006 AT 3002`, with the name of its target.
fn append_call(
    alloc: Global,
    text: &mut Vec<u8>,
    image: &Image,
    publics: &PublicTable,
    call: Call,
) -> Result<(), AllocError>
    ensures { OnOk result (text.new.items ≡ text.old.items ++ call_line image.now publics.now call) }
{
    append_call_text(text, image.start, call)?;
    append_end(alloc, text, image, publics, call.target)
}

/// Appends the caller of a call, its target, and its address: the line of the call without the
/// name.
fn append_call_text(text: &mut Vec<u8>, start: u16, call: Call) -> Result<(), AllocError>
    ensures { OnOk result (text.new.items ≡ text.old.items ++ call_text start call) }
{
    append_procedure(text, start, call.caller)?;
    append_address(text, b" CALLS ".as_slice(), call.target)?;
    append_address(text, b" AT ".as_slice(), call.at)
}

/// Appends how a procedure is named in lines: its entry, or for the main program `MAIN` and the
/// start.
pub(crate) fn append_procedure(
    text: &mut Vec<u8>,
    start: u16,
    procedure: Procedure,
) -> Result<(), AllocError>
    ensures { OnOk result (text.new.items ≡ text.old.items ++ procedure_text start procedure) }
{
    match procedure {
        Procedure::Main => append_address(text, b"MAIN ".as_slice(), start),
        Procedure::Entry(entry) => text.extend_from_slice(&word_digits(entry)),
    }
}

/// Appends `word` and an address as four digits.
pub(crate) fn append_address(
    text: &mut Vec<u8>,
    word: &[u8],
    address: u16,
) -> Result<(), AllocError>
    ensures { OnOk result (text.new.items ≡ text.old.items ++ with_address word.now address) }
{
    text.extend_from_slice(word)?;
    text.extend_from_slice(&word_digits(address))
}

/// Appends the name of an address, if the publics have one, and ends the line.
pub(crate) fn append_end(
    alloc: Global,
    text: &mut Vec<u8>,
    image: &Image,
    publics: &PublicTable,
    address: u16,
) -> Result<(), AllocError>
    ensures { OnOk result (text.new.items ≡ text.old.items ++ end_text image.now publics.now address) }
{
    append_name(alloc, publics, image.regions.code(), address, text)?;
    text.push(b'\n')?;
    Ok(())
}
