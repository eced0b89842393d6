//! Conditions, a line each.

ghost use Rattle.std.specs.Prelude.{◌≡◌, ◌++◌, OnOk, codes};
ghost use Rattle.std.specs.List.{flat_map};
ghost use Rattle.verify80_explain_text.specs.Conditions.{begins_line, condition_line, conditions_text, reach_conditions};

use crate::calls::{append_address, append_end};
use image80::Image;
use image80_text::PublicTable;
use std::alloc::{AllocError, Global};
use verify80_explain::{Conditions, Reach};

/// Appends the conditions, a line each: where the program begins anew, which instructions are passed over, and which procedures return,
/// as `IF 0057 RETURNS`. Behind an address comes its name, if the publics have one.
///
/// # Errors
/// `AllocError` only if memory runs out; then part of the lines may have been appended.
pub fn append_conditions(
    alloc: Global,
    text: &mut Vec<u8>,
    image: &Image,
    publics: &PublicTable,
    conditions: &Conditions,
) -> Result<(), AllocError>
    ensures { OnOk result (text.new.items ≡ text.old.items ++ conditions_text image.now publics.now conditions.now) }
{
    append_begins(alloc, text, image, publics, conditions.begins)?;
    append_passed(alloc, text, image, publics, &conditions.passed)?;
    append_returning(alloc, text, image, publics, &conditions.returning)
}

/// Appends that the program begins anew at an address, if there is one.
fn append_begins(
    alloc: Global,
    text: &mut Vec<u8>,
    image: &Image,
    publics: &PublicTable,
    begins: Option<u16>,
) -> Result<(), AllocError>
    ensures { OnOk result (text.new.items ≡ text.old.items ++ begins_line image.now publics.now begins) }
{
    match begins {
        Some(at) => append_condition(alloc, text, image, publics, at, b" BEGINS ANEW".as_slice()),
        None => Ok(()),
    }
}

/// Appends that the instructions at these addresses are passed over.
fn append_passed(
    alloc: Global,
    text: &mut Vec<u8>,
    image: &Image,
    publics: &PublicTable,
    passed: &[u16],
) -> Result<(), AllocError>
    ensures { OnOk result (text.new.items ≡ text.old.items ++ flat_map (condition_line image.now publics.now (codes " IS PASSED OVER")) passed.now) }
{
    for at in passed {
        append_passed_over(alloc, text, image, publics, *at)?;
    }
    Ok(())
}

/// Appends that the instruction at an address is passed over.
fn append_passed_over(
    alloc: Global,
    text: &mut Vec<u8>,
    image: &Image,
    publics: &PublicTable,
    at: u16,
) -> Result<(), AllocError>
    ensures { OnOk result (text.new.items ≡ text.old.items ++ condition_line image.now publics.now (codes " IS PASSED OVER") at) }
{
    append_condition(
        alloc,
        text,
        image,
        publics,
        at,
        b" IS PASSED OVER".as_slice(),
    )
}

/// Appends that the procedures with these entries return.
fn append_returning(
    alloc: Global,
    text: &mut Vec<u8>,
    image: &Image,
    publics: &PublicTable,
    returning: &[u16],
) -> Result<(), AllocError>
    ensures { OnOk result (text.new.items ≡ text.old.items ++ flat_map (condition_line image.now publics.now (codes " RETURNS")) returning.now) }
{
    for entry in returning {
        append_returns(alloc, text, image, publics, *entry)?;
    }
    Ok(())
}

/// Appends that the procedure with this entry returns.
fn append_returns(
    alloc: Global,
    text: &mut Vec<u8>,
    image: &Image,
    publics: &PublicTable,
    entry: u16,
) -> Result<(), AllocError>
    ensures { OnOk result (text.new.items ≡ text.old.items ++ condition_line image.now publics.now (codes " RETURNS") entry) }
{
    append_condition(alloc, text, image, publics, entry, b" RETURNS".as_slice())
}

/// Appends the line that this holds of an address, with the name of the address.
fn append_condition(
    alloc: Global,
    text: &mut Vec<u8>,
    image: &Image,
    publics: &PublicTable,
    at: u16,
    holds: &[u8],
) -> Result<(), AllocError>
    ensures { OnOk result (text.new.items ≡ text.old.items ++ condition_line image.now publics.now holds.now at) }
{
    append_address(text, b"IF ".as_slice(), at)?;
    text.extend_from_slice(holds)?;
    append_end(alloc, text, image, publics, at)
}

/// Appends the conditions on which walks reach what they do: where the program begins anew, which instructions are passed over, and which
/// procedures return, a line each, as [`append_conditions`].
///
/// # Errors
/// `AllocError` only if memory runs out; then part of the lines may have been appended.
pub fn append_reach_conditions(
    alloc: Global,
    text: &mut Vec<u8>,
    image: &Image,
    publics: &PublicTable,
    reach: &Reach,
) -> Result<(), AllocError>
    ensures { OnOk result (text.new.items ≡ text.old.items ++ reach_conditions image.now publics.now reach.now) }
{
    append_all_begins(alloc, text, image, publics, &reach.begins)?;
    append_passed(alloc, text, image, publics, &reach.conditions.passed)?;
    append_returning(alloc, text, image, publics, &reach.conditions.returning)
}

/// Appends that the program begins anew at each of these addresses.
fn append_all_begins(
    alloc: Global,
    text: &mut Vec<u8>,
    image: &Image,
    publics: &PublicTable,
    begins: &[Option<u16>],
) -> Result<(), AllocError>
    ensures { OnOk result (text.new.items ≡ text.old.items ++ flat_map (begins_line image.now publics.now) begins.now) }
{
    for begin in begins {
        append_begins(alloc, text, image, publics, *begin)?;
    }
    Ok(())
}
