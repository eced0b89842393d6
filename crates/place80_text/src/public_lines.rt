//! The lines of public names.

ghost use Rattle.std.specs.Prelude.{◌≡◌, ◌++◌, map, OnOk, IfOk};
ghost use Rattle.std.specs.List.{flat_map};
ghost use Rattle.place80_text.specs.Map.{IsByAddress, PrintsPublics, public_line};

use omf_model::Public;
use place80::{Placed, place_of};
use std::alloc::{AllocError, Global};
use text80::word_digits;

/// Appends a line for each public, sorted by address; those at one address stay in their order.
pub(crate) fn append_publics(
    alloc: Global,
    text: &mut Vec<u8>,
    publics: &[Public],
    segments: &[Placed],
) -> Result<(), AllocError>
    ensures { OnOk result (PrintsPublics segments.now publics.now text.old.items text.new.items) }
{
    let listed = by_address(alloc, publics, segments)?;
    append_lines(text, &listed, segments)
}

/// References to the publics, sorted by address; those at one address stay in their order.
fn by_address<'a>(
    alloc: Global,
    publics: &'a [Public],
    segments: &[Placed],
) -> Result<Vec<&'a Public>, AllocError>
    ensures { IfOk result (λ listed. IsByAddress segments.now publics.now (map (λ p. p.now) listed.items)) }
{
    let mut listed = references_to(alloc, publics)?;
    listed.sort_by_key(|public| place_of(segments, public.segment, public.offset))?;
    Ok(listed)
}

/// A reference to each of the publics, in their order.
fn references_to<'a>(alloc: Global, publics: &'a [Public]) -> Result<Vec<&'a Public>, AllocError>
    ensures { IfOk result (λ listed. map (λ p. p.now) listed.items ≡ publics.now) }
{
    let mut listed = Vec::new(alloc);
    for public in publics {
        listed.push(public)?;
    }
    Ok(listed)
}

/// Appends a line for each of the publics, in the order of the list.
fn append_lines(
    text: &mut Vec<u8>,
    listed: &[&Public],
    segments: &[Placed],
) -> Result<(), AllocError>
    ensures { OnOk result (text.new.items ≡ text.old.items ++ flat_map (public_line segments.now) (map (λ p. p.now) listed.now)) }
{
    for public in listed {
        append_line(text, public, segments)?;
    }
    Ok(())
}

/// Appends the line of a public: its address and its name, as `3040 LIMIT`.
fn append_line(text: &mut Vec<u8>, public: &Public, segments: &[Placed]) -> Result<(), AllocError>
    ensures { OnOk result (text.new.items ≡ text.old.items ++ public_line segments.now public.now) }
{
    text.extend_from_slice(&word_digits(place_of(segments, public.segment, public.offset)))?;
    text.push(b' ')?;
    text.extend_from_slice(public.name.bytes())?;
    text.push(b'\n')?;
    Ok(())
}
