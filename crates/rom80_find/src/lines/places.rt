//! The lines of the places at which a module lies in a dump.

ghost use Rattle.std.specs.Prelude.{◌≡◌, ℕ, ◌++◌, List, OnOk};
ghost use Rattle.std.specs.List.{AllByRecursion};
ghost use Rattle.rom80_find.specs.Dump.{dump_of};
ghost use Rattle.rom80_find.specs.Lies.{HasModule};
ghost use Rattle.rom80_find.specs.Lines.{more_line};
ghost use Rattle.rom80_find.specs.Listed.{Shows};
ghost use Rattle.rom80_find.specs.Prints.{PrintsEach, PrintsPlace, PrintsPlaces};

use crate::dump::Dump;
use crate::found::ModulePattern;
use crate::lines::place::append_place_lines;
use crate::places::{Places, SHOWN};
use std::alloc::{AllocError, Global};

/// Appends the lines of a module at the first sixteen of its places in a dump, and how many places there are beyond these.
pub(crate) fn append_places(
    alloc: Global,
    dump: Dump<'_>,
    pattern: &ModulePattern<'_>,
    places: &Places,
    text: &mut Vec<u8>,
) -> Result<(), AllocError>
    requires { AllByRecursion (HasModule (dump_of dump) pattern.now) places.now.first.items }
    ensures { OnOk result ((all : List ℕ) → Shows places.now all → PrintsPlaces (dump_of dump.entry) pattern.now all text.old.items text.new.items) }
{
    append_each_place(alloc, dump, pattern, &places.first, text)?;
    append_more_count(alloc, text, places.count)?;
    Ok(())
}

/// Appends the lines of a module at each of these places in a dump.
fn append_each_place(
    alloc: Global,
    dump: Dump<'_>,
    pattern: &ModulePattern<'_>,
    places: &[u16],
    text: &mut Vec<u8>,
) -> Result<(), AllocError>
    requires { AllByRecursion (HasModule (dump_of dump) pattern.now) places.now }
    ensures { OnOk result (PrintsEach (dump_of dump.entry) pattern.now places.now text.old.items text.new.items) }
{
    for address in places {
        append_place_at(alloc, dump, pattern, *address, text)?;
    }
    Ok(())
}

/// Appends the lines of a module at one address of a dump, at which it lies.
fn append_place_at(
    alloc: Global,
    dump: Dump<'_>,
    pattern: &ModulePattern<'_>,
    address: u16,
    text: &mut Vec<u8>,
) -> Result<(), AllocError>
    requires { HasModule (dump_of dump) pattern.now address }
    ensures { OnOk result (PrintsPlace (dump_of dump.entry) pattern.now address text.old.items text.new.items) }
{
    match pattern.words_at(alloc, dump, address)? {
        Some(words) => append_place_lines(text, pattern.source(), address, &words),
        None => unreachable!(),
    }
}

/// Appends the number of places beyond sixteen, as `MORE 3`, if `count` places are more than that.
fn append_more_count(alloc: Global, text: &mut Vec<u8>, count: usize) -> Result<(), AllocError>
    ensures { OnOk result (text.new.items ≡ text.old.items ++ more_line count) }
{
    if count <= SHOWN {
        return Ok(());
    }
    let more = count - SHOWN;
    let line = format!(in alloc; "MORE {more}\n")?;
    text.extend_from_slice(line.as_bytes())
}
