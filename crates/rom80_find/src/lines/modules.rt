//! The lines about an object file's modules in a dump.

ghost use Rattle.std.specs.Prelude.{◌≡◌, ◌++◌, IfOk, OnOk};
ghost use Rattle.rom80_find.specs.Dump.{dump_of};
ghost use Rattle.rom80_find.specs.Found.{PrintsModules};
ghost use Rattle.rom80_find.specs.Lines.{missing_line, short_line};
ghost use Rattle.rom80_find.specs.Prints.{PrintsModule};

use crate::dump::Dump;
use crate::indexed_dump::IndexedDump;
use crate::lines::finding::{Finding, append_module_places};
use omf_core::Name;
use omf_model::Module;
use std::alloc::{AllocError, Global};

/// Appends the lines about an object file's modules in a dump, and answers whether none is missing. For each place at which the dump has
/// all bytes of a module's code there is a line such as `MODULE 0040 0064 METER DATA 2000 COMMON 3100 TABLE TOP 2100`: its address, the
/// length of CODE, the name, and the bases of segments, of STACK the address after it, each if it can have only one; and below it the
/// names that the module needs, as `  00A4 GETKEY`. After sixteen places `MORE 3` has the number of the others, in decimal. A module that
/// has none is `MISSING METER`. One with fewer than four bytes outside fixups is `SHORT METER`: it isn't looked for, and isn't missing.
///
/// # Errors
/// `AllocError` only if memory runs out; the text may then have some of the lines.
pub fn append_modules(
    alloc: Global,
    dump: Dump<'_>,
    modules: &[Module],
    text: &mut Vec<u8>,
) -> Result<bool, AllocError>
    ensures { IfOk result (λ are_there. PrintsModules (dump_of dump.entry) modules.now are_there text.old.items text.new.items) }
{
    let dump = IndexedDump::of(alloc, dump)?;
    let mut are_there = true;
    for source in modules {
        if append_module(alloc, &dump, source, text)? {
            are_there = false;
        }
    }
    Ok(are_there)
}

/// Appends the lines about one module in a dump, and answers whether it is missing.
fn append_module(
    alloc: Global,
    dump: &IndexedDump<'_>,
    source: &Module,
    text: &mut Vec<u8>,
) -> Result<bool, AllocError>
    ensures { IfOk result (λ missing. PrintsModule dump.now source.now missing text.old.items text.new.items) }
{
    match append_module_places(alloc, dump, source, text)? {
        Finding::There => Ok(false),
        Finding::Short => {
            append_short(text, source.name())?;
            Ok(false)
        }
        Finding::Missing => {
            append_missing(text, source.name())?;
            Ok(true)
        }
    }
}

/// Appends the line of a module that is too short to be looked for, as `SHORT METER`.
fn append_short(text: &mut Vec<u8>, name: &Name) -> Result<(), AllocError>
    ensures { OnOk result (text.new.items ≡ text.old.items ++ short_line name.now) }
{
    text.extend_from_slice(b"SHORT ".as_slice())?;
    text.extend_from_slice(name.bytes())?;
    text.push(b'\n')?;
    Ok(())
}

/// Appends the line of a module that lies nowhere in a dump, as `MISSING METER`.
fn append_missing(text: &mut Vec<u8>, name: &Name) -> Result<(), AllocError>
    ensures { OnOk result (text.new.items ≡ text.old.items ++ missing_line name.now) }
{
    text.extend_from_slice(b"MISSING ".as_slice())?;
    text.extend_from_slice(name.bytes())?;
    text.push(b'\n')?;
    Ok(())
}
