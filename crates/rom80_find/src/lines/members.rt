//! The lines about a library's modules in a dump.

ghost use Rattle.std.specs.Prelude.{◌≡◌, ◌++◌, IfOk, OnOk};
ghost use Rattle.rom80_find.specs.Dump.{dump_of};
ghost use Rattle.rom80_find.specs.Found.{PrintsMembers};
ghost use Rattle.rom80_find.specs.Lines.{count_line};
ghost use Rattle.rom80_find.specs.Prints.{PrintsFound};

use crate::dump::Dump;
use crate::indexed_dump::IndexedDump;
use crate::lines::finding::append_module_places;
use omf_model::Module;
use std::alloc::{AllocError, Global};

/// Appends the lines of a library's modules that are found in a dump, as [`append_modules`](crate::lines::append_modules) does, and then
/// how many have no place, short ones among them, as `MISSING 3 OF 4`, in decimal.
///
/// # Errors
/// `AllocError` only if memory runs out; the text may then have some of the lines.
pub fn append_members(
    alloc: Global,
    dump: Dump<'_>,
    members: &[Module],
    text: &mut Vec<u8>,
) -> Result<(), AllocError>
    ensures { OnOk result (PrintsMembers (dump_of dump.entry) members.now text.old.items text.new.items) }
{
    let dump = IndexedDump::of(alloc, dump)?;
    let missing = append_found_members(alloc, &dump, members, text)?;
    append_missing_count(alloc, text, missing, members.len())
}

/// Appends the lines of a library's modules that are found in a dump, and returns how many aren't, short ones among them.
fn append_found_members(
    alloc: Global,
    dump: &IndexedDump<'_>,
    members: &[Module],
    text: &mut Vec<u8>,
) -> Result<usize, AllocError>
    ensures { IfOk result (λ missing. PrintsFound dump.now members.now missing text.old.items text.new.items) }
{
    let mut missing = 0;
    for source in members {
        let finding = append_module_places(alloc, dump, source, text)?;
        if !finding.has_place() {
            missing += 1;
        }
    }
    Ok(missing)
}

/// Appends the line that says how many modules of a library are missing, as `MISSING 3 OF 4`.
fn append_missing_count(
    alloc: Global,
    text: &mut Vec<u8>,
    missing: usize,
    all: usize,
) -> Result<(), AllocError>
    ensures { OnOk result (text.new.items ≡ text.old.items ++ count_line missing all) }
{
    let line = format!(in alloc; "MISSING {missing} OF {all}\n")?;
    text.extend_from_slice(line.as_bytes())
}
