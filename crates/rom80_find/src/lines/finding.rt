//! Whether a module is found in a dump, with the lines of its places.

ghost use Rattle.std.specs.Prelude.{◌≡◌, IfOk, length, filter};
ghost use Rattle.rom80_pattern.specs.CodeBytes.{is_plain};
ghost use Rattle.rom80_find.specs.Found.{has_place, is_short};
ghost use Rattle.rom80_find.specs.Prints.{FindsModule};

use crate::found::ModulePattern;
use crate::indexed_dump::IndexedDump;
use crate::lines::places::append_places;
use omf_model::Module;
use rom80_pattern::CodeByte;
use std::alloc::{AllocError, Global};

/// What comes of looking for a module in a dump.
#[derive(Clone, Copy)]
pub(crate) enum Finding {
    /// The module has too few bytes outside fixups to be looked for.
    Short,
    /// The module lies nowhere in the dump.
    Missing,
    /// The module lies at one place in the dump, or at several.
    There,
}

impl Finding {
    /// Whether the module lies somewhere in the dump.
    pub(crate) fn has_place(self) -> bool
        ensures { result ≡ has_place self }
    {
        match self {
            Finding::Short | Finding::Missing => false,
            Finding::There => true,
        }
    }
}

/// The fewest bytes outside fixups of a module that is looked for. With fewer it would be found by chance.
const FEWEST: usize = 4;

/// Looks for a module in a dump, appends the lines of its places, and returns what came of it. Nothing is appended for a module that is
/// missing or short.
pub(crate) fn append_module_places(
    alloc: Global,
    dump: &IndexedDump<'_>,
    source: &Module,
    text: &mut Vec<u8>,
) -> Result<Finding, AllocError>
    ensures { IfOk result (λ finding. FindsModule dump.now source.now finding text.old.items text.new.items) }
{
    let pattern = ModulePattern::of(alloc, source)?;
    if is_short(&pattern) {
        return Ok(Finding::Short);
    }
    let places = pattern.places(alloc, dump)?;
    if places.count == 0 {
        return Ok(Finding::Missing);
    }
    append_places(alloc, dump.dump(), &pattern, &places, text)?;
    Ok(Finding::There)
}

/// Whether a module has too few bytes outside fixups to be looked for.
fn is_short(pattern: &ModulePattern<'_>) -> bool
    ensures { result ≡ is_short pattern.now }
{
    count_plain_bytes(pattern.code()) < FEWEST
}

/// Counts the bytes of a module's code that are outside fixups.
fn count_plain_bytes(code: &[CodeByte]) -> usize
    ensures { result ≡ length (filter is_plain code.now) }
{
    code.iter().filter(|byte| byte.is_plain()).count()
}
