//! Named commons: no id and no name of them stands twice in a module.

ghost use Rattle.std.specs.Prelude.{◌≡◌, ◌≢◌, ◌++◌, Ok, Err, IfOk, IfErr, OnOk, IsTrue};
ghost use Rattle.omf_core.specs.Name.{is_name};
ghost use Rattle.omf_body.specs.Entries.{common_bytes};
ghost use Rattle.omf_model.specs.Rules.{is_new_common};
ghost use Rattle.omf_module.specs.Spelled.{read_new_common};
ghost use Rattle.omf_module.specs.Reading.{common_of, TakesCommons, RefusesCommons};

use crate::fault::Cause;
use omf_body::{CommonEntry, Cursor, FieldFault, NameBytes};
use omf_core::segment_id::{FIRST_COMMON, LAST_COMMON};
use omf_core::{Name, NameFault};
use omf_model::{Common, has_common_id, has_common_name};
use std::alloc::{AllocError, Global};

/// A copy of a name that lies in a file. `Err` only if memory runs out.
pub(crate) fn keep_name(alloc: Global, name: &NameBytes) -> Result<Name, AllocError>
    ensures { IfOk result (λ kept. kept ≡ name.now) }
{
    match Name::new(alloc, name.bytes()) {
        Ok(name) => Ok(name),
        Err(NameFault::BadName) => unreachable!(),
        Err(NameFault::Memory) => Err(AllocError),
    }
}

/// Reads an entry of a named commons record (2E). `BadBody` if the body ends inside it, its id is
/// outside 6 to 254, or a common in `before` has its id or its name; `BadName` if the name has no
/// bytes, or one outside 21h to 7Eh. The id is checked first.
fn new_common<'a>(cursor: &mut Cursor<'a>, before: &[Common]) -> Result<CommonEntry<'a>, FieldFault>
    ensures read { IfOk result (λ common. read_new_common before.now cursor.old ≡ Ok (common_of common, cursor.new)) }
    ensures spelled { IfOk result (λ common. cursor.old ≡ common_bytes common ++ cursor.new) }
    ensures named { IfOk result (λ common. IsTrue (is_name common.name)) }
    ensures new { IfOk result (λ common. IsTrue (is_new_common before.now (common_of common))) }
    ensures fault { IfErr result (λ fault. read_new_common before.now cursor.old ≡ Err fault) }
{
    let id = cursor.byte()?;
    if !(FIRST_COMMON <= id && id <= LAST_COMMON) || has_common_id(before, id) {
        return Err(FieldFault::BadBody);
    }
    let name = cursor.name()?;
    if has_common_name(before, name.bytes()) {
        return Err(FieldFault::BadBody);
    }
    Ok(CommonEntry { id, name })
}

/// Appends the commons of a named commons record (2E) with this body to `commons`. The fault is
/// that of the first entry that can't be read, or whose id or name a common before it has, or
/// `Memory`; the entries before that are then appended.
pub(crate) fn take_commons(
    alloc: Global,
    body: &[u8],
    commons: &mut Vec<Common>,
) -> Result<(), Cause>
    ensures taken { OnOk result (TakesCommons commons.old.items body.now commons.new.items) }
    ensures fault { IfErr result (λ why. why ≢ Cause.Memory → RefusesCommons commons.old.items body.now why) }
{
    let mut cursor = Cursor::new(body);
    while !cursor.is_empty() {
        let common = match new_common(&mut cursor, commons.as_slice()) {
            Ok(common) => common,
            Err(fault) => return Err(Cause::of_commons(fault)),
        };
        commons.push(Common {
            id: common.id,
            name: keep_name(alloc, &common.name)?,
        })?;
    }
    Ok(())
}
