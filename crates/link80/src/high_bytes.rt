//! High bytes of references to parts that don't start at a multiple of 256.

ghost use Rattle.std.specs.Prelude.{◌≡◌, ◌<◌, length};
ghost use Rattle.std.specs.List.{list_any};
ghost use Rattle.link80.specs.LinkFault.{is_high_off_page, has_high_off_page, any_high_off_page};

use crate::starts::LaidModules;
use omf_model::{Content, Field, Fixup, Target};

/// Whether a fixup in the modules is for the high byte of an address in a segment in which its
/// module's part doesn't start at a multiple of 256.
pub(crate) fn any_high_off_page(modules: &LaidModules) -> bool
    ensures { result ≡ any_high_off_page modules.now }
{
    for number in 0..modules.len() {
        if has_high_off_page(modules, number, modules.get(number).contents()) {
            return true;
        }
    }
    false
}

/// Whether a fixup in these contents of the module with index `number` is for the high byte of an
/// address in a segment in which the module's part doesn't start at a multiple of 256. `number`
/// must be below the number of modules.
fn has_high_off_page(modules: &LaidModules, number: usize, contents: &[Content]) -> bool
    requires { number < length modules.now }
    ensures { result ≡ has_high_off_page modules.now number contents.now }
{
    for content in contents {
        if takes_high_off_page(modules, number, &content.fixups) {
            return true;
        }
    }
    false
}

/// Whether a fixup of `fixups`, which are of the module with index `number`, is for the high byte of an
/// address in a segment in which the module's part doesn't start at a multiple of 256. `number` must be
/// below the number of modules.
fn takes_high_off_page(modules: &LaidModules, number: usize, fixups: &[Fixup]) -> bool
    requires { number < length modules.now }
    ensures { result ≡ list_any (is_high_off_page modules.now number) fixups.now }
{
    for fixup in fixups {
        if is_high_off_page(modules, number, *fixup) {
            return true;
        }
    }
    false
}

/// Whether this fixup of the module with index `number` is for the high byte of an address in a
/// segment in which the module's part doesn't start at a multiple of 256. `number` must be below
/// the number of modules.
fn is_high_off_page(modules: &LaidModules, number: usize, fixup: Fixup) -> bool
    requires { number < length modules.now }
    ensures { result ≡ is_high_off_page modules.now number fixup }
{
    match (fixup.field, fixup.target) {
        (Field::High, Target::Segment(id)) => modules.linked_offset(number, id, 0) % 256 != 0,
        _ => false,
    }
}
