//! The lines of the parts of all modules.

ghost use Rattle.std.specs.Prelude.{◌≡◌, ◌++◌, ◌∷◌, ◌≤◌, [], None, map, false, OnOk};
ghost use Rattle.std.specs.List.{flat_map};
ghost use Rattle.omf_model.specs.Place.{is_laid_out};
ghost use Rattle.link80.specs.Linked.{linked_commons};
ghost use Rattle.link80.specs.LinkFault.{link_fault};
ghost use Rattle.link80_text.specs.Parts.{modules_of, IsMade, segment_text, parts_text};
ghost use Rattle.link80_text.specs.Words.{joined_text};

use crate::laid::append_laid;
use crate::lines::append_part;
use crate::modules::linked_modules;
use crate::named::part_of;
use link80::Linked;
use link80::laws::laid_parts_end_at_words;
use omf_core::segment_id::{CODE, DATA, MEMORY, STACK, UNNAMED_COMMON};
use omf_library::Library;
use omf_model::{Common, Module, common_name};
use std::alloc::{AllocError, Global};

/// Appends a line for each part of a linked module that has bytes or is paged: where it starts in
/// its linked segment, its length, the segment, a named common's name, and the module that it is a
/// part of, as `PART 0000 0064 CODE METER` and `PART 0000 0010 COMMON TABLE METER`. Segments come
/// in this order: CODE, DATA, STACK, MEMORY, the unnamed common, and the named commons in order of
/// first sight; in each the modules come in the order in which they were linked. Numbers are four
/// hexadecimal digits. `made` must be what `link` made of these roots and libraries.
///
/// # Errors
/// `AllocError` only if memory runs out; the text may then have some of the lines.
pub fn append_parts(
    alloc: Global,
    text: &mut Vec<u8>,
    roots: &[Module],
    libraries: &[Library],
    made: &Linked,
) -> Result<(), AllocError>
    requires { IsMade roots.now libraries.now made.now }
    ensures { OnOk result (text.new.items ≡ text.old.items ++ parts_text (modules_of roots.now libraries.now made.now)) }
{
    let modules = linked_modules(alloc, roots, libraries, &made.taken)?;
    append_all(text, &modules, made.module.commons())
}

/// Appends a line for each part of each segment; `commons` must be those of the linked module, and
/// the modules must link without fault. `Err` only if memory runs out.
fn append_all(text: &mut Vec<u8>, modules: &[&Module], commons: &[Common]) -> Result<(), AllocError>
    requires commons { commons.now ≡ linked_commons (map (λ m. m.now) modules.now) }
    requires no_fault { link_fault (map (λ m. m.now) modules.now) ≡ None }
    ensures { OnOk result (text.new.items ≡ text.old.items ++ parts_text (map (λ m. m.now) modules.now)) }
{
    append_segment(text, modules, commons, CODE)?;
    append_segment(text, modules, commons, DATA)?;
    append_segment(text, modules, commons, STACK)?;
    append_segment(text, modules, commons, MEMORY)?;
    append_segment(text, modules, commons, UNNAMED_COMMON)?;
    append_commons(text, modules, commons)
}

/// Appends a line for each part of each named common; `commons` must be those of the linked module,
/// and the modules must link without fault. `Err` only if memory runs out.
fn append_commons(
    text: &mut Vec<u8>,
    modules: &[&Module],
    commons: &[Common],
) -> Result<(), AllocError>
    requires commons { commons.now ≡ linked_commons (map (λ m. m.now) modules.now) }
    requires no_fault { link_fault (map (λ m. m.now) modules.now) ≡ None }
    ensures { OnOk result (text.new.items ≡ text.old.items
        ++ flat_map (segment_text (map (λ m. m.now) modules.now)) (map (λ c. c.id) commons.now)) }
{
    for common in commons {
        append_segment(text, modules, commons, common.id)?;
    }
    Ok(())
}

/// Appends a line for each part of segment `id`; `commons` must be those of the linked module, and
/// the modules must link without fault. `Err` only if memory runs out.
fn append_segment(
    text: &mut Vec<u8>,
    modules: &[&Module],
    commons: &[Common],
    id: u8,
) -> Result<(), AllocError>
    requires commons { commons.now ≡ linked_commons (map (λ m. m.now) modules.now) }
    requires no_fault { link_fault (map (λ m. m.now) modules.now) ≡ None }
    ensures { OnOk result (text.new.items ≡ text.old.items ++ segment_text (map (λ m. m.now) modules.now) id) }
{
    laid_parts_end_at_words();
    if is_laid_out(id) {
        append_laid(text, modules, commons, id)
    } else {
        append_joined(text, modules, commons, id)
    }
}

/// Whether the parts of this segment lie one after another: those of CODE, DATA and STACK do.
fn is_laid_out(id: u8) -> bool
    ensures { result ≡ is_laid_out id }
{
    id == CODE || id == DATA || id == STACK
}

/// Appends a line for each part of segment `id`, whose parts overlay one another at offset 0. `Err`
/// only if memory runs out.
fn append_joined(
    text: &mut Vec<u8>,
    modules: &[&Module],
    commons: &[Common],
    id: u8,
) -> Result<(), AllocError>
    ensures { OnOk result (text.new.items ≡ text.old.items ++ joined_text commons.now id (map (λ m. m.now) modules.now)) }
{
    let name = common_name(commons, id);
    for source in modules {
        let part = part_of(source, id, name);
        append_part(text, commons, id, 0, part, source.name())?;
    }
    Ok(())
}
