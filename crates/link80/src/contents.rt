//! Contents moved with their parts, with their fixups applied as far as their targets are known.

ghost use Rattle.std.specs.Prelude.{◌≡◌, ◌++◌, None, Some, filter_map, length, map, slice_get, IfOk, OnOk, IsTrue};
ghost use Rattle.std.specs.List.{AllByRecursion};
ghost use Rattle.omf_model.specs.Rules.{IsModule};
ghost use Rattle.omf_model.specs.Patches.{are_apart, are_inside, with_patches};
ghost use Rattle.link80.specs.Linked.{link_patch, linked_content, linked_contents, linked_fixup};
ghost use Rattle.link80.specs.LinkFault.{segment_too_long};
ghost use Rattle.link80.specs.Movable.{CanBeMoved};

use crate::symbol_tables::SymbolTables;
use omf_model::relocation_laws::sound_modules_keep_rules;
use omf_model::{Content, Fixup, Module, Patch, apply_patches};
use std::alloc::{AllocError, Global};

/// What LINK makes of the fixups of a content: for each a patch to the content's bytes, and the
/// fixups that the linked module still has, which are all but those to absolute bytes. `source`
/// must be the module with index `number`, and the content one of its own, which ends at 65535 at
/// most once it is moved. `Err` only if memory runs out.
fn resolve_fixups(
    alloc: Global,
    tables: &SymbolTables,
    number: usize,
    source: &Module,
    content: &Content,
) -> Result<(Vec<Patch>, Vec<Fixup>), AllocError>
    requires here { slice_get tables.now number ≡ Some source.now }
    requires movable { CanBeMoved tables.now number source.now content.now }
    ensures patches { IfOk result (λ made. made.0.items
        ≡ map (link_patch tables.now (number, source.now) content.now) content.now.fixups) }
    ensures left { IfOk result (λ made. made.1.items
        ≡ filter_map (linked_fixup tables.now (number, source.now) content.now) content.now.fixups) }
{
    let start = tables.joined.start(number, content.segment);
    let mut patches = Vec::new(alloc);
    let mut left = Vec::new(alloc);
    for fixup in &content.fixups {
        let reference = tables.reference(number, source, fixup.target);
        patches.push(Patch {
            at: usize::from(fixup.offset - content.offset),
            field: fixup.field,
            word: reference.word,
        })?;
        if let Some(target) = reference.target {
            left.push(Fixup {
                offset: fixup.offset + start,
                field: fixup.field,
                target,
            })?;
        }
    }
    Ok((patches, left))
}

/// A copy of the bytes with the patches applied, which must lie inside them and share no byte.
/// `Err` only if memory runs out.
fn patched_copy(alloc: Global, bytes: &[u8], patches: &[Patch]) -> Result<Vec<u8>, AllocError>
    requires inside { IsTrue (are_inside (length bytes.now) patches.now) }
    requires apart { IsTrue (are_apart patches.now) }
    ensures { IfOk result (λ copy. copy.items ≡ with_patches patches.now bytes.now) }
{
    let mut copy = Vec::from_slice(alloc, bytes)?;
    apply_patches(&mut copy, patches);
    Ok(copy)
}

/// A content as the linked module has it: its segment's id, its offset and its fixups are those of
/// the linked module, and its patches are applied. `source` must be the module with index `number`,
/// and the content one of its own, which ends at 65535 at most once it is moved. `Err` only if
/// memory runs out.
fn linked_content(
    alloc: Global,
    tables: &SymbolTables,
    number: usize,
    source: &Module,
    content: &Content,
) -> Result<Content, AllocError>
    requires here { slice_get tables.now number ≡ Some source.now }
    requires movable { CanBeMoved tables.now number source.now content.now }
    ensures { IfOk result (λ moved. moved ≡ linked_content tables.now (number, source.now) content.now) }
{
    let (patches, fixups) = resolve_fixups(alloc, tables, number, source, content)?;
    let bytes = patched_copy(alloc, &content.bytes, &patches)?;
    Ok(Content {
        segment: tables.joined.linked_id(source, content.segment),
        offset: content.offset + tables.joined.start(number, content.segment),
        bytes,
        fixups,
    })
}

/// Appends the contents of `source`, the module with index `number`, as the linked module has them.
/// `source` must be that module, and the linked CODE, DATA and STACK must have at most 65535 bytes
/// each. `Err` only if memory runs out.
fn add_contents(
    alloc: Global,
    tables: &SymbolTables,
    number: usize,
    source: &Module,
    contents: &mut Vec<Content>,
) -> Result<(), AllocError>
    requires here { slice_get tables.now number ≡ Some source.now }
    requires segments_fit { segment_too_long tables.now ≡ None }
    ensures contents { OnOk result (contents.new.items ≡ contents.old.items
        ++ map (linked_content tables.now (number, source.now)) source.now.contents) }
    ensures sound { OnOk result (IsModule source.now) }
{
    sound_modules_keep_rules();
    for content in source.contents() {
        contents.push(linked_content(alloc, tables, number, source, content)?)?;
    }
    Ok(())
}

/// The contents of the linked module, by module and then by record. `Err` only if memory runs out.
pub(crate) fn linked_contents(
    alloc: Global,
    tables: &SymbolTables,
) -> Result<Vec<Content>, AllocError>
    ensures contents { IfOk result (λ contents. contents.items ≡ linked_contents tables.now) }
    ensures sound { OnOk result (AllByRecursion IsModule tables.now) }
{
    let mut contents = Vec::new(alloc);
    for number in 0..tables.joined.len() {
        add_contents(
            alloc,
            tables,
            number,
            tables.joined.get(number),
            &mut contents,
        )?;
    }
    Ok(contents)
}
