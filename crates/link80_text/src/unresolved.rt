//! The lines of the modules that need unresolved names.

ghost use Rattle.std.specs.Prelude.{◌≡◌, ◌++◌, ℕ, List, map, IfOk, OnOk};
ghost use Rattle.std.specs.List.{flat_map};
ghost use Rattle.link80_text.specs.Parts.{modules_of, IsMade, line_of_need, needing_text, unresolved_text};
ghost use Rattle.link80_text.specs.Needs.{AreNeeds, IsChain, first_line, line_at, others_of};

use crate::modules::linked_modules;
use crate::needs::Needs;
use crate::words::append_word;
use link80::Linked;
use omf_core::Name;
use omf_library::Library;
use omf_model::Module;
use std::alloc::{AllocError, Global};

/// Appends a line for each unresolved name and each module that has it as external, as
/// `UNRESOLVED GETKEY BY METER`: the names in order of first sight, and for each the modules in the
/// order in which they were linked. `made` must be what `link` made of these roots and libraries.
///
/// # Errors
/// `AllocError` only if memory runs out; the text may then have some of the lines.
pub fn append_unresolved(
    alloc: Global,
    text: &mut Vec<u8>,
    roots: &[Module],
    libraries: &[Library],
    made: &Linked,
) -> Result<(), AllocError>
    requires { IsMade roots.now libraries.now made.now }
    ensures { OnOk result (text.new.items ≡ text.old.items ++ unresolved_text (modules_of roots.now libraries.now made.now)) }
{
    let modules = linked_modules(alloc, roots, libraries, &made.taken)?;
    let needs = Needs::of(alloc, &modules)?;
    append_names(text, &needs, &modules, &made.unresolved)
}

/// Appends a line for each of these names and each module that needs it. `needs` must be those of
/// these modules. `Err` only if memory runs out.
fn append_names(
    text: &mut Vec<u8>,
    needs: &Needs<'_>,
    modules: &[&Module],
    names: &[Name],
) -> Result<(), AllocError>
    requires { AreNeeds (map (λ m. m.now) modules.now) 0 needs.now }
    ensures { OnOk result (text.new.items ≡ text.old.items
        ++ flat_map (needing_text (map (λ m. m.now) modules.now)) names.now) }
{
    for name in names {
        append_needing(text, needs, modules, name)?;
    }
    Ok(())
}

/// Appends a line for each module that needs the name. `needs` must be those of these modules.
/// `Err` only if memory runs out.
fn append_needing(
    text: &mut Vec<u8>,
    needs: &Needs<'_>,
    modules: &[&Module],
    name: &Name,
) -> Result<(), AllocError>
    requires { AreNeeds (map (λ m. m.now) modules.now) 0 needs.now }
    ensures { OnOk result (text.new.items ≡ text.old.items ++ needing_text (map (λ m. m.now) modules.now) name.now) }
{
    let mut at = needs.first(name);
    for _ in 0..modules.len() {
        if at.is_none() {
            return Ok(());
        }
        at = append_next(text, needs, modules, name, at)?;
    }
    Ok(())
}

/// Appends the line of the module of the entry with index `at`, and returns the index of the next
/// entry in its chain; `None`, with nothing appended, if there is no such entry. `Err` only if
/// memory runs out.
fn append_next(
    text: &mut Vec<u8>,
    needs: &Needs<'_>,
    modules: &[&Module],
    name: &Name,
    at: Option<usize>,
) -> Result<Option<usize>, AllocError>
    ensures text { OnOk result ((rest : List ℕ) → IsChain needs.now.needs at rest
        → text.new.items ≡ text.old.items ++ first_line (map (λ m. m.now) modules.now) name.now rest) }
    ensures next { IfOk result (λ next. (rest : List ℕ) → IsChain needs.now.needs at rest → IsChain needs.now.needs next (others_of rest)) }
{
    let Some(index) = at else {
        return Ok(None);
    };
    let Some(need) = needs.get(index) else {
        return Ok(None);
    };
    append_module(text, modules, name, need.number)?;
    Ok(need.next)
}

/// Appends the line of the module with index `number`, which needs the name; nothing if there is no
/// such module. `Err` only if memory runs out.
fn append_module(
    text: &mut Vec<u8>,
    modules: &[&Module],
    name: &Name,
    number: usize,
) -> Result<(), AllocError>
    ensures { OnOk result (text.new.items ≡ text.old.items ++ line_at (map (λ m. m.now) modules.now) name.now number) }
{
    match modules.get(number) {
        Some(source) => append_line(text, name, source.name()),
        None => Ok(()),
    }
}

/// Appends the line that the module `by` needs `name`, as `UNRESOLVED GETKEY BY METER`. `Err` only
/// if memory runs out.
fn append_line(text: &mut Vec<u8>, name: &Name, by: &Name) -> Result<(), AllocError>
    ensures { OnOk result (text.new.items ≡ text.old.items ++ line_of_need name.now by.now) }
{
    append_word(text, b"UNRESOLVED ".as_slice(), name.bytes())?;
    append_word(text, b" BY ".as_slice(), by.bytes())?;
    text.push(b'\n')?;
    Ok(())
}
