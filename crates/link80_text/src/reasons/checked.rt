//! Whether what a search found are needs that lead to roots.

ghost use Rattle.std.specs.Prelude.{◌≡◌, true, map, IfOk, IfSome};
ghost use Rattle.link80_text.specs.Found.{AreNeeds, IsNearer, IsNeeded};

use crate::reasons::linked::LinkedModules;
use crate::reasons::search::{Need, nearest_needs};
use omf_model::Module;
use std::alloc::{AllocError, Global};

/// For each of the `count` modules that were taken, a need that explains it; `None` if the search
/// didn't find one for each. The first `roots` of the modules are roots. `Err` only if memory runs
/// out.
pub(crate) fn checked_needs(
    alloc: Global,
    roots: usize,
    modules: &[&Module],
    count: usize,
) -> Result<Option<Vec<Need>>, AllocError>
    ensures { IfOk result (λ found. IfSome found (λ needs.
        AreNeeds (record { roots = roots; modules = map (λ m. m.now) modules.now }) needs.items count)) }
{
    let linked = LinkedModules::of(alloc, roots, modules)?;
    let needs = nearest_needs(alloc, &linked, count)?;
    if are_needs(&linked, &needs, count) {
        Ok(Some(needs))
    } else {
        Ok(None)
    }
}

/// Whether `needs` has one need for each of the `count` modules that were taken, in order, each
/// explains its module, and going from need to need reaches a root.
fn are_needs(linked: &LinkedModules<'_>, needs: &[Need], count: usize) -> bool
    ensures { result ≡ true → AreNeeds linked.now needs.now count }
{
    if needs.len() != count {
        return false;
    }
    for number in 0..needs.len() {
        let need = needs[number];
        if !is_needed(linked, number, need) || !is_nearer(linked, needs, need) {
            return false;
        }
    }
    true
}

/// Whether the need's module has the external that the need says, and the module with index
/// `number` among those taken is the first to declare it.
fn is_needed(linked: &LinkedModules<'_>, number: usize, need: Need) -> bool
    ensures { result ≡ true → IsNeeded linked.now number need }
{
    let Some(module) = linked.module(need.by) else {
        return false;
    };
    let Some(name) = module.externals().get(need.name) else {
        return false;
    };
    linked.target(name.bytes()) == Some(number)
}

/// Whether the need is that of a root, or of a module taken whose own need has fewer steps.
fn is_nearer(linked: &LinkedModules<'_>, needs: &[Need], need: Need) -> bool
    ensures { result ≡ true → IsNearer linked.now.roots needs.now need }
{
    let Some(number) = need.by.checked_sub(linked.roots()) else {
        return true;
    };
    match needs.get(number) {
        Some(other) => other.steps < need.steps,
        None => false,
    }
}
