//! The modules that were linked.

ghost use Rattle.std.specs.Prelude.{◌≡◌, map, option_copied, IfOk};
ghost use Rattle.link80_select.specs.Selected.{module_at};
ghost use Rattle.link80.specs.Selection.{modules_with};

use link80::Chosen;
use omf_library::Library;
use omf_model::Module;
use std::alloc::{AllocError, Global};

/// The module at this place in the libraries; `None` if there is none.
pub(crate) fn module_at(libraries: &[Library], place: Chosen) -> Option<&Module>
    ensures { option_copied result ≡ module_at libraries.now place }
{
    let library = libraries.get(place.library)?;
    library.modules.get(place.module)
}

/// The modules that were linked, in their order: the roots, and then those that were taken from the
/// libraries.
///
/// # Errors
/// `AllocError` only if memory runs out.
pub fn linked_modules<'a>(
    alloc: Global,
    roots: &'a [Module],
    libraries: &'a [Library],
    taken: &[Chosen],
) -> Result<Vec<&'a Module>, AllocError>
    ensures { IfOk result (λ modules. map (λ m. m.now) modules.items ≡ modules_with roots.now libraries.now taken.now) }
{
    let mut modules = Vec::new(alloc);
    for root in roots {
        modules.push(root)?;
    }
    for place in taken {
        if let Some(member) = module_at(libraries, *place) {
            modules.push(member)?;
        }
    }
    Ok(modules)
}
