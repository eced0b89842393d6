//! All modules that a link may take, in one row.

ghost use Rattle.std.specs.Prelude.{◌≡◌, ◌<◌, ◌++◌, Some, map, length, slice_get, IfOk, OnOk, IfSome};
ghost use Rattle.omf_library.specs.Providers.{first_provider};
ghost use Rattle.link80_select.specs.Selecting.{members};

use omf_library::{Library, Providers};
use omf_model::Module;
use std::alloc::{AllocError, Global};
use std::marker::Model;

/// All modules that a link may take, by index, and the first that declares each name. A contract
/// sees the list of the modules.
#[derive(Drop)]
pub(crate) struct Row<'a> {
    /// The roots, and then the modules of each library.
    modules: Vec<&'a Module>,
    /// The first of them that declares each name.
    providers: Providers<'a>,
}

impl<'a> Model for Row<'a> {
    ghost use Rattle.std.specs.Prelude.{List, map};
    ghost use Rattle.omf_model.specs.Modules.{ModuleValue};
    ghost use Rattle.omf_library.specs.Providers.{AreProviders};

    ghost Value = { List ModuleValue };

    ghost view = { λ r. map (λ m. m.now) r.modules.items };

    ghost invariant = { λ r. AreProviders (map (λ m. m.now) r.modules.items) r.providers };
}

/// Appends these modules to the row, in order. `Err` only if memory runs out.
fn push_modules<'a>(row: &mut Vec<&'a Module>, modules: &'a [Module]) -> Result<(), AllocError>
    ensures { OnOk result (map (λ m. m.now) row.new.items ≡ map (λ m. m.now) row.old.items ++ modules.now) }
{
    for source in modules {
        row.push(source)?;
    }
    Ok(())
}

impl<'a> Row<'a> {
    /// The row of the roots and then the modules of each library. `Err` only if memory runs out.
    pub(crate) fn of(
        alloc: Global,
        roots: &'a [Module],
        libraries: &'a [Library],
    ) -> Result<Row<'a>, AllocError>
        ensures { IfOk result (λ row. row ≡ roots.now ++ members libraries.now) }
    {
        let mut modules = Vec::new(alloc);
        push_modules(&mut modules, roots)?;
        for library in libraries {
            push_modules(&mut modules, library.modules.as_slice())?;
        }
        let providers = Providers::of(alloc, modules.as_slice())?;
        Ok(Row { modules, providers })
    }

    /// The number of modules.
    pub(crate) fn len(&self) -> usize
        ensures { result ≡ length self.now }
    {
        self.modules.len()
    }

    /// The module with this index, which must be below the number of modules.
    pub(crate) fn get(&self, number: usize) -> &'a Module
        requires { number < length self.now }
        ensures { slice_get self.now number ≡ Some result.now }
    {
        self.modules[number]
    }

    /// The index of the first module that declares the name of these bytes public; `None` if none
    /// does.
    pub(crate) fn first(&self, name: &[u8]) -> Option<usize>
        ensures first { result ≡ first_provider self.now name.now }
        ensures within { IfSome result (λ number. number < length self.now) }
    {
        self.providers.first(name)
    }
}
