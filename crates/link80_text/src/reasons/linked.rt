//! The linked modules, and which of them declares a name.

ghost use Rattle.std.specs.Prelude.{◌≡◌, map, option_copied, slice_get, IfOk};
ghost use Rattle.link80_text.specs.Linked.{number_of, target};

use omf_library::Providers;
use omf_model::Module;
use std::alloc::{AllocError, Global};
use std::marker::Model;

/// The linked modules, and the first of them that declares each name. A contract sees the modules
/// and the number of roots.
#[derive(Drop)]
pub(crate) struct LinkedModules<'a> {
    /// The number of modules that are roots; they come first.
    roots: usize,
    /// The modules: the roots, and then those that were taken.
    modules: &'a [&'a Module],
    /// The first module that declares each name.
    providers: Providers<'a>,
}

impl<'a> Model for LinkedModules<'a> {
    ghost use Rattle.std.specs.Prelude.{map};
    ghost use Rattle.omf_library.specs.Providers.{AreProviders};
    ghost use Rattle.link80_text.specs.Linked.{LinkedValue};

    ghost Value = { LinkedValue };

    ghost view = { λ l. record { roots = l.roots; modules = map (λ m. m.now) l.modules.now } };

    ghost invariant = { λ l. AreProviders (map (λ m. m.now) l.modules.now) l.providers };
}

impl<'a> LinkedModules<'a> {
    /// The table of these modules, of which the first `roots` are roots. `Err` only if memory runs
    /// out.
    pub(crate) fn of(
        alloc: Global,
        roots: usize,
        modules: &'a [&'a Module],
    ) -> Result<LinkedModules<'a>, AllocError>
        ensures { IfOk result (λ linked. linked ≡ record { roots = roots; modules = map (λ m. m.now) modules.now }) }
    {
        Ok(LinkedModules {
            roots,
            modules,
            providers: Providers::of(alloc, modules)?,
        })
    }

    /// The number of modules that are roots.
    pub(crate) fn roots(&self) -> usize
        ensures { result ≡ self.now.roots }
    {
        self.roots
    }

    /// The module with this index; `None` if there is none.
    pub(crate) fn module(&self, number: usize) -> Option<&'a Module>
        ensures { option_copied result ≡ slice_get self.now.modules number }
    {
        match self.modules.get(number) {
            Some(module) => Some(*module),
            None => None,
        }
    }

    /// The index, among the modules that were taken, of the first module that declares the name of
    /// these bytes; `None` if that is a root, or no module declares it.
    pub(crate) fn target(&self, name: &[u8]) -> Option<usize>
        ensures { result ≡ target self.now.roots self.now.modules name.now }
    {
        let number = self.providers.first(name)?;
        number_of(self.roots, number)
    }
}

/// The index among the modules taken of the linked module with index `number`; `None` for a root.
fn number_of(roots: usize, number: usize) -> Option<usize>
    ensures { result ≡ number_of roots number }
{
    if number < roots {
        None
    } else {
        Some(number - roots)
    }
}
