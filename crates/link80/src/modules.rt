//! Modules that are linked together, by number.

ghost use Rattle.std.specs.Prelude.{◌≡◌, ◌<◌, [], ◌∷◌, ◌++◌, Some, length, slice_get, OnOk};

use omf_model::Module;
use std::alloc::{AllocError, Global};
use std::marker::Model;

/// The modules that are linked, in the order in which their parts are laid out. A contract sees
/// their list.
#[derive(Drop)]
pub(crate) struct Modules<'a> {
    /// The modules, in order.
    modules: Vec<&'a Module>,
}

impl<'a> Model for Modules<'a> {
    ghost use Rattle.std.specs.Prelude.{List, map};
    ghost use Rattle.omf_model.specs.Modules.{ModuleValue};

    ghost Value = { List ModuleValue };

    ghost view = { λ m. map (λ one. one.now) m.modules.items };
}

impl<'a> Modules<'a> {
    /// An empty list of modules.
    pub(crate) fn new(alloc: Global) -> Modules<'a>
        ensures { result ≡ [] }
    {
        Modules {
            modules: Vec::new(alloc),
        }
    }

    /// Appends a module. `Err` only if memory runs out.
    pub(crate) fn push(&mut self, added: &'a Module) -> Result<(), AllocError>
        ensures { OnOk result (self.new ≡ self.old ++ added.now ∷ []) }
    {
        self.modules.push(added)?;
        Ok(())
    }

    /// The number of modules.
    pub(crate) fn len(&self) -> usize
        ensures { result ≡ length self.now }
    {
        self.modules.len()
    }

    /// The module with this index, which must be below the number of modules.
    pub(crate) fn get(&self, number: usize) -> &'a Module
        requires { number < length self.now }
        ensures { slice_get self.now number ≡ Some result.now }
    {
        self.modules[number]
    }
}
