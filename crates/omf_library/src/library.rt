//! A library, and the first of its modules that declares a name.

use omf_core::Name;
use omf_module::Module;
use std::marker::Model;

/// A library: its modules in the order in which they stand in the file. A contract sees the list of their values.
/// (8080 Object Module Formats, library file.)
#[derive(Debug, Drop)]
pub struct Library {
    /// The modules, in the order of the file.
    pub modules: Vec<Module>,
}

impl Model for Library {
    ghost use Rattle.std.specs.Prelude.{List};
    ghost use Rattle.omf_model.specs.Modules.{ModuleValue};

    ghost Value = { List ModuleValue };

    ghost view = { λ library. library.modules.items };
}

ghost use Rattle.std.specs.Prelude.{◌≡◌, ◌↔◌, None, false};
ghost use Rattle.std.specs.List.{list_any};
ghost use Rattle.omf_library.specs.Providers.{declares, first_provider};

impl Library {
    /// The index in `modules` of the first module that declares the name public; `None` if none
    /// does. It takes no memory, and searches the modules one after another.
    pub fn provider(&self, name: &Name) -> Option<usize>
        ensures first { result ≡ first_provider self.now name.now }
        ensures none { result ≡ None ↔ (list_any (declares name.now) self.now ≡ false) }
    {
        first_provider(&self.modules, name)
    }
}

/// Whether the module declares the name public.
fn declares(source: &Module, name: &Name) -> bool
    ensures { result ≡ declares name.now source.now }
{
    source.publics().iter().any(|public| public.name == *name)
}

/// The index of the first module in the list that declares the name public; `None` if none does.
fn first_provider(modules: &[Module], name: &Name) -> Option<usize>
    ensures { result ≡ first_provider modules.now name.now }
{
    modules.iter().position(|source| declares(source, name))
}
