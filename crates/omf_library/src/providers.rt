//! The first providers of all names, made once for a list of modules.

ghost use Rattle.std.specs.Prelude.{◌≡◌, ℕ, List, map, IfOk, OnOk};
ghost use Rattle.omf_core.specs.Name.{same_name};
ghost use Rattle.omf_model.specs.Modules.{ModuleValue};
ghost use Rattle.omf_library.specs.Providers.{declares, first_provider, AreProviders, TakesNames};

use crate::name_hashes::NameHashes;
use indexmap::IndexMap;
use omf_core::Name;
use omf_module::Module;
use std::alloc::{AllocError, Global};
use std::marker::Model;

/// For each name that some modules of a list declare public, the index of the first module that
/// declares it. No name is copied. A contract sees the names with their indices.
#[derive(Drop)]
pub struct Providers<'a> {
    /// The index of the first module that declares each name.
    places: IndexMap<&'a [u8], usize, NameHashes>,
}

impl<'a> Model for Providers<'a> {
    ghost use Rattle.std.specs.Prelude.{ℕ, List, map};

    ghost Value = { List (List ℕ × ℕ) };

    ghost view = { λ p. map (λ e. (e.0.now, e.1)) p.places.entries };
}

impl<'a> Providers<'a> {
    /// The first providers of all names that the modules declare public.
    ///
    /// # Errors
    /// `AllocError` only if memory runs out.
    pub fn of(alloc: Global, modules: &[&'a Module]) -> Result<Providers<'a>, AllocError>
        ensures { IfOk result (AreProviders (map (λ m. m.now) modules.now)) }
    {
        let mut providers = Providers {
            places: IndexMap::with_hasher(alloc, hashes_of(modules)),
        };
        // From the last module to the first, so that of several that declare a name the first is kept.
        let mut place = modules.len();
        while 0 < place {
            place -= 1;
            providers.take_names(modules[place], place)?;
        }
        Ok(providers)
    }

    /// The index of the first module in the list that declares the name of these bytes public;
    /// `None` if none does. It takes no memory, and doesn't search the modules.
    pub fn first(&self, name: &[u8]) -> Option<usize>
        ensures { (modules : List ModuleValue) → AreProviders modules self.now → result ≡ first_provider modules name.now }
    {
        self.places.get(name).copied()
    }

    /// Sets the index of a name, in place of an earlier one. `Err` only if memory runs out.
    fn take_name(&mut self, name: &'a Name, place: usize) -> Result<(), AllocError>
        ensures { OnOk result (TakesNames (same_name name.now) place self.old self.new) }
    {
        self.places.insert(name.bytes(), place)?;
        Ok(())
    }

    /// Sets the index of each name that the module declares public to `place`, in place of earlier
    /// ones. `Err` only if memory runs out.
    fn take_names(&mut self, source: &'a Module, place: usize) -> Result<(), AllocError>
        ensures { OnOk result (TakesNames (λ name. declares name source.now) place self.old self.new) }
    {
        for public in source.publics() {
            self.take_name(&public.name, place)?;
        }
        Ok(())
    }
}

/// The hashes for a table of the names that these modules declare public.
fn hashes_of(modules: &[&Module]) -> NameHashes {
    let mut hashes = NameHashes::new();
    for source in modules {
        feed_publics(&mut hashes, source);
    }
    hashes
}

/// Feeds the names that a module declares public to `hashes`.
fn feed_publics(hashes: &mut NameHashes, source: &Module) {
    for public in source.publics() {
        hashes.feed(&public.name);
    }
}
