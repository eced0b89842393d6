//! Which modules need a name.

ghost use Rattle.std.specs.Prelude.{◌≡◌, ◌++◌, ◌∷◌, ◌+◌, ℕ, [], Some, None, List, map, length, slice_get, IfOk, OnOk};
ghost use Rattle.link80_text.specs.Needs.{AreNeeds, AreWith, SetsFirst, first_of, is_of};
ghost use Rattle.link80_text.specs.declared.needs.Need.{Need};

use indexmap::IndexMap;
use omf_core::Name;
use omf_library::NameHashes;
use omf_model::Module;
use std::alloc::{AllocError, Global};
use std::marker::Model;

/// An entry of [`Needs`]: a module that needs a name.
#[derive(Clone, Copy)]
pub(crate) struct Need {
    /// The index of the module.
    pub number: usize,
    /// The index of the entry of the next module that needs the same name, if there is one.
    pub next: Option<usize>,
}

/// For each name a chain of the modules that need it, all in one table. No name is copied.
#[derive(Drop)]
pub(crate) struct Needs<'a> {
    /// For each name, the index in `needs` of the first module's entry.
    heads: IndexMap<&'a [u8], usize, NameHashes>,
    /// The entries of all chains.
    needs: Vec<Need>,
}

impl<'a> Model for Needs<'a> {
    ghost use Rattle.std.specs.Prelude.{map};
    ghost use Rattle.link80_text.specs.Needs.{NeedsValue};

    ghost Value = { NeedsValue };

    ghost view = { λ n. record { heads = map (λ e. (e.0.now, e.1)) n.heads.entries; needs = n.needs.items } };
}

impl<'a> Needs<'a> {
    /// The table of what these modules need: each name's chain has the modules in their order.
    /// `Err` only if memory runs out.
    pub(crate) fn of(alloc: Global, modules: &[&'a Module]) -> Result<Needs<'a>, AllocError>
        ensures { IfOk result (λ needs. AreNeeds (map (λ m. m.now) modules.now) 0 needs) }
    {
        let mut needs = Needs {
            heads: IndexMap::with_hasher(alloc, hashes_of(modules)),
            needs: Vec::new(alloc),
        };
        for done in 0..modules.len() {
            let number = modules.len() - 1 - done;
            needs.add_all(number, modules[number].externals())?;
        }
        Ok(needs)
    }

    /// Puts the module with index `number` at the front of the chains of these names, once in each.
    /// `Err` only if memory runs out.
    fn add_all(&mut self, number: usize, names: &'a [Name]) -> Result<(), AllocError>
        ensures { OnOk result ((rest : List ℕ → List ℕ) → AreWith [] number rest self.old → AreWith names.now number rest self.new) }
    {
        for name in names {
            self.add(number, name)?;
        }
        Ok(())
    }

    /// Puts the module with index `number` at the front of the name's chain, if it isn't there
    /// already. `Err` only if memory runs out.
    fn add(&mut self, number: usize, name: &'a Name) -> Result<(), AllocError>
        ensures { OnOk result ((names : List (List ℕ)) (rest : List ℕ → List ℕ) → AreWith names number rest self.old
            → AreWith (names ++ name.now ∷ []) number rest self.new) }
    {
        let first = self.first(name);
        if self.is_of(first, number) {
            return Ok(());
        }
        let index = self.link(number, first)?;
        self.set(name, index)?;
        Ok(())
    }

    /// The index of the entry of the first module that needs the name; `None` if none does.
    pub(crate) fn first(&self, name: &Name) -> Option<usize>
        ensures { result ≡ first_of self.now.heads name.now }
    {
        self.heads.get(name.bytes()).copied()
    }

    /// The entry with this index; `None` if there is none.
    pub(crate) fn get(&self, index: usize) -> Option<Need>
        ensures { result ≡ slice_get self.now.needs index }
    {
        self.needs.get(index).copied()
    }

    /// Whether `at` is the index of an entry of the module with index `number`.
    fn is_of(&self, at: Option<usize>, number: usize) -> bool
        ensures { result ≡ is_of self.now.needs at number }
    {
        match at {
            Some(index) => match self.get(index) {
                Some(need) => need.number == number,
                None => false,
            },
            None => false,
        }
    }

    /// Appends an entry of the module with index `number`, and returns the entry's index. `next` is
    /// the entry after it in its chain. `Err` only if memory runs out.
    fn link(&mut self, number: usize, next: Option<usize>) -> Result<usize, AllocError>
        ensures heads { OnOk result (self.new.heads ≡ self.old.heads) }
        ensures needs { OnOk result (self.new.needs ≡ self.old.needs ++ record { number = number; next = next } ∷ []) }
        ensures index { IfOk result (λ index. index ≡ length self.old.needs) }
    {
        let index = self.needs.len();
        self.needs.push(Need { number, next })?;
        Ok(index)
    }

    /// Makes the entry with this index the first in the name's chain. `Err` only if memory runs
    /// out.
    fn set(&mut self, name: &'a Name, index: usize) -> Result<(), AllocError>
        ensures heads { OnOk result (SetsFirst name.now index self.old.heads self.new.heads) }
        ensures needs { OnOk result (self.new.needs ≡ self.old.needs) }
    {
        self.heads.insert(name.bytes(), index)?;
        Ok(())
    }
}

/// The hashes for a table of the names that the modules need.
fn hashes_of(modules: &[&Module]) -> NameHashes {
    let mut hashes = NameHashes::new();
    for source in modules {
        for name in source.externals() {
            hashes.feed(name);
        }
    }
    hashes
}
