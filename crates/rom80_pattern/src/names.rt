//! The names of a module's publics and externals with what they stand for.

ghost use Rattle.std.specs.Prelude.{◌≡◌, ◌≤◌, [], length, min, take, unwrap_or, Some, IfOk, OnOk};
ghost use Rattle.rom80_pattern.specs.Names.{place_of_public, word_of_external, meaning_in, AreNames, SetsName, AddsName};

use crate::resolving::Resolved;
use indexmap::IndexMap;
use omf_core::Name;
use omf_library::NameHashes;
use omf_model::{Module, Public, Target};
use std::alloc::{AllocError, Global};
use std::marker::Model;

/// A table of names with what they stand for: a public's place, or the word of an external. No name is copied. A contract sees the names
/// with what they stand for.
#[derive(Drop)]
pub(crate) struct Names<'a> {
    meanings: IndexMap<&'a [u8], Resolved, NameHashes>,
}

impl<'a> Model for Names<'a> {
    ghost use Rattle.std.specs.Prelude.{ℕ, List, map};
    ghost use Rattle.rom80_pattern.specs.declared.resolving.Resolved.{Resolved};

    ghost Value = { List (List ℕ × Resolved) };

    ghost view = { λ n. map (λ e. (e.0.now, e.1)) n.meanings.entries };
}

impl<'a> Names<'a> {
    /// Makes a table of the names of a module's publics, each with the public's place; of publics with one name the first counts.
    pub(crate) fn of_publics(alloc: Global, source: &'a Module) -> Result<Names<'a>, AllocError>
        ensures { IfOk result (AreNames source.now.publics []) }
    {
        let mut names = Names {
            meanings: IndexMap::with_hasher(alloc, hashes_of(source)),
        };
        names.set_publics(source.publics())?;
        Ok(names)
    }

    /// Adds to an empty table the names of publics, each with the public's place. The last comes first, so that of publics with one name
    /// the first counts.
    fn set_publics(&mut self, publics: &'a [Public]) -> Result<(), AllocError>
        requires { self.old ≡ [] }
        ensures { OnOk result (AreNames publics.now [] self.new) }
    {
        for done in 0..publics.len() {
            let public = &publics[publics.len() - 1 - done];
            self.set_meaning(&public.name, place_of_public(public))?;
        }
        Ok(())
    }

    /// Sets what a name stands for, also if it stood for something else before.
    fn set_meaning(&mut self, name: &'a Name, meaning: Resolved) -> Result<(), AllocError>
        ensures { OnOk result (SetsName name.now meaning self.old self.new) }
    {
        self.meanings.insert(name.bytes(), meaning)?;
        Ok(())
    }

    /// Returns what the external with this name and index stands for: what the name does, or the external's own word for a name that
    /// isn't in the table. The name is added then.
    pub(crate) fn resolve_external(
        &mut self,
        name: &'a Name,
        index: u16,
    ) -> Result<Resolved, AllocError>
        ensures value { IfOk result (λ meaning. meaning ≡ unwrap_or (meaning_in self.old name.now) (word_of_external index)) }
        ensures added { OnOk result (AddsName name.now (word_of_external index) self.old self.new) }
    {
        match self.meaning_of(name.bytes()) {
            Some(meaning) => Ok(meaning),
            None => {
                let word = word_of_external(index);
                self.set_meaning(name, word)?;
                Ok(word)
            }
        }
    }

    /// Returns what a name stands for; `None` if it isn't in the table.
    fn meaning_of(&self, name: &[u8]) -> Option<Resolved>
        ensures { result ≡ meaning_in self.now name.now }
    {
        self.meanings.get(name).copied()
    }
}

/// Returns the place of a public: the base of its segment plus its offset.
fn place_of_public(public: &Public) -> Resolved
    ensures { result ≡ place_of_public public.now }
{
    Resolved {
        target: Target::Segment(public.segment),
        addend: public.offset,
    }
}

/// Returns the word that the external with this index stands for, which isn't known yet.
fn word_of_external(index: u16) -> Resolved
    ensures { result ≡ word_of_external index }
{
    Resolved {
        target: Target::External(index),
        addend: 0,
    }
}

/// Chooses a hash function for the names of a module's publics and externals.
fn hashes_of(source: &Module) -> NameHashes {
    let mut hashes = NameHashes::new();
    for public in source.publics() {
        hashes.feed(&public.name);
    }
    for name in source.externals() {
        hashes.feed(name);
    }
    hashes
}
