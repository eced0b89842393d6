//! Names by number, in order of first sight.

ghost use Rattle.std.specs.Prelude.{◌≡◌, [], ◌<◌, not, length, IfSome, IfOk, OnOk};
ghost use Rattle.link80.specs.FirstSight.{is_among, number_in, with_name};

use indexmap::IndexSet;
use omf_core::Name;
use omf_library::NameHashes;
use std::alloc::{AllocError, Global};
use std::marker::Model;

/// Distinct names with indices, in order of first sight. A contract sees their list.
#[derive(Drop)]
pub(crate) struct NameTable<'a> {
    /// The names, borrowed from modules.
    names: IndexSet<&'a [u8], NameHashes>,
}

impl<'a> Model for NameTable<'a> {
    ghost use Rattle.std.specs.Prelude.{ℕ, List, map};

    ghost Value = { List (List ℕ) };

    ghost view = { λ t. map (λ name. name.now) t.names.keys };
}

impl<'a> NameTable<'a> {
    /// An empty table. Names are hashed by `hashes`, which should have been fed all that will be
    /// added.
    pub(crate) fn new(alloc: Global, hashes: NameHashes) -> NameTable<'a>
        ensures { result ≡ [] }
    {
        NameTable {
            names: IndexSet::with_hasher(alloc, hashes),
        }
    }

    /// Appends a name if the table hasn't it; `true` if it was new. `Err` only if memory runs out.
    pub(crate) fn add(&mut self, name: &'a [u8]) -> Result<bool, AllocError>
        ensures new { IfOk result (λ new. new ≡ not (is_among self.old name.now)) }
        ensures names { OnOk result (self.new ≡ with_name self.old name.now) }
    {
        let (_, new) = self.names.insert_full(name)?;
        Ok(new)
    }

    /// The number of names.
    pub(crate) fn len(&self) -> usize
        ensures { result ≡ length self.now }
    {
        self.names.len()
    }

    /// The index of a name, or `None` if the table hasn't it.
    pub(crate) fn number_of(&self, name: &[u8]) -> Option<usize>
        ensures number { result ≡ number_in self.now name.now }
        ensures within { IfSome result (λ number. number < length self.now) }
    {
        self.names.get_index_of(name)
    }
}

/// Appends a name to `names`, and a copy of it to `copies`, if `names` hasn't it. `Err` only if
/// memory runs out.
pub(crate) fn add_name<'a>(
    alloc: Global,
    names: &mut NameTable<'a>,
    copies: &mut Vec<Name>,
    name: &'a Name,
) -> Result<(), AllocError>
    ensures names { OnOk result (names.new ≡ with_name names.old name.now) }
    ensures copies { OnOk result (copies.old.items ≡ names.old → copies.new.items ≡ names.new) }
{
    if names.add(name.bytes())? {
        copies.push(name.copy(alloc)?)?;
    }
    Ok(())
}
