//! The names that modules declare public: none of them stands twice.

ghost use Rattle.std.specs.Prelude.{◌≡◌, ◌≢◌, None, Some, map, IfOk, IfErr, OnOk};
ghost use Rattle.link80.specs.Gathered.{names_of_publics, TakesNames, RepeatsName};
ghost use Rattle.link80.specs.Linked.{linked_publics};
ghost use Rattle.link80.specs.LinkFault.{duplicate_public};

use crate::fault::LinkFault;
use crate::modules::Modules;
use crate::name_table::NameTable;
use omf_library::NameHashes;
use omf_model::Module;
use std::alloc::Global;

/// Appends the names of a module's publics to `names`.
///
/// # Errors
/// `DuplicatePublic` with the first of them that is already in `names`; `Memory` only if memory
/// runs out.
fn add_publics<'a>(
    alloc: Global,
    names: &mut NameTable<'a>,
    source: &'a Module,
) -> Result<(), LinkFault>
    ensures taken { OnOk result (TakesNames names.old (names_of_publics source.now) names.new) }
    ensures fault { IfErr result (λ fault. fault ≢ LinkFault.Memory → RepeatsName names.old (names_of_publics source.now) fault) }
{
    for public in source.publics() {
        if !names.add(public.name.bytes())? {
            return Err(LinkFault::DuplicatePublic(public.name.copy(alloc)?));
        }
    }
    Ok(())
}

/// The names of the publics of all modules, by module and then by record, no two the same.
///
/// # Errors
/// `DuplicatePublic` with the first public whose name an earlier one has; `Memory` only if memory
/// runs out.
pub(crate) fn declared_names<'a>(
    alloc: Global,
    modules: &Modules<'a>,
) -> Result<NameTable<'a>, LinkFault>
    ensures names { IfOk result (λ names. names ≡ map (λ p. p.name) (linked_publics modules.now)) }
    ensures once { OnOk result (duplicate_public modules.now ≡ None) }
    ensures fault { IfErr result (λ fault. fault ≢ LinkFault.Memory → duplicate_public modules.now ≡ Some fault) }
{
    let mut names = NameTable::new(alloc, public_hashes(modules));
    for number in 0..modules.len() {
        add_publics(alloc, &mut names, modules.get(number))?;
    }
    Ok(names)
}

/// The hashes for a table of the names of all publics.
fn public_hashes(modules: &Modules<'_>) -> NameHashes {
    let mut hashes = NameHashes::new();
    for number in 0..modules.len() {
        feed_publics(&mut hashes, modules.get(number));
    }
    hashes
}

/// Feeds the names of a module's publics to `hashes`.
fn feed_publics(hashes: &mut NameHashes, source: &Module) {
    for public in source.publics() {
        hashes.feed(&public.name);
    }
}
