//! What references are resolved by: the publics of all modules, moved with their parts, and the names that none declares.

ghost use Rattle.std.specs.Prelude.{◌≡◌, ◌≢◌, ◌++◌, None, Some, true, filter, is_none, length, map, slice_get, IfOk, IfErr, OnOk};
ghost use Rattle.std.specs.List.{flat_map};
ghost use Rattle.omf_model.specs.Rules.{has_target};
ghost use Rattle.link80.specs.FirstSight.{is_among, number_in, with_names};
ghost use Rattle.link80.specs.Linked.{linked_public, linked_publics, linked_reference, public_of, to_place, to_public, unresolved};
ghost use Rattle.link80.specs.LinkFault.{segment_too_long, too_many_externals};

use crate::commons::JoinedModules;
use crate::fault::LinkFault;
use crate::name_table::{NameTable, add_name};
use crate::reference::Reference;
use omf_core::Name;
use omf_core::segment_id::ABSOLUTE;
use omf_library::NameHashes;
use omf_model::{Module, Public, Target};
use std::alloc::{AllocError, Global};
use std::marker::Model;

/// The most names that may be unresolved: externals have indices of 16 bits.
const MOST_EXTERNALS: usize = 65536;

/// Appends the publics of `source`, the module with index `number`, with their segments and offsets
/// in the linked module. `source` must be that module. `Err` only if memory runs out.
fn add_moved_publics(
    alloc: Global,
    joined: &JoinedModules,
    number: usize,
    source: &Module,
    publics: &mut Vec<Public>,
) -> Result<(), AllocError>
    requires { slice_get joined.now number ≡ Some source.now }
    ensures { OnOk result (publics.new.items ≡ publics.old.items
        ++ map (linked_public joined.now (number, source.now)) source.now.publics) }
{
    for public in source.publics() {
        publics.push(Public {
            name: public.name.copy(alloc)?,
            segment: joined.linked_id(source, public.segment),
            offset: joined.linked_offset(number, public.segment, public.offset),
        })?;
    }
    Ok(())
}

/// The publics of the linked module, by module and then by record. `Err` only if memory runs out.
fn linked_publics(alloc: Global, joined: &JoinedModules) -> Result<Vec<Public>, AllocError>
    ensures { IfOk result (λ publics. publics.items ≡ linked_publics joined.now) }
{
    let mut publics = Vec::new(alloc);
    for number in 0..joined.len() {
        add_moved_publics(alloc, joined, number, joined.get(number), &mut publics)?;
    }
    Ok(publics)
}

/// Appends the externals of a module that aren't in `declared` to `names`, if they are new, and
/// copies of them to `copies`. `Err` only if memory runs out.
fn add_undeclared<'a>(
    alloc: Global,
    names: &mut NameTable<'a>,
    copies: &mut Vec<Name>,
    declared: &NameTable,
    source: &'a Module,
) -> Result<(), AllocError>
    ensures names { OnOk result (names.new
        ≡ with_names names.old (filter (λ name. is_none (number_in declared.now name)) source.now.externals)) }
    ensures copies { OnOk result (copies.old.items ≡ names.old → copies.new.items ≡ names.new) }
{
    for name in source.externals() {
        if declared.number_of(name.bytes()).is_none() {
            add_name(alloc, names, copies, name)?;
        }
    }
    Ok(())
}

/// The externals that no module declares, each once, in order of first sight: as a table, and as a
/// list of copies. `declared` must have the names of all publics, in order. `Err` only if memory
/// runs out.
fn find_unresolved<'a>(
    alloc: Global,
    joined: &JoinedModules<'a>,
    declared: &NameTable,
) -> Result<(NameTable<'a>, Vec<Name>), AllocError>
    requires { declared.now ≡ map (λ p. p.name) (linked_publics joined.now) }
    ensures names { IfOk result (λ names. names.0 ≡ unresolved joined.now) }
    ensures copies { IfOk result (λ names. names.1.items ≡ unresolved joined.now) }
{
    let mut names = NameTable::new(alloc, external_hashes(joined));
    let mut copies = Vec::new(alloc);
    for number in 0..joined.len() {
        add_undeclared(alloc, &mut names, &mut copies, declared, joined.get(number))?;
    }
    Ok((names, copies))
}

/// The hashes for a table of the names of all externals.
fn external_hashes(joined: &JoinedModules<'_>) -> NameHashes {
    let mut hashes = NameHashes::new();
    for number in 0..joined.len() {
        feed_externals(&mut hashes, joined.get(number));
    }
    hashes
}

/// Feeds the names of a module's externals to `hashes`.
fn feed_externals(hashes: &mut NameHashes, source: &Module) {
    for name in source.externals() {
        hashes.feed(name);
    }
}

/// What LINK makes of a reference to this offset of the linked module's segment `id`.
fn to_place(id: u8, offset: u16) -> Reference
    ensures { result ≡ to_place id offset }
{
    let target = match id {
        ABSOLUTE => None,
        _ => Some(Target::Segment(id)),
    };
    Reference {
        word: offset,
        target,
    }
}

/// By what references are resolved: the publics of the linked module and the names that no module
/// declares. A contract sees the modules.
#[derive(Drop)]
pub(crate) struct SymbolTables<'t, 'a> {
    /// The modules, with their parts laid out and their commons' ids in the linked module.
    pub joined: &'t JoinedModules<'a>,
    /// The names of the publics; each public has its name's index.
    declared: &'t NameTable<'a>,
    /// The publics, as the linked module has them.
    publics: Vec<Public>,
    /// The names that no module declares, in order of first sight.
    unresolved: NameTable<'a>,
    /// Copies of the same names in the same order.
    names: Vec<Name>,
}

impl<'t, 'a> Model for SymbolTables<'t, 'a> {
    ghost use Rattle.std.specs.Prelude.{List};
    ghost use Rattle.omf_model.specs.Modules.{ModuleValue};
    ghost use Rattle.link80.specs.SymbolTables.{AreSymbolTables};

    ghost Value = { List ModuleValue };

    ghost view = { λ t. t.joined.now };

    ghost invariant = { λ t. AreSymbolTables t.joined.now t.declared.now t.publics.items t.unresolved t.names.items };
}

impl<'t, 'a> SymbolTables<'t, 'a> {
    /// Moves the publics of the modules and finds the names that no module declares. `declared`
    /// must have the names of all publics, in order, and the linked CODE, DATA and STACK must have
    /// at most 65535 bytes each.
    ///
    /// # Errors
    /// `TooManyExternals` exactly if more than 65536 names are undeclared; `Memory` only if memory
    /// runs out.
    pub(crate) fn new(
        alloc: Global,
        joined: &'t JoinedModules<'a>,
        declared: &'t NameTable<'a>,
    ) -> Result<SymbolTables<'t, 'a>, LinkFault>
        requires names { declared.now ≡ map (λ p. p.name) (linked_publics joined.now) }
        requires segments_fit { segment_too_long joined.now ≡ None }
        ensures same { IfOk result (λ tables. tables ≡ joined.now) }
        ensures fit { OnOk result (too_many_externals joined.now ≡ None) }
        ensures fault { IfErr result (λ fault. fault ≢ LinkFault.Memory → too_many_externals joined.now ≡ Some fault) }
    {
        let publics = linked_publics(alloc, joined)?;
        let (unresolved, names) = find_unresolved(alloc, joined, declared)?;
        if unresolved.len() > MOST_EXTERNALS {
            return Err(LinkFault::TooManyExternals);
        }
        Ok(SymbolTables {
            joined,
            declared,
            publics,
            unresolved,
            names,
        })
    }

    /// The names that no module declares, in order of first sight.
    pub(crate) fn unresolved(&self) -> &[Name]
        ensures { result.now ≡ unresolved self.now }
    {
        &self.names
    }

    /// The publics of the linked module, and the names that no module declares.
    pub(crate) fn into_names(self) -> (Vec<Public>, Vec<Name>)
        ensures publics { result.0.items ≡ linked_publics self.entry }
        ensures names { result.1.items ≡ unresolved self.entry }
    {
        (self.publics, self.names)
    }

    /// What LINK makes of a reference to this target in `source`, the module with index `number`;
    /// the target must exist there.
    pub(crate) fn reference(&self, number: usize, source: &Module, target: Target) -> Reference
        requires here { slice_get self.now number ≡ Some source.now }
        requires there { has_target source.now.commons (length source.now.externals) target ≡ true }
        ensures { result ≡ linked_reference self.now (number, source.now) target }
    {
        match target {
            Target::Segment(id) => to_place(
                self.joined.linked_id(source, id),
                self.joined.linked_offset(number, id, 0),
            ),
            Target::External(index) => self.reference_to(source.externals()[usize::from(
                index,
            )].bytes()),
        }
    }

    /// What LINK makes of a reference to an external with this name, which some module must have:
    /// one to the public of that name, or to the linked module's external.
    fn reference_to(&self, name: &[u8]) -> Reference
        requires { is_among (flat_map (λ m. m.externals) self.now) name.now ≡ true }
        ensures { result ≡ to_public self.now name.now (public_of self.now name.now) }
    {
        if let Some(number) = self.declared.number_of(name) {
            let public = &self.publics[number];
            return to_place(public.segment, public.offset);
        }
        match self.unresolved.number_of(name) {
            Some(index) => Reference {
                word: 0,
                target: Some(Target::External(index as u16)),
            },
            None => unreachable!(),
        }
    }
}
