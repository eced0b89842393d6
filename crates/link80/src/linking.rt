//! Modules are linked into one.

ghost use Rattle.std.specs.Prelude.{◌≡◌, ◌≢◌, ◌<◌, [], None, map, option_copied, slice_get, IfOk, IfErr, OnOk};
ghost use Rattle.std.specs.List.{AllByRecursion, cons_option};
ghost use Rattle.omf_model.specs.Rules.{IsModule};
ghost use Rattle.link80.specs.Gathered.{mains_from};
ghost use Rattle.link80.specs.Linked.{linked, linked_parts, linked_publics, starts, unresolved};
ghost use Rattle.link80.specs.LinkFault.{duplicate_public, link_fault, segment_too_long, too_many_externals};
ghost use Rattle.link80.specs.Linking.{IsFirstFault, IsLinkOf};
ghost use Rattle.link80.specs.Selection.{IsSelection, modules_with, CannotBeLinked};
ghost use Rattle.link80_select.specs.Selected.{module_at};

use crate::commons::JoinedModules;
use crate::contents::linked_contents;
use crate::declared::declared_names;
use crate::fault::LinkFault;
use crate::high_bytes::any_high_off_page;
use crate::laws::linked_module_keeps_rules;
use crate::mains::main_of;
use crate::modules::Modules;
use crate::name_table::NameTable;
use crate::segments::linked_segments;
use crate::selecting::select;
use crate::starts::LaidModules;
use crate::symbol_tables::SymbolTables;
use link80_select::Chosen;
use omf_core::Name;
use omf_library::Library;
use omf_model::{Module, Parts, copy_names};
use std::alloc::{AllocError, Global};

/// What [`link`] makes.
#[derive(Debug, Drop)]
pub struct Linked {
    /// The linked module.
    pub module: Module,
    /// The modules that were taken from libraries, by library and, in each, by module.
    pub taken: Vec<Chosen>,
    /// The names that no module declares, which are the externals of the linked module.
    pub unresolved: Vec<Name>,
}

/// The module at this place in the libraries; `None` if there is none.
fn module_at(libraries: &[Library], place: Chosen) -> Option<&Module>
    ensures { option_copied result ≡ module_at libraries.now place }
{
    let library = libraries.get(place.library)?;
    library.modules.get(place.module)
}

/// The roots, and after them the modules that were taken. `Err` only if memory runs out.
fn modules_with<'a>(
    alloc: Global,
    roots: &'a [Module],
    libraries: &'a [Library],
    taken: &[Chosen],
) -> Result<Modules<'a>, AllocError>
    ensures { IfOk result (λ modules. modules ≡ modules_with roots.now libraries.now taken.now) }
{
    let mut modules = Modules::new(alloc);
    for root in roots {
        modules.push(root)?;
    }
    for place in taken {
        if let Some(member) = module_at(libraries, *place) {
            modules.push(member)?;
        }
    }
    Ok(modules)
}

/// The start of the linked module: that of the main program, as segment id and offset in the linked
/// module. `None` if there is no main program. `main` must be the index of the only main program,
/// or `None` if there is none.
fn start_of(tables: &SymbolTables, main: Option<usize>) -> Option<(u8, u16)>
    requires { cons_option main [] ≡ mains_from 0 tables.now }
    ensures { result ≡ slice_get (starts tables.now) 0 }
{
    let number = main?;
    let source = tables.joined.get(number);
    let (id, offset) = source.start()?;
    Some((
        tables.joined.linked_id(source, id),
        tables.joined.linked_offset(number, id, offset),
    ))
}

/// Sets the segments, the commons, the externals, the contents and the start of `parts` to those of the linked module. `main` must be the
/// index of the only main program, or `None` if there is none. `Err` only if memory runs out.
fn set_parts(
    alloc: Global,
    parts: &mut Parts,
    tables: &SymbolTables,
    main: Option<usize>,
) -> Result<(), AllocError>
    requires { cons_option main [] ≡ mains_from 0 tables.now }
    ensures parts { OnOk result (parts.new ≡ record (linked_parts parts.old.name tables.now) { publics = parts.old.publics }) }
    ensures sound { OnOk result (AllByRecursion IsModule tables.now) }
{
    parts.segments = linked_segments(alloc, tables.joined)?;
    parts.commons = tables.joined.linked_commons(alloc)?;
    parts.externals = copy_names(alloc, tables.unresolved())?;
    parts.contents = linked_contents(alloc, tables)?;
    parts.start = start_of(tables, main);
    Ok(())
}

/// The [`Parts`] of the linked module, and the names that no module declares. `main` must be the
/// index of the only main program, or `None` if there is none. `Err` only if memory runs out.
fn parts_of(
    alloc: Global,
    name: &Name,
    tables: SymbolTables,
    main: Option<usize>,
) -> Result<(Parts, Vec<Name>), AllocError>
    requires { cons_option main [] ≡ mains_from 0 tables }
    ensures parts { IfOk result (λ made. made.0 ≡ linked_parts name.now tables.entry) }
    ensures unresolved { IfOk result (λ made. made.1.items ≡ unresolved tables.entry) }
    ensures sound { OnOk result (AllByRecursion IsModule tables.entry) }
{
    let mut parts = Parts {
        name: name.copy(alloc)?,
        segments: Vec::new(alloc),
        commons: Vec::new(alloc),
        publics: Vec::new(alloc),
        externals: Vec::new(alloc),
        contents: Vec::new(alloc),
        start: None,
    };
    set_parts(alloc, &mut parts, &tables, main)?;
    let (publics, unresolved) = tables.into_names();
    parts.publics = publics;
    Ok((parts, unresolved))
}

/// The module of this name that joined modules are linked into, and the names that none of them
/// declares. `declared` must have the names of their publics, in order; `main` must be the index of
/// the only main program, or `None` if there is none. The modules must have no fault of linking but
/// `TooManyExternals`.
///
/// # Errors
/// `TooManyExternals` exactly if more than 65536 names are undeclared; `Memory` only if memory runs
/// out.
fn link_joined(
    alloc: Global,
    name: &Name,
    joined: &JoinedModules,
    declared: &NameTable,
    main: Option<usize>,
) -> Result<(Module, Vec<Name>), LinkFault>
    requires names { declared.now ≡ map (λ p. p.name) (linked_publics joined.now) }
    requires main { cons_option main [] ≡ mains_from 0 joined.now }
    requires segments_fit { segment_too_long joined.now ≡ None }
    requires no_other_fault { link_fault joined.now ≡ too_many_externals joined.now }
    ensures made { IfOk result (λ made. IsLinkOf name.now joined.now made.0 made.1.items) }
    ensures fault { IfErr result (IsFirstFault joined.now) }
{
    linked_module_keeps_rules();
    let tables = SymbolTables::new(alloc, joined, declared)?;
    let (parts, unresolved) = parts_of(alloc, name, tables, main)?;
    let linked = Module::from_sound_parts(alloc, parts)?;
    Ok((linked, unresolved))
}

/// The module of this name that laid modules are linked into, and the names that none of them
/// declares. `declared` must have the names of their publics, in order, no two the same, and the
/// linked CODE, DATA and STACK must have at most 65535 bytes each. The fault is the first of
/// `TwoMains`, `HighNotPaged`, `TooManyCommons` and `TooManyExternals`, or `Memory`.
fn link_laid(
    alloc: Global,
    name: &Name,
    laid: &LaidModules,
    declared: &NameTable,
) -> Result<(Module, Vec<Name>), LinkFault>
    requires names { declared.now ≡ map (λ p. p.name) (linked_publics laid.now) }
    requires once { duplicate_public laid.now ≡ None }
    requires segments_fit { segment_too_long laid.now ≡ None }
    ensures made { IfOk result (λ made. IsLinkOf name.now laid.now made.0 made.1.items) }
    ensures fault { IfErr result (IsFirstFault laid.now) }
{
    let main = main_of(laid)?;
    if any_high_off_page(laid) {
        return Err(LinkFault::HighNotPaged);
    }
    let joined = JoinedModules::new(alloc, laid)?;
    link_joined(alloc, name, &joined, declared, main)
}

/// The module of this name that modules are linked into, and the names that none of them declares.
/// `declared` must have the names of their publics, in order, no two the same. The fault is the
/// first but for `DuplicatePublic`, or `Memory`.
fn link_declared(
    alloc: Global,
    name: &Name,
    modules: &Modules,
    declared: &NameTable,
) -> Result<(Module, Vec<Name>), LinkFault>
    requires names { declared.now ≡ map (λ p. p.name) (linked_publics modules.now) }
    requires once { duplicate_public modules.now ≡ None }
    ensures made { IfOk result (λ made. IsLinkOf name.now modules.now made.0 made.1.items) }
    ensures fault { IfErr result (IsFirstFault modules.now) }
{
    let laid = LaidModules::new(alloc, modules)?;
    link_laid(alloc, name, &laid, declared)
}

/// The module of this name that modules are linked into, and the names that none of them declares.
/// The fault is the first of [`LinkFault`], or `Memory`.
fn link_modules(
    alloc: Global,
    name: &Name,
    modules: &Modules,
) -> Result<(Module, Vec<Name>), LinkFault>
    ensures made { IfOk result (λ made. IsLinkOf name.now modules.now made.0 made.1.items) }
    ensures fault { IfErr result (IsFirstFault modules.now) }
{
    let declared = declared_names(alloc, modules)?;
    link_declared(alloc, name, modules, &declared)
}

/// Links modules, and the modules that they need from libraries, into one of the given name.
///
/// The parts of CODE, DATA and STACK lie one after another in the order of the modules, those of
/// MEMORY and of each common overlay one another; publics and contents move with their parts;
/// references to segments and to names that are declared are resolved; the main program's start is
/// the linked module's. (ISIS-II User's Guide, LINK.)
///
/// # Example
/// ```
/// let roots = read_file(rt.alloc(), &CALLER_AND_CALLEE)?;
/// let name = Name::new(rt.alloc(), b"PROGRAM")?;
/// let linked = link(rt.alloc(), &name, &roots, &[])?;
/// assert_eq!(rt; linked.module.start(), Some((1, 0)));
/// assert!(rt; linked.taken.is_empty() && linked.unresolved.is_empty());
/// ```
///
/// # Errors
/// The first fault of the roots and the modules that are taken: `DuplicatePublic` with the first
/// public that has the name of an earlier one; `SegmentTooLong` with the first of CODE, DATA and
/// STACK that needs more than 65535 bytes; `TwoMains`; `HighNotPaged`, if a fixup refers to the
/// high byte of an address in a segment in which its module's part doesn't start at a multiple of
/// 256; `TooManyCommons`, if there are more than 249 named commons; `TooManyExternals`, if more
/// than 65536 names are used that no module declares. `Memory` only if memory runs out.
pub fn link(
    alloc: Global,
    name: &Name,
    roots: &[Module],
    libraries: &[Library],
) -> Result<Linked, LinkFault>
    ensures taken { IfOk result (λ made. IsSelection roots.now libraries.now made.taken.items) }
    ensures linked { IfOk result (λ made. made.module ≡ linked name.now (modules_with roots.now libraries.now made.taken.items)) }
    ensures unresolved { IfOk result (λ made. made.unresolved.items
        ≡ unresolved (modules_with roots.now libraries.now made.taken.items)) }
    ensures no_fault { IfOk result (λ made. link_fault (modules_with roots.now libraries.now made.taken.items) ≡ None) }
    ensures sound { IfOk result (λ made. AllByRecursion IsModule (modules_with roots.now libraries.now made.taken.items)) }
    ensures fault { IfErr result (λ fault. fault ≢ LinkFault.Memory → CannotBeLinked roots.now libraries.now fault) }
{
    let taken = select(alloc, roots, libraries)?;
    let modules = modules_with(alloc, roots, libraries, &taken)?;
    let (linked, unresolved) = link_modules(alloc, name, &modules)?;
    Ok(Linked {
        module: linked,
        taken,
        unresolved,
    })
}
