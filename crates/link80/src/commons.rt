//! The ids of segments in the linked module: those of named commons go by their names.

ghost use Rattle.std.specs.Prelude.{◌≡◌, ◌≢◌, ◌<◌, ◌≤◌, [], None, Some, is_some, length, slice_get, IfOk, IfErr, IfSome, OnOk};
ghost use Rattle.omf_model.specs.Segments.{is_fixed_id};
ghost use Rattle.omf_model.specs.Place.{common_name, is_laid_out, part_start};
ghost use Rattle.link80.specs.FirstSight.{number_in, with_names};
ghost use Rattle.link80.specs.Linked.{common_names, linked_commons, linked_id, moved, names_of_commons, parts_end};
ghost use Rattle.link80.specs.LinkFault.{too_many_commons};

use crate::fault::LinkFault;
use crate::name_table::{NameTable, add_name};
use crate::starts::LaidModules;
use omf_core::Name;
use omf_core::segment_id::FIRST_COMMON;
use omf_library::NameHashes;
use omf_model::{Common, Module, common_name, is_fixed_id};
use std::alloc::{AllocError, Global};
use std::marker::Model;

/// The number of ids for named commons, 6 to 254.
const MOST_COMMONS: usize = 249;

/// Appends the names of a module's named commons that are new to `names`, and copies of them to
/// `copies`. `Err` only if memory runs out.
fn add_commons<'a>(
    alloc: Global,
    names: &mut NameTable<'a>,
    copies: &mut Vec<Name>,
    source: &'a Module,
) -> Result<(), AllocError>
    ensures names { OnOk result (names.new ≡ with_names names.old (names_of_commons source.now)) }
    ensures copies { OnOk result (copies.old.items ≡ names.old → copies.new.items ≡ names.new) }
{
    for common in source.commons() {
        add_name(alloc, names, copies, &common.name)?;
    }
    Ok(())
}

/// The names of all named commons of the modules, each once, in order of first sight: as a table,
/// and as a list of copies.
///
/// # Errors
/// `AllocError` only if memory runs out.
fn common_names<'a>(
    alloc: Global,
    modules: &LaidModules<'a>,
) -> Result<(NameTable<'a>, Vec<Name>), AllocError>
    ensures names { IfOk result (λ names. names.0 ≡ common_names modules.now) }
    ensures copies { IfOk result (λ names. names.1.items ≡ common_names modules.now) }
{
    let mut names = NameTable::new(alloc, common_hashes(modules));
    let mut copies = Vec::new(alloc);
    for number in 0..modules.len() {
        add_commons(alloc, &mut names, &mut copies, modules.get(number))?;
    }
    Ok((names, copies))
}

/// The hashes for a table of the names of all named commons.
fn common_hashes(modules: &LaidModules<'_>) -> NameHashes {
    let mut hashes = NameHashes::new();
    for number in 0..modules.len() {
        feed_commons(&mut hashes, modules.get(number));
    }
    hashes
}

/// Feeds the names of a module's named commons to `hashes`.
fn feed_commons(hashes: &mut NameHashes, source: &Module) {
    for common in source.commons() {
        hashes.feed(&common.name);
    }
}

/// Modules whose parts are laid out and whose named commons have ids in the linked module. A
/// contract sees the modules.
#[derive(Drop)]
pub(crate) struct JoinedModules<'a> {
    /// The modules, with their parts laid out.
    laid: &'a LaidModules<'a>,
    /// The names of the commons in order of first sight; each has the id 6 + its index.
    commons: NameTable<'a>,
    /// Copies of the same names in the same order.
    names: Vec<Name>,
}

impl<'a> Model for JoinedModules<'a> {
    ghost use Rattle.std.specs.Prelude.{◌≡◌, None, List};
    ghost use Rattle.omf_model.specs.Modules.{ModuleValue};
    ghost use Rattle.link80.specs.Linked.{common_names};
    ghost use Rattle.link80.specs.LinkFault.{too_many_commons};

    ghost Value = { List ModuleValue };

    ghost view = { λ j. j.laid.now };

    ghost invariant = { λ j. (j.commons ≡ common_names j.laid.now) × (j.names.items ≡ common_names j.laid.now)
        × (too_many_commons j.laid.now ≡ None) };
}

impl<'a> JoinedModules<'a> {
    /// Gives the named commons of the modules their ids in the linked module.
    ///
    /// # Errors
    /// `TooManyCommons` exactly if there are more than 249 different names; `Memory` only if memory
    /// runs out.
    pub(crate) fn new(
        alloc: Global,
        laid: &'a LaidModules<'a>,
    ) -> Result<JoinedModules<'a>, LinkFault>
        ensures same { IfOk result (λ joined. joined ≡ laid.now) }
        ensures fit { OnOk result (too_many_commons laid.now ≡ None) }
        ensures fault { IfErr result (λ fault. fault ≢ LinkFault.Memory → too_many_commons laid.now ≡ Some fault) }
    {
        let (commons, names) = common_names(alloc, laid)?;
        if commons.len() > MOST_COMMONS {
            return Err(LinkFault::TooManyCommons);
        }
        Ok(JoinedModules {
            laid,
            commons,
            names,
        })
    }

    /// The number of modules.
    pub(crate) fn len(&self) -> usize
        ensures { result ≡ length self.now }
    {
        self.laid.len()
    }

    /// The module with this index, which must be below the number of modules.
    pub(crate) fn get(&self, number: usize) -> &'a Module
        requires { number < length self.now }
        ensures { slice_get self.now number ≡ Some result.now }
    {
        self.laid.get(number)
    }

    /// The offset at which the part of the module with index `number` starts in the linked segment
    /// `id`: 0 but for CODE, DATA and STACK. `number` must be below the number of modules.
    pub(crate) fn start(&self, number: usize, id: u8) -> u16
        requires { number < length self.now }
        ensures { result ≡ part_start self.now number id }
    {
        self.laid.start(number, id)
    }

    /// The offset in the linked segment of an offset in segment `id` of the module with index
    /// `number`: the start of the module's part is added, modulo 65536, but for absolute bytes and
    /// STACK. `number` must be below the number of modules.
    pub(crate) fn linked_offset(&self, number: usize, id: u8, offset: u16) -> u16
        requires { number < length self.now }
        ensures { result ≡ moved self.now number id offset }
    {
        self.laid.linked_offset(number, id, offset)
    }

    /// The end of the last part of the linked segment `id`; `None` but for CODE, DATA and STACK, as
    /// the parts of other segments overlay one another.
    pub(crate) fn end_of(&self, id: u8) -> Option<u16>
        ensures end { IfSome result (λ end. end ≡ parts_end id 0 self.now) }
        ensures which { is_some result ≡ is_laid_out id }
    {
        match self.laid.parts_of(id) {
            Some(parts) => Some(parts.end()),
            None => None,
        }
    }

    /// The number of named commons in the linked module, at most 249.
    pub(crate) fn common_count(&self) -> usize
        ensures count { result ≡ length (common_names self.now) }
        ensures few { result ≤ 249 }
    {
        self.commons.len()
    }

    /// The index of the named common with this name, in order of first sight; `None` if no module
    /// has one.
    pub(crate) fn common_number(&self, name: &[u8]) -> Option<usize>
        ensures number { result ≡ number_in (common_names self.now) name.now }
        ensures within { IfSome result (λ number. number < length (common_names self.now)) }
    {
        self.commons.number_of(name)
    }

    /// The id in the linked module of a module's segment: the id of the common of the same name for
    /// a named common, the same id for others.
    pub(crate) fn linked_id(&self, source: &Module, id: u8) -> u8
        ensures { result ≡ linked_id self.now source.now id }
    {
        if is_fixed_id(id) {
            return id;
        }
        match self.commons.number_of(common_name(source.commons(), id)) {
            Some(number) => FIRST_COMMON + number as u8,
            None => 0,
        }
    }

    /// The named commons of the linked module, with ids from 6 on. `Err` only if memory runs out.
    pub(crate) fn linked_commons(&self, alloc: Global) -> Result<Vec<Common>, AllocError>
        ensures { IfOk result (λ commons. commons.items ≡ linked_commons self.now) }
    {
        let mut commons = Vec::new(alloc);
        let mut id = u64::from(FIRST_COMMON);
        for name in &self.names {
            commons.push(Common {
                id: id as u8,
                name: name.copy(alloc)?,
            })?;
            id += 1;
        }
        Ok(commons)
    }
}
