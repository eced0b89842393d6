//! The parts that a module is made of.

use crate::content::Content;
use crate::segment::Segment;
use crate::symbols::{Common, Public};
use omf_core::Name;
use std::marker::Model;

/// What a module is made of: [`Module::from_parts`](crate::Module::from_parts) checks the rules. A
/// segment that isn't listed has length 0 and isn't paged; an entry for id 0 is ignored.
#[derive(Debug, Drop)]
pub struct Parts {
    /// The module's name.
    pub name: Name,
    /// The ids and sizes of the segments.
    pub segments: Vec<(u8, Segment)>,
    /// The named commons.
    pub commons: Vec<Common>,
    /// The names that the module declares public.
    pub publics: Vec<Public>,
    /// The names of other modules that fixups refer to by index.
    pub externals: Vec<Name>,
    /// The bytes of the segments, with their fixups.
    pub contents: Vec<Content>,
    /// The segment id and the offset where the program starts, if the module is a main program.
    pub start: Option<(u8, u16)>,
}

impl Model for Parts {
    ghost use Rattle.omf_model.specs.Modules.{ModuleValue};

    ghost Value = { ModuleValue };

    ghost view = { λ p. record {
      name = p.name;
      segments = p.segments.items;
      commons = p.commons.items;
      publics = p.publics.items;
      externals = p.externals.items;
      contents = p.contents.items;
      start = p.start;
    } };
}
