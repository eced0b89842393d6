//! A module that keeps the rules.

use crate::canonical_segments::canonical_segments;
use crate::content::Content;
use crate::copies::{copy_commons, copy_contents, copy_names, copy_publics};
use crate::fault::PartsFault;
use crate::name_invariants::assert_names;
use crate::parts::Parts;
use crate::rules::{has_segment, keeps_fixup_rules, keeps_rules_but_for_fixups, segment_in};
use crate::segment::Segment;
use crate::symbols::{Common, Public};
use omf_core::Name;
use std::alloc::{AllocError, Global};
use std::marker::Model;

/// A relocatable module that keeps the rules of the standard: what is used exists, nothing is listed twice,
/// contents lie within their segments, and the fixups in each lie within it and share no byte.
/// (8080 Object Module Formats, module.)
#[derive(Debug, Drop)]
pub struct Module {
    /// The module's name.
    name: Name,
    /// The ids and sizes of the segments, in ascending order of ids.
    segments: Vec<(u8, Segment)>,
    /// The named commons.
    commons: Vec<Common>,
    /// The names that the module declares public.
    publics: Vec<Public>,
    /// The names of other modules that fixups refer to by index.
    externals: Vec<Name>,
    /// The bytes of the segments, with their fixups.
    contents: Vec<Content>,
    /// The segment id and the offset where the program starts, if the module is a main program.
    start: Option<(u8, u16)>,
}

impl Model for Module {
    ghost use Rattle.omf_model.specs.Modules.{ModuleValue};

    ghost Value = { ModuleValue };

    ghost use Rattle.omf_model.specs.Rules.{IsModule};

    ghost view = { λ m. record {
      name = m.name;
      segments = m.segments.items;
      commons = m.commons.items;
      publics = m.publics.items;
      externals = m.externals.items;
      contents = m.contents.items;
      start = m.start;
    } };

    ghost invariant = { λ m. IsModule (record {
      name = m.name;
      segments = m.segments.items;
      commons = m.commons.items;
      publics = m.publics.items;
      externals = m.externals.items;
      contents = m.contents.items;
      start = m.start;
    }) };
}

impl Module {
    ghost use Rattle.std.specs.Prelude.{◌≡◌, ◌≤◌, length, false, Err, IfOk, IfErr, OnOk, IsTrue};
    ghost use Rattle.omf_model.specs.declared.fault.PartsFault.TheVariants.{Rule, Memory};
    ghost use Rattle.omf_model.specs.Segments.{canonical_segments};
    ghost use Rattle.omf_model.specs.Modules.{made_of, segment_of};
    ghost use Rattle.omf_model.specs.Rules.{keeps_rules, keeps_rules_but_for_fixups, has_names, IsModule};

    /// The module of these parts. The order of `segments` doesn't matter, nor whether a segment
    /// without bytes that isn't paged is among them.
    ///
    /// # Errors
    /// `Rule` exactly if the parts break a rule: an id that is used is of no segment that the
    /// module has (ids 0 to 4 and 255 always exist, 6 to 254 if a common has it); an id stands
    /// twice in `segments` or in `commons`, or a common's name twice; a common's id is outside 6 to
    /// 254; a content is in STACK, passes the end of its segment (of absolute bytes: 65536) or has
    /// more than 65531 bytes; a fixup's bytes aren't all in its content, or one of them is another
    /// fixup's; an external index isn't below the number of externals. `Memory` only if memory runs
    /// out, and the parts keep all rules but perhaps those of fixups. After either, the parts are
    /// given back.
    pub fn from_parts(alloc: Global, parts: Parts) -> Result<Module, (Parts, PartsFault)>
        ensures made { IfOk result (λ m. m ≡ made_of parts) }
        ensures kept { OnOk result (IsTrue (keeps_rules parts)) }
        ensures rule { IfErr result (λ e. e.1 ≡ Rule → keeps_rules parts ≡ false) }
        ensures memory { IfErr result (λ e. e.1 ≡ Memory → IsTrue (keeps_rules_but_for_fixups parts)) }
        ensures back { IfErr result (λ e. e.0 ≡ parts) }
    {
        if !keeps_rules_but_for_fixups(&parts) {
            return Err((parts, PartsFault::Rule));
        }
        match keeps_fixup_rules(alloc, &parts) {
            Ok(true) => {}
            Ok(false) => return Err((parts, PartsFault::Rule)),
            Err(_) => return Err((parts, PartsFault::Memory)),
        }
        let segments = match canonical_segments(alloc, &parts.segments, &parts.commons) {
            Ok(segments) => segments,
            Err(_) => return Err((parts, PartsFault::Memory)),
        };
        assert_names(&parts);
        Ok(Module::with_segments(parts, segments))
    }

    /// The module of these parts, which must keep all rules. `Err` only if memory runs out.
    pub fn from_sound_parts(alloc: Global, parts: Parts) -> Result<Module, AllocError>
        requires { IsTrue (keeps_rules parts) }
        ensures { IfOk result (λ m. m ≡ made_of parts) }
    {
        let segments = canonical_segments(alloc, &parts.segments, &parts.commons)?;
        assert_names(&parts);
        Ok(Module::with_segments(parts, segments))
    }

    /// The module of these parts with `segments` in place of theirs. The parts must keep all rules,
    /// and `segments` must be the canonical list of theirs.
    fn with_segments(parts: Parts, segments: Vec<(u8, Segment)>) -> Module
        requires rules { IsTrue (keeps_rules parts) }
        requires names { IsTrue (has_names parts) }
        requires canonical { segments.items ≡ canonical_segments parts.segments parts.commons }
        ensures { result ≡ made_of parts }
    {
        Module {
            name: parts.name,
            segments,
            commons: parts.commons,
            publics: parts.publics,
            externals: parts.externals,
            contents: parts.contents,
            start: parts.start,
        }
    }

    /// A copy of the module.
    ///
    /// # Errors
    /// `AllocError` only if memory runs out.
    pub fn copy(&self, alloc: Global) -> Result<Module, AllocError>
        ensures { IfOk result (λ m. m ≡ self.now) }
    {
        let name = self.name.copy(alloc)?;
        let segments = Vec::from_slice(alloc, &self.segments)?;
        let commons = copy_commons(alloc, &self.commons)?;
        let publics = copy_publics(alloc, &self.publics)?;
        let externals = copy_names(alloc, &self.externals)?;
        let contents = copy_contents(alloc, &self.contents)?;
        Ok(Module {
            name,
            segments,
            commons,
            publics,
            externals,
            contents,
            start: Module::start(self),
        })
    }

    /// The module's name.
    pub fn name(&self) -> &Name
        ensures { result.now ≡ self.now.name }
    {
        &self.name
    }

    /// The segment with this id, or `None` if the module has none. The absolute segment has length
    /// 0.
    pub fn segment(&self, id: u8) -> Option<Segment>
        ensures { result ≡ segment_of self.now id }
    {
        if has_segment(&self.commons, id) {
            Some(segment_in(&self.segments, id))
        } else {
            None
        }
    }

    /// The ids and sizes of the segments as a module's header lists them: in ascending order of ids, every named
    /// common, and of the others those that have bytes or are paged; 255 at most.
    pub fn segments(&self) -> &[(u8, Segment)]
        ensures value { result.now ≡ self.now.segments }
        ensures rules { IsModule self.now }
        ensures few { length self.now.segments ≤ 255 }
    {
        self.segments.as_slice()
    }

    /// The named commons, in the order of the records.
    pub fn commons(&self) -> &[Common]
        ensures value { result.now ≡ self.now.commons }
        ensures rules { IsModule self.now }
    {
        self.commons.as_slice()
    }

    /// The names that the module declares public, in order, with their places.
    pub fn publics(&self) -> &[Public]
        ensures value { result.now ≡ self.now.publics }
        ensures rules { IsModule self.now }
    {
        self.publics.as_slice()
    }

    /// The names of other modules that fixups refer to; a fixup has the index in this list.
    pub fn externals(&self) -> &[Name]
        ensures value { result.now ≡ self.now.externals }
        ensures rules { IsModule self.now }
    {
        self.externals.as_slice()
    }

    /// The bytes of the segments and the fixups in them, in the order of the records.
    pub fn contents(&self) -> &[Content]
        ensures value { result.now ≡ self.now.contents }
        ensures rules { IsModule self.now }
    {
        self.contents.as_slice()
    }

    /// The segment id and the offset where the program starts, or `None` if the module is no main
    /// program.
    pub fn start(&self) -> Option<(u8, u16)>
        ensures value { result ≡ self.now.start }
        ensures rules { IsModule self.now }
    {
        self.start
    }
}
