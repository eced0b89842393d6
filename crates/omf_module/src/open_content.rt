//! A content to which fixups may still come.

use crate::fault::Cause;
use crate::gathering::fixups_in;
use omf_body::Body;
use omf_model::marks::{is_free, is_inside, mark, no_marks};
use omf_model::{Content, Fixup, Parts, Target};
use std::alloc::{AllocError, Global};
use std::marker::Model;

/// A content to which fixups may still be added.
#[derive(Drop)]
pub(crate) struct OpenContent<'a> {
    /// The segment's id.
    segment: u8,
    /// The offset of the first byte in the segment.
    offset: u16,
    /// The bytes, which borrow from the file.
    bytes: &'a [u8],
    /// The fixups so far.
    fixups: Vec<Fixup>,
    /// A mark for each byte, `true` if a fixup has it.
    marks: Vec<bool>,
}

impl<'a> Model for OpenContent<'a> {
    ghost use Rattle.std.specs.Prelude.{length};
    ghost use Rattle.omf_model.specs.Contents.{ContentValue};

    ghost Value = { ContentValue };

    ghost use Rattle.omf_model.specs.Marks.{IsMarked};

    ghost view = { λ o. record { segment = o.segment; offset = o.offset; bytes = o.bytes.now; fixups = o.fixups.items } };

    ghost invariant = { λ o. IsMarked o.marks.items o.offset (length o.bytes.now) o.fixups.items };
}

impl<'a> OpenContent<'a> {
    ghost use Rattle.std.specs.Prelude.{◌≡◌, ◌≢◌, List, [], ◌∷◌, None, Some, IfOk, IfErr, OnOk};
    ghost use Rattle.omf_model.specs.Contents.{ContentValue};
    ghost use Rattle.omf_module.specs.Gathered.{fixups_in, with_fixups};
    ghost use Rattle.omf_module.specs.Uses.{fixup_fault, fixups_fault};
    ghost use Rattle.omf_module.specs.Reading.{with_contents};

    /// The content of these bytes from an offset on, without fixups. `Err` only if memory runs out.
    pub(crate) fn new(
        alloc: Global,
        segment: u8,
        offset: u16,
        bytes: &'a [u8],
    ) -> Result<OpenContent<'a>, AllocError>
        ensures { IfOk result (λ o. o ≡ record { segment = segment; offset = offset; bytes = bytes.now; fixups = [] }) }
    {
        let marks = no_marks(alloc, bytes.len())?;
        Ok(OpenContent {
            segment,
            offset,
            bytes,
            fixups: Vec::new(alloc),
            marks,
        })
    }

    /// The id of the content's segment.
    fn segment(&self) -> u8
        ensures { result ≡ self.now.segment }
    {
        self.segment
    }

    /// Adds a fixup. The fault is `FixupOutside` if it isn't inside the content, `FixupTwice` if it
    /// shares a byte with one before it, `IndexUnknown` if `parts` has no such external, or
    /// `Memory`.
    fn take(&mut self, parts: &Parts, fixup: Fixup) -> Result<(), Cause>
        ensures taken { OnOk result (self.new ≡ with_fixups self.old (fixup ∷ [])) }
        ensures sound { OnOk result ((cs : List ContentValue) → fixup_fault (with_contents parts.now cs) self.old fixup ≡ None) }
        ensures fault { IfErr result (λ why. why ≢ Cause.Memory → (cs : List ContentValue)
            → fixup_fault (with_contents parts.now cs) self.old fixup ≡ Some why) }
    {
        if !is_inside(self.offset, self.bytes.len(), fixup) {
            return Err(Cause::FixupOutside);
        }
        if !is_free(&self.marks, self.offset, fixup) {
            return Err(Cause::FixupTwice);
        }
        if let Target::External(index) = fixup.target
            && parts.externals.len() <= index as usize
        {
            return Err(Cause::IndexUnknown);
        }
        self.fixups.push(fixup)?;
        let _ = mark(&mut self.marks, self.offset, fixup);
        Ok(())
    }

    /// Adds these fixups in order, up to the first that has a fault: `FixupOutside`, `FixupTwice`,
    /// `IndexUnknown` or `Memory`.
    fn take_all(&mut self, parts: &Parts, fixups: &[Fixup]) -> Result<(), Cause>
        ensures taken { OnOk result (self.new ≡ with_fixups self.old fixups.now) }
        ensures sound { OnOk result ((cs : List ContentValue)
            → fixups_fault (with_contents parts.now cs) self.old fixups.now ≡ None) }
        ensures fault { IfErr result (λ why. why ≢ Cause.Memory → (cs : List ContentValue)
            → fixups_fault (with_contents parts.now cs) self.old fixups.now ≡ Some why) }
    {
        for fixup in fixups {
            self.take(parts, *fixup)?;
        }
        Ok(())
    }

    /// Adds the fixups of a record, in order, up to the first that has a fault: `FixupOutside`,
    /// `FixupTwice`, `IndexUnknown` or `Memory`.
    pub(crate) fn take_fixups_of(
        &mut self,
        alloc: Global,
        parts: &Parts,
        body: &Body,
    ) -> Result<(), Cause>
        ensures taken { OnOk result (self.new ≡ with_fixups self.old (fixups_in self.old.segment body.now)) }
        ensures sound { OnOk result ((cs : List ContentValue)
            → fixups_fault (with_contents parts.now cs) self.old (fixups_in self.old.segment body.now) ≡ None) }
        ensures fault { IfErr result (λ why. why ≢ Cause.Memory → (cs : List ContentValue)
            → fixups_fault (with_contents parts.now cs) self.old (fixups_in self.old.segment body.now) ≡ Some why) }
    {
        let fixups = fixups_in(alloc, self.segment(), body)?;
        self.take_all(parts, &fixups)
    }

    /// The content with the fixups that it has, its bytes copied. `Err` only if memory runs out.
    pub(crate) fn close(self, alloc: Global) -> Result<Content, AllocError>
        ensures { IfOk result (λ c. c ≡ self.entry) }
    {
        let bytes = Vec::from_slice(alloc, self.bytes)?;
        Ok(Content {
            segment: self.segment,
            offset: self.offset,
            bytes,
            fixups: self.fixups,
        })
    }
}
