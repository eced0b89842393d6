//! Where the parts of CODE, DATA and STACK start: one after another, in module order.

ghost use Rattle.std.specs.Prelude.{◌≡◌, ◌≢◌, ◌<◌, ◌≤◌, None, Some, is_some, length, slice_get, slice_index, IfSome, IfOk, IfErr, OnOk, IsTrue};
ghost use Rattle.omf_model.specs.Segments.{has_segment, is_fixed_id, segment_in};
ghost use Rattle.omf_model.specs.Place.{is_laid_out, part_start};
ghost use Rattle.link80.specs.Linked.{moved, parts_end};
ghost use Rattle.link80.specs.LinkFault.{segment_too_long};
ghost use Rattle.link80.specs.Starts.{laid_out, next_part};

use crate::fault::LinkFault;
use crate::modules::Modules;
use omf_core::segment_id::{ABSOLUTE, CODE, DATA, STACK};
use omf_model::{Module, Segment};
use std::alloc::Global;
use std::marker::Model;

/// The parts of one segment that modules contribute to the linked module, one after another.
#[derive(Drop)]
pub(crate) struct LaidOut {
    /// For each module, the offset at which its part starts.
    starts: Vec<u16>,
    /// The offset after the last part.
    end: u16,
}

impl Model for LaidOut {
    ghost use Rattle.link80.specs.Starts.{LaidOutValue};

    ghost Value = { LaidOutValue };

    ghost view = { λ l. record { starts = l.starts.items; end = l.end } };
}

/// The module's segment with this id, which the module must have.
pub(crate) fn segment_of(source: &Module, id: u8) -> Segment
    requires { IsTrue (has_segment source.now.commons id) }
    ensures { result ≡ segment_in source.now.segments id }
{
    match source.segment(id) {
        Some(segment) => segment,
        None => unreachable!(),
    }
}

/// The start and the end offset of a part that is laid after offset `before`; a paged one starts at
/// the next multiple of 256. `None` if it would end above 65535.
fn next_part(before: u16, segment: Segment) -> Option<(u16, u16)>
    ensures { result ≡ next_part before segment }
{
    let before = u32::from(before);
    let start = if segment.paged {
        (before + 255) / 256 * 256
    } else {
        before
    };
    let end = start + u32::from(segment.length);
    if end <= 65535 {
        Some((start as u16, end as u16))
    } else {
        None
    }
}

impl LaidOut {
    /// Lays out the parts that the modules have of segment `id`, one after another. `id` must be
    /// that of CODE, DATA, STACK, MEMORY or the unnamed common.
    ///
    /// # Errors
    /// `SegmentTooLong` exactly if they need more than 65535 bytes; `Memory` only if memory runs
    /// out.
    fn new(alloc: Global, modules: &Modules, id: u8) -> Result<LaidOut, LinkFault>
        requires { IsTrue (is_fixed_id id) }
        ensures laid { IfOk result (λ l. l ≡ laid_out modules.now id) }
        ensures fits { OnOk result (parts_end id 0 modules.now ≤ 65535) }
        ensures fault { IfErr result (λ fault. fault ≢ LinkFault.Memory
            → (fault ≡ LinkFault.SegmentTooLong id) × (65535 < parts_end id 0 modules.now)) }
    {
        let mut starts = Vec::new(alloc);
        let mut end = 0;
        for number in 0..modules.len() {
            match next_part(end, segment_of(modules.get(number), id)) {
                Some((start, next)) => {
                    starts.push(start)?;
                    end = next;
                }
                None => return Err(LinkFault::SegmentTooLong(id)),
            }
        }
        Ok(LaidOut { starts, end })
    }

    /// The offset at which the part of the module with index `number` starts. `number` must be
    /// below the number of modules.
    fn start(&self, number: usize) -> u16
        requires { number < length self.now.starts }
        ensures { result ≡ slice_index self.now.starts number }
    {
        self.starts[number]
    }

    /// The offset after the last part.
    pub(crate) fn end(&self) -> u16
        ensures { result ≡ self.now.end }
    {
        self.end
    }
}

/// Modules whose parts of CODE, DATA and STACK are laid out, each one after another. A contract
/// sees the modules.
#[derive(Drop)]
pub(crate) struct LaidModules<'a> {
    /// The modules, in order.
    modules: &'a Modules<'a>,
    /// The parts of CODE.
    code: LaidOut,
    /// The parts of DATA.
    variables: LaidOut,
    /// The parts of STACK.
    stack: LaidOut,
}

impl<'a> Model for LaidModules<'a> {
    ghost use Rattle.std.specs.Prelude.{List};
    ghost use Rattle.omf_model.specs.Modules.{ModuleValue};
    ghost use Rattle.link80.specs.Starts.{AreLaid};

    ghost Value = { List ModuleValue };

    ghost view = { λ l. l.modules.now };

    ghost invariant = { λ l. AreLaid l.modules.now l.code l.variables l.stack };
}

impl<'a> LaidModules<'a> {
    /// Lays out the parts of CODE, DATA and STACK of the modules.
    ///
    /// # Errors
    /// `SegmentTooLong` with the first of CODE, DATA and STACK, by its id, whose parts need more
    /// than 65535 bytes; `Memory` only if memory runs out.
    pub(crate) fn new(alloc: Global, modules: &'a Modules<'a>) -> Result<LaidModules<'a>, LinkFault>
        ensures same { IfOk result (λ laid. laid ≡ modules.now) }
        ensures fit { OnOk result (segment_too_long modules.now ≡ None) }
        ensures fault { IfErr result (λ fault. fault ≢ LinkFault.Memory → segment_too_long modules.now ≡ Some fault) }
    {
        let code = LaidOut::new(alloc, modules, CODE)?;
        let variables = LaidOut::new(alloc, modules, DATA)?;
        let stack = LaidOut::new(alloc, modules, STACK)?;
        Ok(LaidModules {
            modules,
            code,
            variables,
            stack,
        })
    }

    /// The number of modules.
    pub(crate) fn len(&self) -> usize
        ensures { result ≡ length self.now }
    {
        self.modules.len()
    }

    /// The module with this index, which must be below the number of modules.
    pub(crate) fn get(&self, number: usize) -> &'a Module
        requires { number < length self.now }
        ensures { slice_get self.now number ≡ Some result.now }
    {
        self.modules.get(number)
    }

    /// The layout of CODE, DATA or STACK; `None` for other ids, as the parts of other segments
    /// overlay one another.
    pub(crate) fn parts_of(&self, id: u8) -> Option<&LaidOut>
        ensures laid { IfSome result (λ laid. laid.now ≡ laid_out self.now id) }
        ensures which { is_some result ≡ is_laid_out id }
    {
        match id {
            CODE => Some(&self.code),
            DATA => Some(&self.variables),
            STACK => Some(&self.stack),
            _ => None,
        }
    }

    /// The offset at which the part of the module with index `number` starts in the linked segment
    /// `id`: 0 but for CODE, DATA and STACK. `number` must be below the number of modules.
    pub(crate) fn start(&self, number: usize, id: u8) -> u16
        requires { number < length self.now }
        ensures { result ≡ part_start self.now number id }
    {
        match self.parts_of(id) {
            Some(parts) => parts.start(number),
            None => 0,
        }
    }

    /// The offset in the linked segment of an offset in segment `id` of the module with index
    /// `number`: the start of the module's part is added, modulo 65536. Absolute offsets stay as
    /// they are, and so do those in STACK, which count from its top. `number` must be below the
    /// number of modules.
    pub(crate) fn linked_offset(&self, number: usize, id: u8, offset: u16) -> u16
        requires { number < length self.now }
        ensures { result ≡ moved self.now number id offset }
    {
        match id {
            ABSOLUTE | STACK => offset,
            _ => offset.wrapping_add(self.start(number, id)),
        }
    }
}
