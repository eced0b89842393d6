//! Where the parts of a module start in the linked segments.

ghost use Rattle.std.specs.Prelude.{◌≡◌, ◌<◌, ◌+◌, ◌*◌, ◌≤◌, ◌%◌, ◌++◌, ◌∷◌, [], List, length, map, take, IsTrue};
ghost use Rattle.omf_model.specs.Modules.{ModuleValue};
ghost use Rattle.omf_model.specs.Place.{part_start, is_laid_out, rounded};
ghost use Rattle.link80.specs.Linked.{moved, parts_end};
ghost use Rattle.link80_text.specs.Ends.{AreEnds, AreNear};

use omf_core::segment_id::{CODE, DATA};
use omf_model::{Module, Segment, segment_in};
use std::marker::Model;

/// Where the parts of one of the linked modules start in the linked CODE and DATA. A contract sees
/// the modules and the index.
#[derive(Drop)]
pub(crate) struct PartStarts<'a, 'b> {
    /// All modules that are linked, in order.
    modules: &'b [&'a Module],
    /// The index of the module whose parts these are.
    number: usize,
    /// The offset at which its part of CODE starts, modulo 65536.
    code: u16,
    /// The offset at which its part of DATA starts, modulo 65536.
    variables: u16,
}

impl<'a, 'b> Model for PartStarts<'a, 'b> {
    ghost use Rattle.std.specs.Prelude.{◌≡◌, ◌<◌, ℕ, List, length, map};
    ghost use Rattle.omf_model.specs.Modules.{ModuleValue};
    ghost use Rattle.link80.specs.Linked.{moved};

    ghost Value = { List ModuleValue × ℕ };

    ghost view = { λ s. (map (λ m. m.now) s.modules.now, s.number) };

    ghost invariant = { λ s. (s.number < length s.modules.now)
        × (s.code ≡ moved (map (λ m. m.now) s.modules.now) s.number 1 0)
        × (s.variables ≡ moved (map (λ m. m.now) s.modules.now) s.number 2 0) };
}

impl<'a, 'b> PartStarts<'a, 'b> {
    /// The starts of the parts of the module with index `number`; `ends` must be the ends of the
    /// parts of the modules before it. `number` must be below the number of modules.
    pub(crate) fn new(
        modules: &'b [&'a Module],
        number: usize,
        ends: PartEnds,
    ) -> PartStarts<'a, 'b>
        requires number { number < length modules.now }
        requires near { AreNear number ends }
        requires ends { AreEnds (map (λ m. m.now) (take number modules.now)) ends }
        ensures { result ≡ (map (λ m. m.now) modules.now, number) }
    {
        PartStarts {
            modules,
            number,
            code: moved_start(modules, number, CODE, ends.code),
            variables: moved_start(modules, number, DATA, ends.variables),
        }
    }

    /// The offset at which the module's part of the linked segment `id` starts, modulo 65536; 0 but
    /// for CODE and DATA, as offsets in STACK count from its top.
    pub(crate) fn start(&self, id: u8) -> u16
        ensures { result ≡ moved self.now.0 self.now.1 id 0 }
    {
        match id {
            CODE => self.code,
            DATA => self.variables,
            _ => 0,
        }
    }
}

/// The offset, modulo 65536, at which the part of segment `id` of the module with index `number`
/// starts, if the part before it ends at offset `end`. `number` must be below the number of
/// modules, and `id` be that of CODE, DATA or STACK; `end` must be that end, and at most 65790
/// times `number`.
fn moved_start(modules: &[&Module], number: usize, id: u8, end: u128) -> u16
    requires number { number < length modules.now }
    requires laid { IsTrue (is_laid_out id) }
    requires end { end ≡ parts_end id 0 (map (λ m. m.now) (take number modules.now)) }
    requires near { end ≤ 65790 * number }
    ensures { result ≡ part_start (map (λ m. m.now) modules.now) number id % 65536 }
{
    let part = segment_in(modules[number].segments(), id);
    (round_up(end, part.paged) % 65536) as u16
}

/// The offsets after the last part of CODE and of DATA, with the parts of some modules laid one
/// after another.
#[derive(Clone, Copy)]
pub(crate) struct PartEnds {
    /// The end of the parts of CODE.
    pub code: u128,
    /// The end of the parts of DATA.
    pub variables: u128,
}

impl PartEnds {
    /// The ends for no modules: both 0.
    pub(crate) fn none() -> PartEnds
        ensures near { AreNear 0 result }
        ensures ends { AreEnds [] result }
    {
        PartEnds {
            code: 0,
            variables: 0,
        }
    }

    /// The ends if the parts of `source` are laid after these; `number` is its index, the number of
    /// modules before it. These ends must be at most 65790 times `number`, and the new ones keep
    /// that limit with `source` counted.
    pub(crate) fn with(self, source: &Module, number: usize) -> PartEnds
        requires { AreNear number self }
        ensures near { AreNear (number + 1) result }
        ensures ends { (before : List ModuleValue) → AreEnds before self → AreEnds (before ++ source.now ∷ []) result }
    {
        PartEnds {
            code: end_with(self.code, segment_in(source.segments(), CODE)),
            variables: end_with(self.variables, segment_in(source.segments(), DATA)),
        }
    }
}

/// The end of a part that is laid after offset `before`; a paged one starts at the next multiple of
/// 256. `before` must be so small that no `u128` overflows.
fn end_with(before: u128, part: Segment) -> u128
    requires { before + 255 < 340282366920938463463374607431768145920 }
    ensures { result ≡ rounded part.paged before + part.length }
{
    round_up(before, part.paged) + u128::from(part.length)
}

/// The start of a part that is laid after offset `before`: the next multiple of 256 for a paged
/// one, `before` for others. `before` must be so small that no `u128` overflows.
fn round_up(before: u128, paged: bool) -> u128
    requires { before + 255 < 340282366920938463463374607431768211456 }
    ensures { result ≡ rounded paged before }
{
    if paged {
        (before + 255) / 256 * 256
    } else {
        before
    }
}
