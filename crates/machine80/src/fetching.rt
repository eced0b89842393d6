//! Fetches an instruction from a processor's memory, inside the code.

ghost use Rattle.std.specs.Prelude.{◌≡◌, ◌+◌, ◌&&◌, [], ◌∷◌, nat_le, slice_index};
ghost use Rattle.decode80.specs.Fetch.{all_code};
ghost use Rattle.image80.specs.Range.{in_ranges};
ghost use Rattle.image80.specs.Regions.{in_code};
ghost use Rattle.machine80.specs.Step.{fetch};

use crate::bus::Bus;
use decode80::{Fetched, Program};
use image80::{Range, Regions};

/// A memory as a program whose code is that of the regions, in any number of ranges.
#[derive_where(Clone, Copy)]
struct InRegions<'a, B> {
    bus: &'a B,
    regions: &'a Regions,
}

impl<'a, B: Bus> Program for InRegions<'a, B> {
    ghost code = { λ p. in_code p.regions.now };

    ghost held = { λ p address. slice_index (B.memory p.bus.now) address };

    #[inline]
    /// Whether the address is in the regions' code.
    fn is_code(&self, address: u16) -> bool {
        self.regions.in_code(address)
    }

    #[inline]
    /// The byte of the memory at the address.
    fn byte(&self, address: u16) -> u8 {
        self.bus.load(address)
    }
}

/// A memory as a program whose code is one range, as that of most programs: whether an instruction lies in the code
/// is one test.
#[derive_where(Clone, Copy)]
struct InRange<'a, B> {
    bus: &'a B,
    code: Range,
}

impl<'a, B: Bus> Program for InRange<'a, B> {
    ghost code = { λ p. in_ranges (p.code ∷ []) };

    ghost held = { λ p address. slice_index (B.memory p.bus.now) address };

    #[inline]
    /// Whether the address is in the one range of code.
    fn is_code(&self, address: u16) -> bool {
        self.code.contains(address)
    }

    #[inline]
    /// The byte of the memory at the address.
    fn byte(&self, address: u16) -> u8 {
        self.bus.load(address)
    }

    #[inline]
    /// Whether `count` bytes from the address on are in the range and none of them is past FFFF.
    fn all_code(&self, address: u16, count: usize) -> bool {
        let first = usize::from(address);
        first + count <= 65536 && spans(self.code, first, first + count)
    }
}

/// Whether a range contains all addresses from `first` up to, but without, `end`.
#[inline]
fn spans(range: Range, first: usize, end: usize) -> bool
    ensures { result ≡ (nat_le range.first first && nat_le end (range.first + range.length)) }
{
    let start = usize::from(range.first);
    start <= first && end <= start + usize::from(range.length)
}

/// The instruction at an address and the address after it; `None` if its first byte is unused, or if one of its
/// bytes is no code or lies past FFFF.
#[inline(always)]
#[tactic(auto, unfolding(crate::specs::Step::fetch))]
pub fn fetch<B: Bus>(address: u16, bus: &B, regions: &Regions) -> Option<Fetched>
    ensures { result ≡ fetch regions.now (B.memory bus.now) address }
{
    match regions.code() {
        [only] => decode80::fetch(address, &InRange { bus, code: *only }).ok(),
        _ => fetch_in_regions(address, bus, regions),
    }
}

/// Fetches as [`fetch`] does, from code of any number of ranges, which few programs have. It is a function of its own
/// so that [`fetch`] stays short enough to be inlined into each step.
#[inline(never)]
#[tactic(auto, unfolding(crate::specs::Step::fetch))]
fn fetch_in_regions<B: Bus>(address: u16, bus: &B, regions: &Regions) -> Option<Fetched>
    ensures { result ≡ fetch regions.now (B.memory bus.now) address }
{
    decode80::fetch(address, &InRegions { bus, regions }).ok()
}
