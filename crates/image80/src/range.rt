//! Ranges of addresses.

ghost use Rattle.std.specs.Prelude.{◌≡◌};
ghost use Rattle.image80.specs.Range.{in_range, in_ranges};
ghost use Rattle.image80.specs.Regions.{AreApart};

/// Consecutive addresses: `length` of them from `first` on.
///
/// A range that lies in memory ends at or below 65536, the first address past memory.
#[derive(Clone, Copy, Debug, PartialEq, Eq)]
pub struct Range {
    /// The lowest address.
    pub first: u16,
    /// The number of addresses, 0 for an empty range.
    pub length: u16,
}

impl Range {
    /// Whether the address lies in the range.
    #[inline]
    pub fn contains(&self, address: u16) -> bool
        ensures { result ≡ in_range self.now address }
    {
        self.first <= address && address - self.first < self.length
    }
}

/// Whether an address lies in one of the ranges, which must be ascending, disjoint and not empty. A single range, as
/// most programs have it, is checked at once; others by binary search.
#[inline]
pub(crate) fn in_ranges(ranges: &[Range], address: u16) -> bool
    requires { AreApart ranges.now }
    ensures { result ≡ in_ranges ranges.now address }
{
    match ranges {
        [only] => only.contains(address),
        _ => in_many_ranges(ranges, address),
    }
}

/// Whether an address lies in one of the ranges, which must be ascending, disjoint and not empty; a binary search.
#[inline(never)]
fn in_many_ranges(ranges: &[Range], address: u16) -> bool
    requires { AreApart ranges.now }
    ensures { result ≡ in_ranges ranges.now address }
{
    match ranges.binary_search_by_key(&address, |range| range.first) {
        Ok(_) => true,
        Err(place) => place > 0 && ranges[place - 1].contains(address),
    }
}
