//! Which region each address is in.

ghost use Rattle.std.specs.Prelude.{◌≡◌, All, length};
ghost use Rattle.image80.specs.Range.{IsInMemory, in_range, in_ranges};
ghost use Rattle.image80.specs.RegionMap.{IsMarked};

use crate::memory::zeros;
use crate::range::Range;
use crate::regions::Regions;
use std::alloc::{AllocError, Global};
use std::marker::Model;

/// The mark of an address in the code. An address in neither code nor data is marked 0.
const CODE: u8 = 1;
/// The mark of an address in the data.
const DATA: u8 = 2;

/// The code and the data of regions, by address: a byte for each of the 65536 addresses, so that a look-up takes the same
/// time for any number of ranges.
#[derive(Drop)]
pub struct RegionMap {
    /// The mark of each address.
    marks: Vec<u8>,
}

impl Model for RegionMap {
    ghost use Rattle.std.specs.Prelude.{◌≡◌, ℕ, List, length};

    ghost Value = { List ℕ };

    ghost view = { λ m. m.marks.items };

    ghost invariant = { λ m. length m.marks.items ≡ 65536 };
}

impl RegionMap {
    ghost use Rattle.std.specs.Prelude.{◌≡◌, IfOk};
    ghost use Rattle.image80.specs.RegionMap.{Maps, marks_code, marks_data};

    /// Makes the map of the regions, in time linear in their addresses and ranges.
    ///
    /// # Errors
    /// `AllocError` if there is no memory for the map.
    pub fn new(alloc: Global, regions: &Regions) -> Result<Self, AllocError>
        ensures { IfOk result (λ map. Maps regions.now map) }
    {
        let mut marks = zeros(alloc, 65536)?;
        mark_all(&mut marks, regions.code(), CODE);
        mark_all(&mut marks, regions.data_ranges(), DATA);
        Ok(RegionMap { marks })
    }

    /// Whether the address is in the code.
    #[inline]
    pub fn is_code(&self, address: u16) -> bool
        ensures { result ≡ marks_code self.now address }
    {
        self.marks[usize::from(address)] == CODE
    }

    /// Whether the address is in the data.
    #[inline]
    pub fn is_data(&self, address: u16) -> bool
        ensures { result ≡ marks_data self.now address }
    {
        self.marks[usize::from(address)] == DATA
    }
}

/// Sets the byte of each address of the ranges to `mark`, in a table of bytes by address, which must have 65536; the
/// others are unchanged. The ranges must end in memory.
fn mark_all(marks: &mut Vec<u8>, ranges: &[Range], mark: u8)
    requires whole { length marks.old.items ≡ 65536 }
    requires in_memory { All IsInMemory ranges.now }
    ensures { IsMarked marks.old.items (in_ranges ranges.now) mark marks.new.items }
{
    for range in ranges {
        mark_range(marks, *range, mark);
    }
}

/// Sets the byte of each address of the range to `mark`, in a table of bytes by address, which must have 65536; the
/// others are unchanged. The range must end in memory.
fn mark_range(marks: &mut Vec<u8>, range: Range, mark: u8)
    requires whole { length marks.old.items ≡ 65536 }
    requires in_memory { IsInMemory range }
    ensures { IsMarked marks.old.items (in_range range) mark marks.new.items }
{
    let first = usize::from(range.first);
    for address in first..first + usize::from(range.length) {
        marks[address] = mark;
    }
}
