//! The data that handlers write.

ghost use Rattle.std.specs.Prelude.{◌≡◌, ◌<◌, ◌+◌, ℕ, true, All, IfOk, length};
ghost use Rattle.decode80.specs.Fetch.{direct_bytes};
ghost use Rattle.image80.specs.RegionMap.{Maps};
ghost use Rattle.verify80_spans.specs.Span.{Within};
ghost use Rattle.verify80_follow.specs.Writes.{AreWriteEnds, MayBeWritten, WritesTo};

use decode80::{Instr, Storing, ahead};
use image80::{RegionMap, Regions};
use std::alloc::{AllocError, Global};
use verify80_states::{Span, is_marked};

/// The data that handlers write, looked up by address and by span.
#[derive(Clone, Copy)]
pub(crate) struct Writes<'a> {
    pub regions: &'a Regions,
    /// Marks of it, by address.
    pub marks: &'a [bool],
    /// For each address the first one from there on of other data, or 65,536.
    pub ends: &'a [u32],
}

impl Writes<'_> {
    /// Whether each address of data in a span is written.
    pub fn have_all(self, span: Span) -> bool
        requires { AreWriteEnds self.regions.now self.marks.now self.ends.now }
        ensures { result ≡ true → (address : ℕ) → Within span address → MayBeWritten self.entry.regions.now self.entry.marks.now address }
    {
        span.first > span.last || u32::from(span.last) < self.ends[usize::from(span.first)]
    }

    /// Whether each byte that an instruction names to store to is written.
    pub fn have_direct(self, instr: Instr) -> bool
        ensures { result ≡ true → All (MayBeWritten self.entry.regions.now self.entry.marks.now) (direct_bytes instr) }
    {
        match instr.storing() {
            Storing::Byte(address) => is_marked(self.marks, address),
            Storing::Word(address) => {
                is_marked(self.marks, address) && is_marked(self.marks, ahead(address, 1))
            }
            Storing::Nowhere | Storing::ThroughHl | Storing::Through(_) => true,
        }
    }
}

/// For each address the first one from there on that is data without a mark, or 65,536.
pub(crate) fn find_write_ends(
    alloc: Global,
    regions: &Regions,
    marks: &[bool],
) -> Result<Vec<u32>, AllocError>
    ensures { IfOk result (λ ends. AreWriteEnds regions.now marks.now ends.items) }
{
    let map = RegionMap::new(alloc, regions)?;
    let mut ends = zeros(alloc, 65_536)?;
    let mut end = 65_536;
    for above in 0..65_536_u32 {
        let address = 65_535 - above;
        end = end_from(regions, &map, marks, address, end);
        ends[address as usize] = end;
    }
    Ok(ends)
}

/// The end from an address on, given the end from the next one on.
fn end_from(regions: &Regions, map: &RegionMap, marks: &[bool], address: u32, end: u32) -> u32
    requires address { address < 65536 }
    requires maps { Maps regions.now map.now }
    requires end { WritesTo regions.now marks.now (address + 1) end }
    ensures { WritesTo regions.now marks.now address result }
{
    if !map.is_data(address as u16) || is_marked(marks, address as u16) {
        end
    } else {
        address
    }
}

/// `count` zeros.
fn zeros(alloc: Global, count: usize) -> Result<Vec<u32>, AllocError>
    ensures { IfOk result (λ words. length words.items ≡ count) }
{
    Ok(vec![in alloc; 0; count]?)
}
