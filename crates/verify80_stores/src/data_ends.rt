//! How far data goes on from each address.

ghost use Rattle.std.specs.Prelude.{◌≡◌, ◌+◌, ◌<◌, ℕ, true, false, IfOk, length};
ghost use Rattle.image80.specs.{Regions.in_data, RegionMap.Maps};
ghost use Rattle.verify80_spans.specs.Span.{Within};
ghost use Rattle.verify80_stores.specs.DataReach.{AreDataEnds, ReachesTo};

use image80::{RegionMap, Regions};
use std::alloc::{AllocError, Global};
use verify80_states::Span;

/// For each address the first one from there on that is not data, 65,536 if there is none.
///
/// # Errors
/// `AllocError` if memory runs out.
pub fn find_data_ends(alloc: Global, regions: &Regions) -> Result<Vec<u32>, AllocError>
    ensures { IfOk result (λ ends. AreDataEnds regions.now ends.items) }
{
    let map = RegionMap::new(alloc, regions)?;
    let mut ends = zeros(alloc, 65_536)?;
    let mut end = 65_536;
    for above in 0..65_536_u32 {
        let address = 65_535 - above;
        end = end_from(regions, &map, address, end);
        ends[address as usize] = end;
    }
    Ok(ends)
}

/// The end from an address on, given the end from the next one on.
fn end_from(regions: &Regions, map: &RegionMap, address: u32, end: u32) -> u32
    requires address { address < 65536 }
    requires maps { Maps regions.now map.now }
    requires end { ReachesTo regions.now (address + 1) end }
    ensures { ReachesTo regions.now address result }
{
    if map.is_data(address as u16) {
        end
    } else {
        address
    }
}

/// `count` zeros.
fn zeros(alloc: Global, count: usize) -> Result<Vec<u32>, AllocError>
    ensures { IfOk result (λ words. length words.items ≡ count) }
{
    Ok(vec![in alloc; 0; count]?)
}

/// Whether each address of a span is data, by what [`find_data_ends`] answers.
pub fn is_all_data(regions: &Regions, ends: &[u32], span: Span) -> bool
    requires { AreDataEnds regions.now ends.now }
    ensures inside { result ≡ true → (address : ℕ) → Within span address → in_data regions.now address ≡ true }
    ensures outside { result ≡ false → (address : ℕ) × Within span address × (in_data regions.now address ≡ false) }
{
    span.first > span.last || u32::from(span.last) < ends[usize::from(span.first)]
}
