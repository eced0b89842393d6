//! Segments that pass the end of memory.

ghost use Rattle.std.specs.Prelude.{◌≡◌, ◌+◌, ◌==◌, ◌&&◌, nat_lt, length};
ghost use Rattle.std.specs.List.{list_any};
ghost use Rattle.place80.specs.PlaceFault.{passes_memory, is_outside, first_outside};

use crate::placed_segments::Placed;
use omf_core::segment_id::MEMORY;
use omf_module::{Content, Module};

/// The first segment that passes the end of memory, or MEMORY if its length doesn't hold its contents; `None` if
/// there is none.
pub(crate) fn first_outside(program: &Module, segments: &[Placed]) -> Option<Placed>
    ensures { result ≡ first_outside program.now segments.now }
{
    for placed in segments {
        if is_outside(program.contents(), *placed) {
            return Some(*placed);
        }
    }
    None
}

/// Whether the segment passes the end of memory, or is MEMORY with a length that doesn't hold its contents.
fn is_outside(contents: &[Content], placed: Placed) -> bool
    ensures { result ≡ is_outside contents.now placed }
{
    ends_outside(placed) || (placed.id == MEMORY && any_passes(contents, placed.length))
}

/// Whether the segment ends above 65536.
fn ends_outside(placed: Placed) -> bool
    ensures { result ≡ nat_lt 65536 (placed.base + placed.length) }
{
    65536 < u64::from(placed.base) + u64::from(placed.length)
}

/// Whether a content of MEMORY ends past this length of the segment.
fn any_passes(contents: &[Content], size: u32) -> bool
    ensures { result ≡ list_any (passes_memory size) contents.now }
{
    contents.iter().any(|content| passes_memory(size, content))
}

/// Whether a content is in MEMORY and ends past this length of the segment.
fn passes_memory(size: u32, content: &Content) -> bool
    ensures { result ≡ passes_memory size content.now }
{
    content.segment == MEMORY
        && u64::from(size) < u64::from(content.offset) + content.bytes.len() as u64
}
