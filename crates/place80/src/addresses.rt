//! Addresses by the segments that were laid out.

ghost use Rattle.std.specs.Prelude.{◌≡◌};
ghost use Rattle.place80.specs.Layout.{top_in, place_among};
ghost use Rattle.place80.specs.PlaceFault.{is_in_placed};

use crate::placed_segments::{Placed, placed_in};
use omf_core::segment_id::{ABSOLUTE, STACK};

/// The stack's top: the address just past STACK, modulo 65536. It is 0 if there is no STACK.
fn top_in(segments: &[Placed]) -> u16
    ensures { result ≡ top_in segments.now }
{
    let stack = placed_in(segments, STACK);
    ((u64::from(stack.base) + u64::from(stack.length)) % 65536) as u16
}

/// The address of an offset in the segment with this id, modulo 65536: an absolute offset is the address itself, an
/// offset in STACK counts from the stack's top, and any other from the segment's base. A segment that isn't in the
/// list has the base 0.
pub fn place_of(segments: &[Placed], id: u8, offset: u16) -> u16
    ensures { result ≡ place_among segments.now id offset }
{
    match id {
        ABSOLUTE => offset,
        STACK => top_in(segments).wrapping_add(offset),
        _ => ((u64::from(placed_in(segments, id).base) + u64::from(offset)) % 65536) as u16,
    }
}

/// Whether the address lies in the placed segment.
pub(crate) fn is_in_placed(placed: Placed, address: u16) -> bool
    ensures { result ≡ is_in_placed placed address }
{
    let address = u64::from(address);
    u64::from(placed.base) <= address && address < u64::from(placed.base) + u64::from(placed.length)
}
