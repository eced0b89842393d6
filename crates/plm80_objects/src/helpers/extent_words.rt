//! What a range of an image leaves out, and where it has bytes that no content gives, in words.

use crate::extract::Extent;
use image80::Image;
use plm80_console::Console;
use rom80::bytes_over;
use std::alloc::Global;

/// How many ranges without content are named at most.
const SHOWN: usize = 8;

/// All of memory.
const MEMORY: u32 = 65_536;

/// Says how many bytes of the image are outside the range, and, if the fill isn't 00, where between the image's bytes there are none. Nothing
/// is said if words aren't asked for, or if memory runs out.
pub(crate) fn explain_extent<C: Console>(console: &C, image: &Image, extent: Extent) {
    if !console.explains() {
        return;
    }
    if let Some(bytes) = Held::of(console.alloc(), image) {
        explain_length(console, &bytes, extent);
        explain_rest(console, &bytes, extent);
        if extent.fill != 0 {
            explain_gaps(console, &bytes, extent);
        }
    }
}

/// The bytes of an image's memory with two fills, by which it shows where the image has a byte.
#[derive(Drop)]
struct Held {
    low: Vec<u8>,
    high: Vec<u8>,
}

impl Held {
    /// The bytes of this image; `None` if memory runs out.
    fn of(alloc: Global, image: &Image) -> Option<Held> {
        let low = bytes_over(alloc, image, 0, MEMORY, 0x00).ok()?;
        let high = bytes_over(alloc, image, 0, MEMORY, 0xFF).ok()?;
        Some(Held { low, high })
    }

    /// Whether the image has a byte at this address.
    fn has(&self, at: usize) -> bool {
        // Where the image has a byte, the fill makes no difference.
        match (self.low.get(at), self.high.get(at)) {
            (Some(low), Some(high)) => low == high,
            _ => false,
        }
    }
}

/// Whether the range has this address.
fn is_inside(extent: Extent, at: usize) -> bool {
    let first = usize::from(extent.first);
    at >= first && at - first < extent.length as usize
}

/// Says that the length seems to be a last address, if the image's last byte has this address, or if that ends a page behind it.
fn explain_length<C: Console>(console: &C, bytes: &Held, extent: Extent) {
    let (first, last) = (u32::from(extent.first), extent.length);
    let mut behind = 0;
    for at in 0..MEMORY {
        if bytes.has(at as usize) {
            behind = at.saturating_add(1);
        }
    }
    if last >= first
        && (last.saturating_add(1) == behind || (last % 256 == 255 && last >= behind))
    {
        let length = (last - first).saturating_add(1);
        console.explain(format_args!(
            "--length {last:04X} is a number of bytes; from {first:04X} to {last:04X} they are {length:04X}"
        ));
    }
}

/// Says how many bytes of the image are outside the range, and the first address of these, if the range has others.
fn explain_rest<C: Console>(console: &C, bytes: &Held, extent: Extent) {
    let mut count = 0usize;
    let mut first = 0;
    let mut has_others = false;
    for at in 0..65536usize {
        if !bytes.has(at) {
            continue;
        }
        if is_inside(extent, at) {
            has_others = true;
        } else {
            if count == 0 {
                first = at;
            }
            count = count.saturating_add(1);
        }
    }
    if has_others && count > 0 {
        console.explain(format_args!(
            "{count} bytes of the image aren't in that range: the first is at {first:04X}"
        ));
    }
}

/// Says where in the range, between bytes of the image, it has none.
fn explain_gaps<C: Console>(console: &C, bytes: &Held, extent: Extent) {
    let fill = extent.fill;
    let mut shown = 0usize;
    // The address behind the last byte that the image has below, if it has one.
    let mut behind: Option<usize> = None;
    for at in 0..65536usize {
        if bytes.has(at) {
            if let Some(first) = behind
                && first < at
                && is_inside(extent, first)
                && is_inside(extent, at - 1)
            {
                shown = shown.saturating_add(1);
                if shown <= SHOWN {
                    let length = at - first;
                    console.explain(format_args!(
                        "no content covers {first:04X} {length:04X}, which gets {fill:02X}: if it is CODE, check takes it for 00"
                    ));
                }
            }
            behind = Some(at.saturating_add(1));
        }
    }
    if shown > SHOWN {
        console.explain(format_args!("{} such ranges more", shown - SHOWN));
    }
}
