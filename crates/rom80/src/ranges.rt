//! The ranges at which an image has bytes.

ghost use Rattle.std.specs.Prelude.{◌≡◌, IfOk};
ghost use Rattle.rom80.specs.Ranges.{byte_ranges, joined};

use image80::{Chunk, Image, Range};
use std::alloc::{AllocError, Global};

/// A range for each of the image's chunks, in order: the chunk's addresses, joined to the range before it if that
/// ends where the chunk begins and the two have at most 65535 addresses together.
///
/// # Errors
/// `AllocError` only if memory ran out.
pub fn byte_ranges(alloc: Global, image: &Image) -> Result<Vec<Range>, AllocError>
    ensures { IfOk result (λ ranges. ranges.items ≡ byte_ranges image.now.chunks) }
{
    let mut ranges = Vec::new(alloc);
    let mut before = Range {
        first: 0,
        length: 0,
    };
    for chunk in &image.chunks {
        before = joined(before, chunk);
        ranges.push(before)?;
    }
    Ok(ranges)
}

/// The range of a chunk, joined to the range `before` if that ends where the chunk begins and the two have at most
/// 65535 addresses together.
fn joined(before: Range, chunk: &Chunk) -> Range
    ensures { result ≡ joined before chunk.now }
{
    let end = u32::from(before.first) + u32::from(before.length);
    let length = usize::from(before.length) + chunk.bytes.len();
    if end == u32::from(chunk.address) && length < 65536 {
        Range {
            first: before.first,
            length: length as u16,
        }
    } else {
        Range {
            first: chunk.address,
            length: chunk.bytes.len() as u16,
        }
    }
}
