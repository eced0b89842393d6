//! An image's bytes over a range.

ghost use Rattle.std.specs.Prelude.{◌≡◌, ◌+◌, ◌<◌, ◌%◌, ◌↔◌, IfOk, IsErrOf};
ghost use Rattle.std.specs.List.{sum};
ghost use Rattle.rom80.specs.Rom.{bytes_over, sum_line};

use crate::fault::RomFault;
use crate::memory::memory_of;
use image80::Image;
use std::alloc::{AllocError, Global};
use text80::word_digits;

/// The `length` bytes of the image's memory from the address `first` on: at each address that of the last chunk that covers it,
/// and `fill` if none does, as in an erased PROM. The time grows with the number of the chunks' bytes, and not with that of
/// the chunks.
///
/// # Errors
/// `PastMemory` exactly if the range goes past FFFF; `Memory` only if memory ran out.
pub fn bytes_over(
    alloc: Global,
    image: &Image,
    first: u16,
    length: u32,
    fill: u8,
) -> Result<Vec<u8>, RomFault>
    ensures bytes { IfOk result (λ bytes. bytes.items ≡ bytes_over fill image.now.chunks first length) }
    ensures past { IsErrOf result RomFault.PastMemory ↔ (65536 < first + length) }
{
    let end = u64::from(first) + u64::from(length);
    if end > 65536 {
        return Err(RomFault::PastMemory);
    }
    let memory = memory_of(alloc, &image.chunks, fill)?;
    Ok(Vec::from_slice(alloc, &memory[usize::from(first)..end as usize])?)
}

/// The line with the sum of the bytes modulo 65536, such as `SUM 1A2B`: what stands on the sticker of an EPROM.
///
/// # Errors
/// `AllocError` only if memory ran out.
pub fn sum_text(alloc: Global, bytes: &[u8]) -> Result<Vec<u8>, AllocError>
    ensures { IfOk result (λ text. text.items ≡ sum_line bytes.now) }
{
    let mut text = Vec::new(alloc);
    text.extend_from_slice(b"SUM ".as_slice())?;
    text.extend_from_slice(&word_digits(sum_of(bytes)))?;
    text.push(b'\n')?;
    Ok(text)
}

/// The sum of the bytes modulo 65536.
fn sum_of(bytes: &[u8]) -> u16
    ensures { result ≡ sum bytes.now % 65536 }
{
    let mut sum: u16 = 0;
    for byte in bytes {
        sum = sum.wrapping_add(u16::from(*byte));
    }
    sum
}
