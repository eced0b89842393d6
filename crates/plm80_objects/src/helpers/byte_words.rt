//! Where an image has bytes, in words: if it has none at the addresses of others, or if few of them are the same.

ghost use Rattle.std.specs.Prelude.{◌≡◌, IfSome};
ghost use Rattle.plm80_console.specs.NumberText.{IsWordText};

use image80_file::read_image;
use plm80_console::{Console, word_of_digits};
use rom80::{bytes_over, no_regions};
use std::alloc::Global;

/// Says where the image of this path has bytes, if it has none at the addresses of the bytes of the file `other`, from `first` on, or if
/// few of them are the same. Else says that 00 was compared where the image has no byte, if `fill` is 00. Both files are read again;
/// nothing is said if they can't be, if memory runs out, or if words aren't asked for.
pub(crate) fn explain_bytes<C: Console>(
    console: &C,
    path: &str,
    other: &str,
    first: &str,
    fill: &str,
) {
    if let (Some(file), Some(others)) = (
        console.text_to_explain(path),
        console.text_to_explain(other),
    )
        && let Some(Counts { begin, held, same }) = counts_of(
            console.alloc(),
            &file,
            first,
            &others,
        )
    {
        if held == 0 {
            console.explain(format_args!(
                "no byte is in that range; the image's bytes begin at {begin:04X}"
            ));
        } else if same < held.saturating_sub(same) {
            console.explain(format_args!(
                "few bytes are the same: --first may be wrong; the image's bytes begin at {begin:04X}"
            ));
        } else if held < others.len() && fill == "00" {
            console.explain(
                "where the image has no byte, 00 was compared; --fill FF compares what an erased PROM has",
            );
        }
    }
}

/// What is counted of an image's bytes at the addresses of others.
#[derive(Clone, Copy)]
struct Counts {
    /// The lowest address of a byte of the image.
    begin: u16,
    /// At how many of their addresses the image has a byte.
    held: usize,
    /// How many of its bytes there are the same.
    same: usize,
}

/// The counts for the image that a file's bytes spell and for others, from the address `first` on. `None` if there is no such image, if it
/// has no byte, if `first` is no address, or if memory runs out.
fn counts_of(alloc: Global, file: &[u8], first: &str, others: &[u8]) -> Option<Counts>
    ensures { IfSome result (λ _. IsWordText first.now) }
{
    let (first, count) = (word_of_digits(first)?, u32::try_from(others.len()).ok()?);
    let image = read_image(alloc, file, no_regions(alloc)).ok()?;
    let begin = image.chunks.iter().map(|chunk| chunk.address).min()?;
    // Where the image has a byte, the fill makes no difference.
    let low = bytes_over(alloc, &image, first, count, 0x00).ok()?;
    let high = bytes_over(alloc, &image, first, count, 0xFF).ok()?;
    Some(counts_over(begin, &low, &high, others))
}

/// The counts for an image whose lowest byte has the address `begin`, and which has the byte of `low` where `high` has the same.
fn counts_over(begin: u16, low: &[u8], high: &[u8], others: &[u8]) -> Counts
    ensures { result.begin ≡ begin }
{
    let held = low
        .iter()
        .zip(high)
        .filter(|(low, high)| low == high)
        .count();
    let same = low
        .iter()
        .zip(high)
        .zip(others)
        .filter(|((low, high), other)| low == other && high == other)
        .count();
    Counts { begin, held, same }
}
