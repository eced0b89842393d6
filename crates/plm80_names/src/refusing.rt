//! What the verifier says of an image, with the names of addresses.

ghost use Rattle.std.specs.Prelude.{◌≡◌, ◌≢◌, IfOk, OnOk};
ghost use Rattle.verify80_flow.specs.declared.refusal.Refusal.TheVariants.{Memory};
ghost use Rattle.plm80_names.specs.{Printed.named_refusal_line, Verdict.IsVerdict};

use crate::names::Names;
use image80::Image;
use loader80::{Refusal, Vouched, refusal_text, vouch};
use std::alloc::{AllocError, Global};

/// What the verifier says of an image.
#[derive(Drop)]
pub enum Verdict {
    /// The image is accepted.
    Accepted(Vouched),
    /// The image is refused: the line of its refusal, with the name of the address.
    Refused(Vec<u8>),
}

/// Verifies an image: accepts it, or gives the line of a refusal that holds of it, with the name of the address.
///
/// # Errors
/// `AllocError` only if memory runs out; that is no answer about the image.
pub fn judge(alloc: Global, image: Image, names: &Names) -> Result<Verdict, AllocError>
    ensures { IfOk result (IsVerdict image names.now) }
{
    match vouch(alloc, image) {
        Ok(vouched) => Ok(Verdict::Accepted(vouched)),
        Err((image, refusal)) => {
            let line = named_refusal(alloc, &image, refusal, names)?;
            Ok(Verdict::Refused(line))
        }
    }
}

/// The line of a refusal, with the name of its address behind it.
///
/// # Errors
/// `AllocError` if memory runs out, and of the refusal that says so, which has no line.
pub fn named_refusal(
    alloc: Global,
    image: &Image,
    refusal: Refusal,
    names: &Names,
) -> Result<Vec<u8>, AllocError>
    ensures line { IfOk result (λ text. text.items ≡ named_refusal_line image.now.regions.code names.now refusal) }
    ensures no_memory { OnOk result (refusal ≢ Memory) }
{
    if let Refusal::Memory = refusal {
        return Err(AllocError);
    }
    let text = refusal_text(alloc, refusal)?.into_bytes();
    match refusal.address() {
        Some(at) => names.name_end(alloc, image.regions.code(), at, text),
        None => Ok(text),
    }
}
