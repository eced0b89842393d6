//! Reports with the names of procedures.

ghost use Rattle.std.specs.Prelude.{◌≡◌, IfOk};
ghost use Rattle.plm80_names.specs.Printed.{named_refusal_report, named_report};

use crate::names::Names;
use image80::Image;
use loader80::{ProcRow, Refusal, Vouched, refusal_text};
use loader80_text::{append_rows, report_text};
use std::alloc::{AllocError, Global};

/// The report on an image that was vouched for, with the names of its procedures behind their lines.
///
/// # Errors
/// `AllocError` only if memory runs out.
pub fn named_report(alloc: Global, vouched: &Vouched, names: &Names) -> Result<Vec<u8>, AllocError>
    ensures { IfOk result (λ text. text.items ≡ named_report vouched.now names.now) }
{
    let text = report_text(alloc, vouched)?;
    names.name(
        alloc,
        vouched.image().regions.code(),
        b"PROC ".as_slice(),
        text,
    )
}

/// The line of a refusal, and below it a line for each procedure of the image, with the name of the procedure behind it.
///
/// # Errors
/// `AllocError` only if memory runs out.
pub fn named_refusal_report(
    alloc: Global,
    image: &Image,
    refusal: Refusal,
    rows: &[ProcRow],
    names: &Names,
) -> Result<Vec<u8>, AllocError>
    ensures { IfOk result (λ text.
        text.items ≡ named_refusal_report image.now.regions.code names.now refusal rows.now) }
{
    let mut text = refusal_text(alloc, refusal)?.into_bytes();
    append_rows(alloc, &mut text, rows)?;
    names.name(alloc, image.regions.code(), b"PROC ".as_slice(), text)
}
