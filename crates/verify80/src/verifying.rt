//! The verifier over an image.

ghost use Rattle.std.specs.Prelude.{IfOk, IfErr};
ghost use Rattle.verify80_flow.specs.Accepted.{IsAccepted, IsMeasured};
ghost use Rattle.verify80_flow.specs.Faults.{Holds, HoldsAnyway};
ghost use Rattle.verify80_flow.specs.ProgramPoints.{ArePoints};
ghost use Rattle.verify80.specs.Kept.{IsKept};
ghost use Rattle.verify80.specs.Looking.{code_of};

use crate::image_code::ImageCode;
use image80::{Image, RegionMap};
use std::alloc::Global;
use verify80_flow::{Analysis, ProgramPoint, Refusal, Report, analyze};

/// What is found of an image that is accepted, with its memory and the map of its regions.
#[derive(Drop)]
pub struct Verified {
    /// The report on its procedures and its stack.
    pub report: Report,
    /// The points that walks reach, by procedure and address.
    pub points: Vec<ProgramPoint>,
    /// The image's memory: 65536 bytes by address.
    pub memory: Vec<u8>,
    /// Which region each address is in.
    pub map: RegionMap,
}

/// Goes over every walk of every procedure of an image, from its start on, and reports on its procedures and its stack.
///
/// An image is accepted if no refusal holds of it. If several hold, one of them is answered.
///
/// # Example
/// ```
/// let report = verify(rt.alloc(), &image)?;
/// assert_eq!(rt; report.stack_bytes, 4);
/// assert_eq!(rt; report.procedures.len(), 1);
/// ```
///
/// # Errors
/// A refusal that holds of the image, or [`Refusal::Memory`] if memory runs out.
pub fn verify(alloc: Global, image: &Image) -> Result<Report, Refusal>
    ensures accepted { IfOk result (λ report. IsAccepted (code_of image.now) report.procedures.items report.stack_bytes) }
    ensures refused { IfErr result (Holds (code_of image.now)) }
{
    let verified = verify_and_keep(alloc, image)?;
    Ok(verified.report)
}

/// Verifies an image as [`verify`] does, but never refuses it for a stack that is too small.
///
/// # Errors
/// The refusals of [`verify`], but never `StackTooSmall`.
pub fn measure(alloc: Global, image: &Image) -> Result<Report, Refusal>
    ensures measured { IfOk result (λ report. IsMeasured (code_of image.now) report.procedures.items report.stack_bytes) }
    ensures refused { IfErr result (HoldsAnyway (code_of image.now)) }
{
    let code = ImageCode::new(alloc, image)?;
    let found = verify80_flow::measure(alloc, &code)?;
    Ok(found.report)
}

/// Verifies an image as [`verify`] does, and also returns the points, the memory and the map that
/// were made for that, so that a run needn't make them again.
///
/// # Errors
/// The refusals of [`verify`].
pub fn verify_and_keep(alloc: Global, image: &Image) -> Result<Verified, Refusal>
    ensures accepted { IfOk result (λ verified.
        IsAccepted (code_of image.now) verified.report.procedures.items verified.report.stack_bytes) }
    ensures points { IfOk result (λ verified. ArePoints (code_of image.now) verified.points.items) }
    ensures kept { IfOk result (λ verified. IsKept image.now verified.memory.items verified.map) }
    ensures refused { IfErr result (Holds (code_of image.now)) }
{
    let code = ImageCode::new(alloc, image)?;
    let Analysis { report, points } = analyze(alloc, &code)?;
    let (memory, map) = code.into_parts();
    Ok(Verified {
        report,
        points,
        memory,
        map,
    })
}
