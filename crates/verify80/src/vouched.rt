//! An image that the verifier has accepted.

ghost use Rattle.std.specs.Prelude.{◌≡◌, ◌≤◌, ℕ, IfOk, IfErr};
ghost use Rattle.verify80_flow.specs.Faults.{Holds};
ghost use Rattle.verify80_flow.specs.Fitting.{IsFitted};
ghost use Rattle.machine80.specs.World.{NeverGoesWrong};
ghost use Rattle.verify80.specs.Looking.{code_of};
ghost use Rattle.verify80.specs.Starts.{NeverGoesWrongFromPowerOn};
ghost use Rattle.verify80.specs.Vouched.{IsVouched};

use crate::promise::{fitted_images_never_go_wrong, images_never_go_wrong_from_power_on};
use crate::verifying::{Verified, verify_and_keep};
use image80::{Image, RegionMap};
use std::alloc::Global;
use std::marker::Model;
use verify80_flow::{ProcRow, ProgramPoint, Refusal};

/// An image that the verifier has accepted, so that no run of it goes wrong.
///
/// Only [`vouch`] makes one.
#[derive(Drop)]
pub struct Vouched {
    image: Image,
    memory: Vec<u8>,
    map: RegionMap,
    /// How many bytes of stack the program needs at most.
    stack_bytes: u64,
    /// The procedures that calls reach, by entry.
    rows: Vec<ProcRow>,
    /// The points that walks reach.
    points: Vec<ProgramPoint>,
}

impl Model for Vouched {
    ghost use Rattle.verify80_flow.specs.ProgramPoints.{ArePoints};
    ghost use Rattle.verify80.specs.Kept.{IsKept};
    ghost use Rattle.verify80.specs.Looking.{code_of};
    ghost use Rattle.verify80.specs.Vouched.{IsVouched, Voucher};

    ghost Value = { Voucher };

    ghost view = { λ v. record { image = v.image; stack_bytes = v.stack_bytes; rows = v.rows.items } };

    ghost invariant = { λ v. IsVouched v.image v.rows.items v.stack_bytes × IsKept v.image v.memory.items v.map
        × ArePoints (code_of v.image) v.points.items };
}

impl Vouched {
    ghost use Rattle.std.specs.Prelude.{◌≡◌, ◌≤◌, length};
    ghost use Rattle.machine80.specs.World.{NeverGoesWrong};
    ghost use Rattle.verify80_flow.specs.Accepted.{IsAccepted};
    ghost use Rattle.verify80_flow.specs.ProgramPoints.{ArePoints};
    ghost use Rattle.image80.specs.Image.{memory_of};
    ghost use Rattle.image80.specs.RegionMap.{Maps};
    ghost use Rattle.verify80.specs.Kept.{IsKept};
    ghost use Rattle.verify80.specs.Looking.{code_of};
    ghost use Rattle.verify80.specs.Starts.{NeverGoesWrongFromPowerOn};
    ghost use Rattle.verify80.specs.Vouched.{IsVouched};

    /// Joins an image with what the verifier has found of it, which must be an acceptance of this
    /// image.
    fn new(image: Image, verified: Verified) -> Vouched
        requires accepted { IsAccepted (code_of image) verified.report.procedures.items verified.report.stack_bytes }
        requires points { ArePoints (code_of image) verified.points.items }
        requires kept { IsKept image verified.memory.items verified.map }
        ensures image { result.image ≡ image }
        ensures vouched { IsVouched image result.rows result.stack_bytes }
    {
        runs_as_verified(&image);
        let Verified {
            report,
            points,
            memory,
            map,
        } = verified;
        Vouched {
            image,
            memory,
            map,
            stack_bytes: report.stack_bytes,
            rows: report.procedures,
            points,
        }
    }

    /// The image, as it was handed in.
    pub fn image(&self) -> &Image
        ensures image { result.now ≡ self.now.image }
        ensures vouched { IsVouched self.now.image self.now.rows self.now.stack_bytes }
    {
        &self.image
    }

    /// The image's memory: 65,536 bytes, by address.
    pub fn memory(&self) -> &[u8]
        ensures bytes { result.now ≡ memory_of self.now.image.chunks }
        ensures whole { length result.now ≡ 65536 }
    {
        self.memory.as_slice()
    }

    /// Which region each address of the image is in.
    pub fn map(&self) -> &RegionMap
        ensures { Maps self.now.image.regions result.now }
    {
        &self.map
    }

    /// The number of bytes below the stack's top that the program touches as stack at most.
    ///
    /// Whatever waits at the ports, however many outputs are taken and however long the program runs, each of its steps
    /// fetches only inside code, stores directly only to data, jumps by PCHL only if targets are declared, touches as
    /// stack only this number of bytes below the stack's top, and returns only to the place after the newest call that hasn't
    /// returned; and it ends, if at all, by HLT, at an empty port, at a refused output, at a register-indirect store
    /// outside data or at a PCHL outside its declared targets. The same holds from power-on: whatever registers, flags and
    /// the memory outside code hold, if SP is at the stack's top and each address of code has the image's byte.
    pub fn stack_bytes(&self) -> u64
        ensures bytes { result ≡ self.now.stack_bytes }
        ensures never_goes_wrong { NeverGoesWrong self.now.image result }
        ensures from_power_on { NeverGoesWrongFromPowerOn self.now.image result }
        ensures within_stack { result ≤ self.now.image.regions.stack.length }
    {
        runs_as_verified(&self.image);
        self.stack_bytes
    }

    /// The procedures that calls reach, by their entry.
    pub fn rows(&self) -> &[ProcRow]
        ensures rows { result.now ≡ self.now.rows }
        ensures vouched { IsVouched self.now.image self.now.rows self.now.stack_bytes }
    {
        self.rows.as_slice()
    }

    /// The points that the walks of the image's procedures reach: by procedure, the main program
    /// first, then by entry, and by address.
    pub fn points(&self) -> &[ProgramPoint]
        ensures points { ArePoints (code_of self.now.image) result.now }
        ensures vouched { IsVouched self.now.image self.now.rows self.now.stack_bytes }
    {
        self.points.as_slice()
    }
}

/// Verifies an image, and if it is accepted keeps it together with what was found of it.
///
/// # Example
/// ```
/// let vouched = match vouch(rt.alloc(), image) {
///     Ok(vouched) => vouched,
///     Err((_image, refusal)) => return Err(refusal.into()),
/// };
/// assert_eq!(rt; vouched.stack_bytes(), 4);
/// ```
///
/// # Errors
/// The image, unchanged, and a refusal that holds of it, or `Memory`.
pub fn vouch(alloc: Global, image: Image) -> Result<Vouched, (Image, Refusal)>
    ensures image { IfOk result (λ vouched. vouched.image ≡ image) }
    ensures vouched { IfOk result (λ vouched. IsVouched image vouched.rows vouched.stack_bytes) }
    ensures never_goes_wrong { IfOk result (λ vouched. NeverGoesWrong image vouched.stack_bytes) }
    ensures from_power_on { IfOk result (λ vouched. NeverGoesWrongFromPowerOn image vouched.stack_bytes) }
    ensures within_stack { IfOk result (λ vouched. vouched.stack_bytes ≤ image.regions.stack.length) }
    ensures handed_back { IfErr result (λ refused. refused.0 ≡ image) }
    ensures refused { IfErr result (λ refused. Holds (code_of image) refused.1) }
{
    runs_as_verified(&image);
    match verify_and_keep(alloc, &image) {
        Ok(verified) => Ok(Vouched::new(image, verified)),
        Err(refusal) => Err((image, refusal)),
    }
}

/// The promise for one image, from its own memory and from power-on, if a table of frames fits it.
/// The call does nothing: its contract is the law.
#[inline]
fn runs_as_verified(image: &Image)
    ensures watched { (bytes : ℕ) → IsFitted (code_of image.now) bytes → bytes ≤ image.now.regions.stack.length →
        NeverGoesWrong image.now bytes }
    ensures from_power_on { (bytes : ℕ) → IsFitted (code_of image.now) bytes → bytes ≤ image.now.regions.stack.length →
        NeverGoesWrongFromPowerOn image.now bytes }
{
    fitted_images_never_go_wrong();
    images_never_go_wrong_from_power_on();
    image.regions.stack();
}
