//! A bundle: one input with an image, regions and inputs, and the transcript of its run.

ghost use Rattle.std.specs.Prelude.{◌≡◌, ℕ, ◌+◌, ◌<◌, ◌≤◌, List, Some, None, length, IfSome, IfNone};
ghost use Rattle.loader80_text.specs.BundleText.{bundle_texts};
ghost use Rattle.stream80.specs.WholeText.{TakesAtMost};
ghost use Rattle.loader80.specs.Sends.{AreWithin, IsTooLong};
ghost use Rattle.loader80.specs.Texts.{texts_of};
ghost use Rattle.loader80_text.specs.Bundle.{bundle_limit, BundleSends, BundleTooLong, bundle_read_failures, bundle_write_failures, of_session};

use crate::bundles::bundle_text::part_bundle;
use crate::bundles::fault::BundleFault;
use loader80::laws::what_is_said_is_sent;
use loader80::{Outcome, SessionFault, SessionTexts, TEXT_LIMIT, answer_texts};
use std::alloc::Global;
use stream80::{Failed, ReadAllFault, Sink, Source, read_all, write_all};

/// The greatest number of bytes of a bundle whose three texts can be within their limits.
pub const BUNDLE_LIMIT: usize = 4_194_312;

/// Reads a bundle whole, checks and runs its image, and writes the transcript or the refusal's line, as
/// `loader80::session` does with three texts (docs/FORMATS.md: bundles).
///
/// A bundle has [`BUNDLE_LIMIT`] bytes at most; one byte more is taken of a longer one. The counts of failures of the reader and
/// of the writer must be below the greatest `u64`.
///
/// # Errors
/// `Read(1)` if a read fails; `TooLong(1)` if the bundle has more bytes than the limit; `BadBundle` if it has no three
/// texts; else those of a session on the three texts. After every fault but `Refused` and `Write` nothing was written.
pub fn bundle<S: Source, K: Sink>(
    alloc: Global,
    input: &mut S,
    out: &mut K,
    steps: u64,
    outputs: usize,
) -> Result<Outcome, BundleFault>
    requires input { S.failed input.old < u64.MAX }
    requires out { K.failed out.old < u64.MAX }
    ensures sends { (bytes : List ℕ) → S.left input.old ≡ Some bytes → length bytes ≤ bundle_limit →
        BundleSends outputs steps (bundle_texts bytes) result (K.written out.old) (K.written out.new) }
    ensures too_long { (bytes : List ℕ) → S.left input.old ≡ Some bytes → bundle_limit < length bytes →
        BundleTooLong result (K.written out.old) (K.written out.new) }
    ensures input_failures { S.failed input.new ≡ S.failed input.old + bundle_read_failures result }
    ensures out_failures { K.failed out.new ≡ K.failed out.old + bundle_write_failures result }
    ensures taken { TakesAtMost (bundle_limit + 1) (S.left input.old) (S.left input.new) }
{
    let bytes = match read_all(alloc, input, BUNDLE_LIMIT) {
        Ok(bytes) => bytes,
        Err(ReadAllFault::Read) => return Err(BundleFault::Session(SessionFault::Read(1))),
        Err(ReadAllFault::TooLong) => return Err(BundleFault::Session(SessionFault::TooLong(1))),
        Err(ReadAllFault::Memory) => return Err(BundleFault::Session(SessionFault::Memory)),
    };
    answer_bundle(alloc, &bytes, out, steps, outputs)
}

/// Does with the three texts in a bundle's bytes what a session does. The fault is `BadBundle` if the bytes have no
/// three texts, else that of the session. The count of failures of `out` must be below the greatest `u64`.
fn answer_bundle<K: Sink>(
    alloc: Global,
    bytes: &[u8],
    out: &mut K,
    steps: u64,
    outputs: usize,
) -> Result<Outcome, BundleFault>
    requires { K.failed out.old < u64.MAX }
    ensures sends { BundleSends outputs steps (bundle_texts bytes.now) result (K.written out.old) (K.written out.new) }
    ensures read_failures { bundle_read_failures result ≡ 0 }
    ensures out_failures { K.failed out.new ≡ K.failed out.old + bundle_write_failures result }
{
    what_is_said_is_sent();
    let Ok(parted) = part_bundle(alloc, bytes) else {
        return Err(BundleFault::Session(SessionFault::Memory));
    };
    let Some(parts) = parted else {
        return Err(BundleFault::BadBundle);
    };
    let texts = SessionTexts {
        image: &parts.image,
        regions: parts.regions,
        inputs: parts.inputs,
    };
    if let Some(number) = first_too_long(texts) {
        return Err(BundleFault::Session(SessionFault::TooLong(number)));
    }
    let reply = answer_texts(alloc, texts, steps, outputs);
    match write_all(out, reply.text.as_bytes()) {
        Ok(()) => of_session(reply.answer),
        Err(Failed) => Err(BundleFault::Session(SessionFault::Write)),
    }
}

/// Converts the answer of a session to that of a bundle.
fn of_session(answer: Result<Outcome, SessionFault>) -> Result<Outcome, BundleFault>
    ensures { result ≡ of_session answer }
{
    match answer {
        Ok(outcome) => Ok(outcome),
        Err(fault) => Err(BundleFault::Session(fault)),
    }
}

/// The number, 1 to 3, of the first of image, regions and inputs that has more bytes than a session reads; `None` if
/// none has.
fn first_too_long(texts: SessionTexts<'_>) -> Option<u8>
    ensures within { IfNone result (AreWithin (texts_of texts.entry)) }
    ensures first { IfSome result (IsTooLong (texts_of texts.entry)) }
{
    if texts.image.len() > TEXT_LIMIT {
        Some(1)
    } else if texts.regions.len() > TEXT_LIMIT {
        Some(2)
    } else if texts.inputs.len() > TEXT_LIMIT {
        Some(3)
    } else {
        None
    }
}
