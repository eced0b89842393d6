//! A session: three texts are read, and the transcript of the run is written.

ghost use Rattle.std.specs.Prelude.{◌≡◌, ◌+◌, ◌<◌, ◌≤◌, Some, IfOk, IfErr, IfSome, vec_len};
ghost use Rattle.loader80.specs.Texts.{Texts};
ghost use Rattle.stream80.specs.WholeText.{TakesAtMost, text_limit};
ghost use Rattle.loader80.specs.Sends.{Sends, read_failures_at, write_failures_of, TextFault};

use crate::fault::SessionFault;
use crate::replies::{Outcome, SessionTexts, answer_texts};
use std::alloc::Global;
use stream80::{Failed, ReadAllFault, Sink, Source, TEXT_LIMIT, read_all, write_all};

/// Reads an image, regions and inputs, each whole, in this order; checks the image and runs it for `steps` steps at most,
/// keeping `outputs` outputs at most; and writes the transcript, or the line of the refusal.
///
/// Each text has [`TEXT_LIMIT`] bytes at most; one byte more is taken of a longer one. The counts of failures of the readers and
/// of the writer must be below the greatest `u64`.
///
/// # Errors
/// The first of: `Read` with the number of the text, 1 to 3, if a read of it fails; `TooLong` with that number if it has
/// more bytes than the limit; `Regions`, `Image`, or `Inputs` with the number of the line, counted from 1, if a text isn't of
/// its form; `Refused` if the verifier refuses the image, after its line was written; `Write` if a write fails or takes no
/// byte, after which a prefix of the text was written. `Memory` if memory runs out, also for the outputs; it is never a
/// refusal's line. After every fault but `Refused` and `Write` nothing was written.
pub fn session<A: Source, B: Source, C: Source, K: Sink>(
    alloc: Global,
    image: &mut A,
    regions: &mut B,
    inputs: &mut C,
    out: &mut K,
    steps: u64,
    outputs: usize,
) -> Result<Outcome, SessionFault>
    requires image { A.failed image.old < u64.MAX }
    requires regions { B.failed regions.old < u64.MAX }
    requires inputs { C.failed inputs.old < u64.MAX }
    requires out { K.failed out.old < u64.MAX }
    ensures sends { (t : Texts) → A.left image.old ≡ Some t.image → B.left regions.old ≡ Some t.regions →
        C.left inputs.old ≡ Some t.inputs → Sends outputs steps t result (K.written out.old) (K.written out.new) }
    ensures image_failures { A.failed image.new ≡ A.failed image.old + read_failures_at 1 result }
    ensures regions_failures { B.failed regions.new ≡ B.failed regions.old + read_failures_at 2 result }
    ensures inputs_failures { C.failed inputs.new ≡ C.failed inputs.old + read_failures_at 3 result }
    ensures out_failures { K.failed out.new ≡ K.failed out.old + write_failures_of result }
    ensures image_taken { TakesAtMost (text_limit + 1) (A.left image.old) (A.left image.new) }
    ensures regions_taken { TakesAtMost (text_limit + 1) (B.left regions.old) (B.left regions.new) }
    ensures inputs_taken { TakesAtMost (text_limit + 1) (C.left inputs.old) (C.left inputs.new) }
{
    let image = read_text(alloc, image, 1)?;
    let regions = read_text(alloc, regions, 2)?;
    let inputs = read_text(alloc, inputs, 3)?;
    let texts = SessionTexts {
        image: &image,
        regions: &regions,
        inputs: &inputs,
    };
    let reply = answer_texts(alloc, texts, steps, outputs);
    match write_all(out, reply.text.as_bytes()) {
        Ok(()) => reply.answer,
        Err(Failed) => Err(SessionFault::Write),
    }
}

/// Reads a text whole. The fault has the text's number, 1 to 3: `Read` if a read fails, `TooLong` if the text has more
/// bytes than the limit; or it is `Memory`. One byte more than the limit is taken at most. The source's count of
/// failures must be below the greatest `u64`.
fn read_text<S: Source>(alloc: Global, source: &mut S, number: u8) -> Result<Vec<u8>, SessionFault>
    requires countable { S.failed source.old < u64.MAX }
    ensures whole { IfOk result (λ bytes. IfSome (S.left source.old) (λ text. bytes.items ≡ text)) }
    ensures within { IfOk result (λ bytes. vec_len bytes ≤ TEXT_LIMIT) }
    ensures fault { IfErr result (TextFault number (S.left source.old)) }
    ensures failures { S.failed source.new ≡ S.failed source.old + read_failures_at number result }
    ensures taken { TakesAtMost (text_limit + 1) (S.left source.old) (S.left source.new) }
{
    match read_all(alloc, source, TEXT_LIMIT) {
        Ok(bytes) => Ok(bytes),
        Err(ReadAllFault::Read) => Err(SessionFault::Read(number)),
        Err(ReadAllFault::TooLong) => Err(SessionFault::TooLong(number)),
        Err(ReadAllFault::Memory) => Err(SessionFault::Memory),
    }
}
