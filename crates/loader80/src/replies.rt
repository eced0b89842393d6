//! From three texts to an answer and a text.

ghost use Rattle.std.specs.Prelude.{◌≡◌, ◌<◌, ◌↔◌, [], IsTrue, length, IfOk, IfErr, string_bytes};
ghost use Rattle.machine80.specs.Ports.{lists_of};
ghost use Rattle.loader80.specs.Texts.{texts_of};
ghost use Rattle.loader80.specs.Session.{Says, SpellsProgram, Faults, IsRefused, Transcribes};

use crate::fault::SessionFault;
use crate::inputs::{InputsFault, read_inputs};
use crate::running::run;
use crate::transcript::{refusal_text, transcript_text};
use image80::{Image, RegionsFault, read_regions};
use image80_file::{ImageFault, read_image};
use machine80::{End, Inputs, ListPorts, PagedBus, Ports};
use std::alloc::{AllocError, Global};
use verify80::{Refusal, Vouched, vouch};

/// The result of a session whose image was run.
#[derive(Clone, Copy, Debug, PartialEq, Eq)]
pub struct Outcome {
    /// The number of bytes of stack that the program needs at most.
    pub stack_bytes: u64,
    /// How the run ended; `None` if the steps were used up.
    pub end: Option<End>,
    /// The steps that were made, the ending one counted.
    pub steps: u64,
    /// The program counter after the last step; at an end, before the ending step.
    pub at: u16,
}

/// Three texts: an image as an object file, regions and inputs.
#[derive(Clone, Copy)]
pub struct SessionTexts<'a> {
    /// The object file of the image.
    pub image: &'a [u8],
    /// The regions text.
    pub regions: &'a [u8],
    /// The text of the inputs.
    pub inputs: &'a [u8],
}

/// The answer to three texts, and the text to write.
#[derive(Drop)]
pub struct Reply {
    /// The outcome of the run, or why there is none.
    pub answer: Result<Outcome, SessionFault>,
    /// The transcript of the run, the line of a refusal, or nothing for any other fault.
    pub text: String,
}

/// Reads the texts, checks the image and runs it for at most `steps` steps, keeping at most `outputs` outputs: the
/// next one is refused. The reply has the outcome with the transcript; `Refused` with the refusal's line; or another
/// fault without text. If memory for an output below that limit runs out, the fault is `Memory`.
pub fn answer_texts(alloc: Global, texts: SessionTexts<'_>, steps: u64, outputs: usize) -> Reply
    ensures { Says outputs steps (texts_of texts.entry) result.answer (string_bytes result.text) }
{
    match load(alloc, texts) {
        Ok(image) => answer_image(alloc, image, texts, steps, outputs),
        Err(fault) => faulty(alloc, fault),
    }
}

/// Checks an image and runs it with the inputs of the texts; image and regions must be those that the texts spell.
fn answer_image(
    alloc: Global,
    image: Image,
    texts: SessionTexts<'_>,
    steps: u64,
    outputs: usize,
) -> Reply
    requires { SpellsProgram (texts_of texts) image }
    ensures { Says outputs steps (texts_of texts.entry) result.answer (string_bytes result.text) }
{
    let inputs = match read_inputs(alloc, texts.inputs) {
        Ok(inputs) => inputs,
        Err(InputsFault::BadLine(number)) => return faulty(alloc, SessionFault::Inputs(number)),
        Err(InputsFault::Memory) => return faulty(alloc, SessionFault::Memory),
    };
    match vouch(alloc, image) {
        Ok(vouched) => transcribe(alloc, &vouched, inputs, steps, outputs),
        Err((_, refusal)) => refuse(alloc, refusal),
    }
}

/// Reads the regions and the image of the texts. The fault is `Regions`, `Image`, or `Memory` if memory runs out.
fn load(alloc: Global, texts: SessionTexts<'_>) -> Result<Image, SessionFault>
    ensures image { IfOk result (SpellsProgram (texts_of texts.entry)) }
    ensures fault { IfErr result (λ fault. Faults (texts_of texts.entry) fault []) }
{
    let regions = match read_regions(alloc, texts.regions) {
        Ok(regions) => regions,
        Err(RegionsFault::Memory) => return Err(SessionFault::Memory),
        Err(fault) => return Err(SessionFault::Regions(fault)),
    };
    match read_image(alloc, texts.image, regions) {
        Ok(image) => Ok(image),
        Err((_, ImageFault::Memory)) => Err(SessionFault::Memory),
        Err((_, fault)) => Err(SessionFault::Image(fault)),
    }
}

/// A reply with this fault and no text.
fn faulty(alloc: Global, fault: SessionFault) -> Reply
    ensures answer { result.answer ≡ Err fault }
    ensures text { string_bytes result.text ≡ [] }
{
    Reply {
        answer: Err(fault),
        text: String::new(alloc),
    }
}

/// A reply with the fault `Refused` and the refusal's line; with `Memory` and no text if the verifier or the line ran
/// out of memory.
fn refuse(alloc: Global, refusal: Refusal) -> Reply
    ensures { IsRefused refusal result.answer (string_bytes result.text) }
{
    if refusal == Refusal::Memory {
        return faulty(alloc, SessionFault::Memory);
    }
    match refusal_text(alloc, refusal) {
        Ok(text) => Reply {
            answer: Err(SessionFault::Refused(refusal)),
            text,
        },
        Err(AllocError) => faulty(alloc, SessionFault::Memory),
    }
}

/// Runs a vouched image with these inputs, and replies with the outcome and the transcript; with `Memory` and no text
/// if memory runs out, also for an output below the limit.
fn transcribe(alloc: Global, vouched: &Vouched, inputs: Inputs, steps: u64, outputs: usize) -> Reply
    ensures { Transcribes vouched.now.image vouched.now.stack_bytes (lists_of inputs.pairs.items) outputs steps result.answer
        (string_bytes result.text) }
{
    let Ok(mut bus) = PagedBus::of_bytes(alloc, vouched.memory()) else {
        return faulty(alloc, SessionFault::Memory);
    };
    let mut ports = ListPorts::new(alloc, inputs, outputs);
    let ended = run(vouched, &mut bus, &mut ports, steps);
    if was_out_of_memory(&ports, outputs) {
        return faulty(alloc, SessionFault::Memory);
    }
    let outcome = Outcome {
        stack_bytes: vouched.stack_bytes(),
        end: ended.end,
        steps: ended.steps,
        at: ended.cpu.pc(),
    };
    match transcript_text(
        alloc,
        outcome.stack_bytes,
        ports.outputs(),
        outcome.end,
        outcome.at,
        outcome.steps,
    ) {
        Ok(text) => Reply {
            answer: Ok(outcome),
            text,
        },
        Err(AllocError) => faulty(alloc, SessionFault::Memory),
    }
}

/// Whether an output was refused below the limit, because memory ran out.
fn was_out_of_memory(ports: &ListPorts, limit: usize) -> bool
    ensures { IsTrue result ↔ ((0 < ports.now.refused) × (length ports.now.outputs < limit)) }
{
    ports.refusals() > 0 && ports.outputs().len() < limit
}
