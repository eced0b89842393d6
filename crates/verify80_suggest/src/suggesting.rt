//! The regions that an image suggests.

ghost use Rattle.std.specs.Prelude.{◌≡◌, [], All, IfOk};
ghost use Rattle.image80.specs.Case.{AreByAddress, IsCase};
ghost use Rattle.verify80_suggest.specs.Bytes.{may_be_code};
ghost use Rattle.verify80_suggest.specs.Ranges.{Covers};
ghost use Rattle.verify80_suggest.specs.Suggestion.{IsSuggestion, IsWanted};

use crate::arranging::{NO_STACK, arrange};
use crate::bytes::{find_bytes, find_room};
use crate::known::Known;
use crate::ordering::joined;
use crate::ranges::ranges_of;
use crate::setters::Setter;
use crate::survey::survey_of;
use crate::with_cases::with_cases;
use image80::{Image, Range, Regions};
use std::alloc::{AllocError, Global};
use verify80::{Refusal, measure};
use verify80_cases::{Note, suggest_cases};

/// How many bytes of stack are wanted at least.
const LEAST_STACK: u64 = 16;

/// What the suggested regions rest on: which LXI SP, and remarks on the PCHLs.
#[derive(Drop)]
pub struct Advice {
    /// The LXI SP whose word is the stack's end, the first by address; `None` if there is none, and the stack is empty.
    pub first: Option<Setter>,
    /// The second LXI SP by address, if there are several.
    pub second: Option<Setter>,
    /// The PCHLs for which no table is seen, by address.
    pub tableless: Vec<u16>,
    /// The remarks on the PCHLs, in their order.
    pub notes: Vec<Note>,
}

/// Gives an image the regions that its bytes and what is `known` of it suggest, whatever regions it has.
///
/// The image is gone through from its start and from the entries that are known, as [`verify80_cases::find_reachable`] does, with all its
/// bytes as code that lie in the ranges of ROM, or with all its bytes if there are no such ranges, and with the cases that are known and
/// those that its tables suggest. CODE is exactly the bytes of the instructions that are reached, and of the tables of these cases that lie
/// outside the ranges of RAM: words that follow each other
/// from an address on that a reached LXI loads, each a target and in no such instruction. STACK ends at the word of the first LXI SP, 0000 for
/// the end of memory: it is sixteen bytes, or more if the image is refused for nothing but that, but only as many as are free right below that
/// address, neither the image's nor named by an instruction. DATA is what STA, LDA, SHLD and LHLD name, but for CODE, STACK and the image's bytes; or, if there
/// are ranges of RAM, exactly these but for CODE and STACK. The cases are those that are known, and those of the tables.
///
/// # Errors
/// `AllocError` only if memory runs out; the image then has any regions.
pub fn suggest_regions(
    alloc: Global,
    image: &mut Image,
    known: Known<'_>,
) -> Result<Advice, AllocError>
    requires by_address { AreByAddress known.cases.now }
    requires each { All IsCase known.cases.now }
    ensures { IfOk result (λ advice.
        IsSuggestion image.old known.entry advice.first advice.second advice.tableless.items advice.notes.items image.new) }
{
    let base = code_regions(alloc, image, known.rom)?;
    image.regions = with_cases(alloc, &base, known.cases)?;
    let found = suggest_cases(alloc, image, known.entries)?;
    let cases = joined(alloc, known.cases, &found.cases)?;
    image.regions = with_cases(alloc, &base, &cases)?;
    let survey = survey_of(alloc, image, known)?;
    image.regions = arrange(alloc, &survey, &cases, known.ram, LEAST_STACK)?;
    let wanted = wanted_stack(alloc, image)?;
    image.regions = arrange(alloc, &survey, &cases, known.ram, wanted)?;
    Ok(Advice {
        first: survey.first,
        second: survey.second,
        tableless: found.tableless,
        notes: found.notes,
    })
}

/// Regions without a stack whose code is all bytes of an image that may be code: those in the
/// ranges of ROM that are known, or all if there are none. The cases are those that are known.
///
/// # Errors
/// `AllocError` only if memory runs out.
pub fn base_regions(alloc: Global, image: &Image, known: Known<'_>) -> Result<Regions, AllocError>
    requires by_address { AreByAddress known.cases.now }
    requires each { All IsCase known.cases.now }
    ensures code { IfOk result (λ regions. Covers (may_be_code image.now.chunks known.entry.rom.now) regions.code) }
    ensures cases { IfOk result (λ regions. regions.cases ≡ known.entry.cases.now) }
{
    let regions = code_regions(alloc, image, known.rom)?;
    with_cases(alloc, &regions, known.cases)
}

/// Regions without a stack and without cases whose code is all bytes of an image that may be code:
/// those in the ranges of `rom`, or all if it has no ranges.
///
/// # Errors
/// `AllocError` only if memory runs out.
fn code_regions(alloc: Global, image: &Image, rom: &[Range]) -> Result<Regions, AllocError>
    ensures code { IfOk result (λ regions. Covers (may_be_code image.now.chunks rom.now) regions.code) }
    ensures cases { IfOk result (λ regions. regions.cases ≡ []) }
{
    let bytes = find_bytes(alloc, &image.chunks)?;
    let room = find_room(alloc, &bytes, rom)?;
    let code = ranges_of(alloc, &room)?;
    Ok(Regions::from_disjoint(alloc, code, NO_STACK, Vec::new(alloc)))
}

/// How many bytes of stack are wanted: as many as the program needs, and sixteen at least. Sixteen
/// too if the image is refused for something else than its stack. `AllocError` if memory runs out.
fn wanted_stack(alloc: Global, image: &Image) -> Result<u64, AllocError>
    ensures { IfOk result (λ wanted. IsWanted image.now wanted) }
{
    match measure(alloc, image) {
        Ok(report) if report.stack_bytes <= LEAST_STACK => Ok(LEAST_STACK),
        Ok(report) => Ok(report.stack_bytes),
        Err(Refusal::Memory) => Err(AllocError),
        Err(_) => Ok(LEAST_STACK),
    }
}
