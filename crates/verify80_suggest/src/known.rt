//! What is known of an image beforehand.

ghost use Rattle.std.specs.Prelude.{◌≡◌, All, IfNone, IfOk, IfSome, true};
ghost use Rattle.image80.specs.{Image.memory_of, Regions.in_code};
ghost use Rattle.verify80.specs.LookLaws.{fetch_at};
ghost use Rattle.verify80_cases.specs.Suggested.{holds_pchl};
ghost use Rattle.verify80_suggest.specs.Known.{FitsCase, FitsIn, IsUnfit, has_instruction};

use decode80::{Instr, fetch};
use image80::{Case, Image, Range};
use std::alloc::{AllocError, Global};
use thiserror::Error;
use verify80::ImageCode;

/// What is known of an image beforehand: of the board, and of code that nothing in the image shows.
#[derive(Clone, Copy)]
pub struct Known<'a> {
    /// The ranges in which all code lies; if there are none, all bytes of the image may be code.
    pub rom: &'a [Range],
    /// The ranges that are data, but for code and stack; if there are none, data is what instructions name.
    pub ram: &'a [Range],
    /// The addresses at which code begins, besides the start.
    pub entries: &'a [u16],
    /// The targets of PCHLs, by address, one case for an address at most.
    pub cases: &'a [Case],
}

/// Why what is said to be known of an image can't be.
#[derive(Clone, Copy, Debug, PartialEq, Eq, Error)]
pub enum KnownFault {
    /// No instruction begins at this address, an entry or a target: its opcode is unused, or the image lacks one of its
    /// bytes, or has it outside the ranges of ROM.
    #[error("NoInstruction {0:04X}")]
    NoInstruction(u16),
    /// No PCHL is at this address, that of a case.
    #[error("NotPchl {0:04X}")]
    NotPchl(u16),
}

/// The first fault of the cases that are known, and of their targets, or else of the entries; `None` if none is found. `image` must have the
/// regions [`crate::base_regions`].
///
/// # Errors
/// `AllocError` only if memory runs out.
pub fn find_fault(
    alloc: Global,
    image: &Image,
    known: Known<'_>,
) -> Result<Option<KnownFault>, AllocError>
    ensures there { IfOk result (λ fault. IfSome fault (IsUnfit image.now)) }
    ensures unfit { let known = known.entry in IfOk result (λ fault. IfSome fault (λ _.
        FitsIn (in_code image.now.regions) image.now known.entries.now known.cases.now → ⊥)) }
    ensures fits { let known = known.entry in IfOk result (λ fault. IfNone fault
        (FitsIn (in_code image.now.regions) image.now known.entries.now known.cases.now)) }
{
    let code = ImageCode::new(alloc, image)?;
    if let Some(fault) = unfit_case(&code, known.cases) {
        return Ok(Some(fault));
    }
    Ok(lacking_instruction(&code, known.entries))
}

/// The fault of the first of these cases that doesn't fit; `None` if each does.
fn unfit_case(code: &ImageCode<'_>, cases: &[Case]) -> Option<KnownFault>
    ensures there { IfSome result (IsUnfit code.now) }
    ensures unfit { IfSome result (λ _. All (FitsCase (in_code code.now.regions) code.now) cases.now → ⊥) }
    ensures fits { IfNone result (All (FitsCase (in_code code.now.regions) code.now) cases.now) }
{
    for case in cases {
        if let Some(fault) = fault_of_case(code, case) {
            return Some(fault);
        }
    }
    None
}

/// The fault of a case: no PCHL is at its address, or no instruction begins at one of its targets; `None` if it fits.
fn fault_of_case(code: &ImageCode<'_>, case: &Case) -> Option<KnownFault>
    ensures there { IfSome result (IsUnfit code.now) }
    ensures unfit { IfSome result (λ _. FitsCase (in_code code.now.regions) code.now case.now → ⊥) }
    ensures fits { IfNone result (FitsCase (in_code code.now.regions) code.now case.now) }
{
    if holds_pchl(code, case.at) {
        lacking_instruction(code, &case.targets)
    } else {
        Some(KnownFault::NotPchl(case.at))
    }
}

/// The fault of the first of these addresses at which no instruction begins; `None` if one begins at each.
fn lacking_instruction(code: &ImageCode<'_>, addresses: &[u16]) -> Option<KnownFault>
    ensures there { IfSome result (IsUnfit code.now) }
    ensures unfit { IfSome result (λ _. All (λ at. has_instruction code.now at ≡ true) addresses.now → ⊥) }
    ensures fits { IfNone result (All (λ at. has_instruction code.now at ≡ true) addresses.now) }
{
    for at in addresses {
        if !has_instruction(code, *at) {
            return Some(KnownFault::NoInstruction(*at));
        }
    }
    None
}

/// Whether an instruction begins at an address, all in CODE.
fn has_instruction(code: &ImageCode<'_>, at: u16) -> bool
    ensures { result ≡ has_instruction code.now at }
{
    fetch(at, code).is_ok()
}

/// Whether an address has a PCHL in CODE.
fn holds_pchl(code: &ImageCode<'_>, at: u16) -> bool
    ensures { result ≡ holds_pchl (fetch_at code.now.regions (memory_of code.now.chunks) at) }
{
    match fetch(at, code) {
        Ok(found) => matches!(found.instr, Instr::Pchl),
        Err(_) => false,
    }
}
