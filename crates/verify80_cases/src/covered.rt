//! The bytes of the instructions that the program may reach.

ghost use Rattle.std.specs.Prelude.{◌≡◌, ◌<◌, length, IfOk};
ghost use Rattle.verify80_cases.specs.Covered.{is_covered, size_at};
ghost use Rattle.verify80_cases.specs.Marks.{AreMarks};

use decode80::{FetchFault, behind, fetch};
use std::alloc::{AllocError, Global};
use verify80::ImageCode;

/// For each address whether it is a byte of an instruction that begins at a marked address of
/// `reached`. An unused opcode counts as an instruction of one byte. `reached` must have an entry
/// for each address.
///
/// # Errors
/// `AllocError` only if memory runs out.
pub fn find_covered(
    alloc: Global,
    code: &ImageCode<'_>,
    reached: &[bool],
) -> Result<Vec<bool>, AllocError>
    requires { length reached.now ≡ 65536 }
    ensures { IfOk result (λ marks. AreMarks (is_covered code.now reached.now) 65536 marks.items) }
{
    let mut marks = Vec::new(alloc);
    for address in 0..65_536_u32 {
        marks.push(is_covered(code, reached, address as u16))?;
    }
    Ok(marks)
}

/// How many bytes the instruction at a marked address has, 1 for an unused opcode; 0 if the address
/// isn't marked, or a byte of the instruction is outside CODE or past FFFF. `reached` must have an
/// entry for each address.
#[tactic(auto, unfolding(crate::specs::Covered::size_at))]
fn size_at(code: &ImageCode<'_>, reached: &[bool], at: u16) -> u16
    requires { length reached.now ≡ 65536 }
    ensures { result ≡ size_at code.now reached.now at }
{
    if !reached[usize::from(at)] {
        return 0;
    }
    match fetch(at, code) {
        Ok(found) => behind(found.next, at),
        Err(FetchFault::Unused) => 1,
        Err(FetchFault::Outside) => 0,
    }
}

/// Whether an address is a byte of an instruction at a marked address: one that begins there, or
/// one or two addresses before. `reached` must have an entry for each address.
fn is_covered(code: &ImageCode<'_>, reached: &[bool], address: u16) -> bool
    requires { length reached.now ≡ 65536 }
    ensures { result ≡ is_covered code.now reached.now address }
{
    size_at(code, reached, address) > 0
        || (address >= 1 && size_at(code, reached, address - 1) > 1)
        || (address >= 2 && size_at(code, reached, address - 2) > 2)
}
