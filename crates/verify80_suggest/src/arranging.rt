//! Regions of what is found of an image.

ghost use Rattle.std.specs.Prelude.{◌≡◌, [], All, IfOk, length};
ghost use Rattle.image80.specs.Case.{AreByAddress, IsCase};
ghost use Rattle.verify80_cases.specs.Marks.{AreMarks, marked};
ghost use Rattle.verify80_suggest.specs.Stack.{IsStack};
ghost use Rattle.verify80_suggest.specs.Suggestion.{AreMarkTables, IsArranged, is_data, is_taken};

use crate::bytes::is_in;
use crate::ranges::ranges_of;
use crate::setters::Setter;
use crate::stack::stack_below;
use crate::survey::Survey;
use crate::with_cases::with_cases;
use image80::{Case, Range, Regions};
use std::alloc::{AllocError, Global};

/// The stack of a program without an LXI SP.
pub(crate) const NO_STACK: Range = Range {
    first: 0,
    length: 0,
};

/// The regions that a survey of an image suggests, with these cases, and with a stack of `wanted`
/// bytes or as many as are free. Each table of marks in `survey` must have an entry for each
/// address. `cases` must be by address, one for an address at most, each with ascending targets, at
/// least one.
///
/// # Errors
/// `AllocError` only if memory runs out.
pub(crate) fn arrange(
    alloc: Global,
    survey: &Survey,
    cases: &[Case],
    ram: &[Range],
    wanted: u64,
) -> Result<Regions, AllocError>
    requires tables { AreMarkTables survey.now }
    requires by_address { AreByAddress cases.now }
    requires each { All IsCase cases.now }
    ensures { IfOk result (λ regions. IsArranged survey.now cases.now ram.now wanted regions) }
{
    let regions = without_cases(alloc, survey, ram, wanted)?;
    with_cases(alloc, &regions, cases)
}

/// The regions that a survey suggests, without cases. Each table of marks in `survey` must have an
/// entry for each address. `AllocError` if memory runs out.
fn without_cases(
    alloc: Global,
    survey: &Survey,
    ram: &[Range],
    wanted: u64,
) -> Result<Regions, AllocError>
    requires { AreMarkTables survey.now }
    ensures { IfOk result (λ regions. IsArranged survey.now [] ram.now wanted regions) }
{
    let code = ranges_of(alloc, &survey.code)?;
    let taken = find_taken(alloc, survey)?;
    let stack = stack_of(survey.first, &taken, wanted);
    let marks = find_data(alloc, survey, ram, stack)?;
    let data_ranges = ranges_of(alloc, &marks)?;
    Ok(Regions::from_disjoint(alloc, code, stack, data_ranges))
}

/// For each address whether the stack can't lie there. Each table of marks in `survey` must have an
/// entry for each address. `AllocError` if memory runs out.
fn find_taken(alloc: Global, survey: &Survey) -> Result<Vec<bool>, AllocError>
    requires { AreMarkTables survey.now }
    ensures { IfOk result (λ marks. AreMarks (is_taken survey.now) 65536 marks.items) }
{
    let mut marks = Vec::new(alloc);
    for address in 0..65_536_u32 {
        marks.push(is_taken(survey, address as u16))?;
    }
    Ok(marks)
}

/// Whether the stack can't lie at an address: the image has a byte there, or an instruction names
/// it, or it is code. Each table of marks in `survey` must have an entry for each address.
fn is_taken(survey: &Survey, address: u16) -> bool
    requires { AreMarkTables survey.now }
    ensures { result ≡ is_taken survey.now address }
{
    let index = usize::from(address);
    survey.bytes[index] || survey.named[index] || survey.code[index]
}

/// The stack below the word of the first LXI SP, in bytes that aren't taken; an empty one if there
/// is no LXI SP. `taken` must have an entry for each address.
fn stack_of(first: Option<Setter>, taken: &[bool], wanted: u64) -> Range
    requires { length taken.now ≡ 65536 }
    ensures { IsStack (marked taken.now) first wanted result }
{
    match first {
        Some(setter) => stack_below(setter.word, wanted, taken),
        None => NO_STACK,
    }
}

/// For each address whether it is to be data. Each table of marks in `survey` must have an entry
/// for each address. `AllocError` if memory runs out.
fn find_data(
    alloc: Global,
    survey: &Survey,
    ram: &[Range],
    stack: Range,
) -> Result<Vec<bool>, AllocError>
    requires { AreMarkTables survey.now }
    ensures { IfOk result (λ marks. AreMarks (is_data survey.now ram.now stack) 65536 marks.items) }
{
    let mut marks = Vec::new(alloc);
    for address in 0..65_536_u32 {
        marks.push(is_data(survey, ram, stack, address as u16))?;
    }
    Ok(marks)
}

/// Whether an address is to be data: in a range of `ram`, or, if that has no ranges, named by an
/// instruction and without a byte of the image; and neither code nor in the stack. Each table of marks in `survey` must have an entry for each address.
fn is_data(survey: &Survey, ram: &[Range], stack: Range, address: u16) -> bool
    requires { AreMarkTables survey.now }
    ensures { result ≡ is_data survey.now ram.now stack address }
{
    let index = usize::from(address);
    let in_ram = if ram.is_empty() {
        survey.named[index] && !survey.bytes[index]
    } else {
        is_in(ram, address)
    };
    in_ram && !survey.code[index] && !stack.contains(address)
}
