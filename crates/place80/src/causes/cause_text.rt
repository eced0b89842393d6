//! The lines of a fault.

ghost use Rattle.std.specs.Prelude.{◌≡◌, ◌++◌, OnOk};
ghost use Rattle.place80.specs.Causes.{cause_text, unresolved_text, outside_text, first_overlap, overlap_text, high_text, start_text};

use crate::causes::lines::{
    append_alike, append_high, append_pair, append_placed, append_start, append_use,
};
use crate::causes::names::{alike, first_use_of};
use crate::causes::uses::first_high;
use crate::laying_out::place_all;
use crate::options::Options;
use crate::outside::first_outside;
use crate::overlap::{Pair, first_overlap};
use crate::place_fault::PlaceFault;
use crate::placed_segments::Placed;
use crate::restarting::first_over_restart;
use omf_core::Name;
use omf_model::Module;
use std::alloc::{AllocError, Global};

/// Appends the lines that say where the cause of a fault of `locate` or `locate_with_restart` is, each with two blanks before it:
///
/// - `Unresolved`: the first fixup that refers to the name, as `  CODE 0012 refers to it`, an offset in the module's segment, and the
///   first public whose name is the same in upper case, as `  the public GetKey differs in case alone`, each if there is one;
/// - `OutsideMemory`: the segment, its first address and its length, as `  STACK FFF0 0020`; the address is 10000 if the segments
///   before it end with memory;
/// - `Overlap`: the two segments; an absolute content is `  ABSOLUTE 3000 0003`, as are the three bytes of a restart;
/// - `HighNotPaged`: the first fixup of a high byte of an address that isn't a multiple of 256, as
///   `  METER uses the high byte of 4012 at CODE 0012`;
/// - `StartNotCode`: the address of the start, as `  START 4000`, and CODE.
///
/// There are no lines for other faults. Numbers are four hexadecimal digits.
///
/// # Errors
/// `AllocError` only if memory runs out; the text may then have some of the lines.
pub fn append_cause(
    alloc: Global,
    text: &mut Vec<u8>,
    program: &Module,
    options: &Options,
    fault: &PlaceFault,
) -> Result<(), AllocError>
    ensures { OnOk result (text.new.items ≡ text.old.items ++ cause_text options.now program.now fault.now) }
{
    match fault {
        PlaceFault::Unresolved(name) => append_unresolved(text, program, name),
        PlaceFault::OutsideMemory(_) => {
            append_outside(text, program, &place_all(alloc, program, options)?)
        }
        PlaceFault::Overlap(_, _) => {
            append_overlap(text, program, &place_all(alloc, program, options)?)
        }
        PlaceFault::HighNotPaged => {
            append_high_byte(text, program, &place_all(alloc, program, options)?)
        }
        PlaceFault::StartNotCode => {
            append_start_of(text, program, &place_all(alloc, program, options)?)
        }
        PlaceFault::NoStart | PlaceFault::Memory => Ok(()),
    }
}

/// Appends the lines for `Unresolved`: that of the first fixup that refers to the name, and that of the first public
/// whose name differs in case alone, each if there is one.
fn append_unresolved(text: &mut Vec<u8>, program: &Module, name: &Name) -> Result<(), AllocError>
    ensures { OnOk result (text.new.items ≡ text.old.items ++ unresolved_text program.now name.now) }
{
    append_use(text, program.commons(), first_use_of(program, name))?;
    append_alike(text, alike(program, name))
}

/// Appends the line for `OutsideMemory`: that of the first segment that is outside memory.
fn append_outside(
    text: &mut Vec<u8>,
    program: &Module,
    segments: &[Placed],
) -> Result<(), AllocError>
    ensures { OnOk result (text.new.items ≡ text.old.items ++ outside_text program.now segments.now) }
{
    match first_outside(program, segments) {
        Some(placed) => append_placed(text, program.commons(), placed),
        None => Ok(()),
    }
}

/// Appends the lines for `Overlap`: those of the first two segments, absolute contents or restart that share an address.
fn append_overlap(
    text: &mut Vec<u8>,
    program: &Module,
    segments: &[Placed],
) -> Result<(), AllocError>
    ensures { OnOk result (text.new.items ≡ text.old.items ++ overlap_text program.now segments.now) }
{
    append_pair(text, program.commons(), first_pair(program, segments))
}

/// The first two segments or absolute contents of a program that share an address, or else the restart and the first
/// of them that shares an address with it. `None` if there is no such pair.
#[tactic(auto, using(crate::proofs::PairLemmas::found_first, crate::proofs::PairLemmas::found_among_others))]
fn first_pair(program: &Module, segments: &[Placed]) -> Option<Pair>
    ensures { result ≡ first_overlap program.now segments.now }
{
    match first_overlap(program, segments) {
        Some(pair) => Some(pair),
        None => first_over_restart(program, segments),
    }
}

/// Appends the line for `HighNotPaged`: that of the first fixup that takes the high byte of an address that isn't a
/// multiple of 256.
fn append_high_byte(
    text: &mut Vec<u8>,
    program: &Module,
    segments: &[Placed],
) -> Result<(), AllocError>
    ensures { OnOk result (text.new.items ≡ text.old.items ++ high_text program.now segments.now) }
{
    append_high(text, program, first_high(segments, program))
}

/// Appends the lines for `StartNotCode`: that of the address of the program's start, and that of CODE.
fn append_start_of(
    text: &mut Vec<u8>,
    program: &Module,
    segments: &[Placed],
) -> Result<(), AllocError>
    ensures { OnOk result (text.new.items ≡ text.old.items ++ start_text program.now segments.now) }
{
    append_start(text, program.commons(), segments, program.start())
}
