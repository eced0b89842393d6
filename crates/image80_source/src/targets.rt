//! The addresses and ports that a source names.

ghost use Rattle.std.specs.Prelude.{◌≡◌, IfOk};

use crate::covered::{ADDRESSES, is_marked};
use crate::labels::Labels;
use crate::line::{Content, Line};
use crate::names::own_names;
use crate::operands::{Datum, datum_of};
use decode80::{Instr, Pair};
use image80::{Image, Regions};
use image80_text::PublicTable;
use std::alloc::{AllocError, Global};

/// By address, whether a PCHL is declared to go there.
pub(crate) fn case_targets(alloc: Global, regions: &Regions) -> Result<Vec<bool>, AllocError> {
    let mut targets = vec![in alloc; false; ADDRESSES]?;
    for case in regions.cases() {
        for target in &case.targets {
            set(&mut targets, *target);
        }
    }
    Ok(targets)
}

/// The labels of an image by what its lines refer to: the targets of jumps, calls and cases; the operands of LDA, STA,
/// LHLD and SHLD, and those of LXI that are in the contents or in RAM; the start; and each address with a public.
pub(crate) fn labels_of<'a>(
    alloc: Global,
    image: &'a Image,
    publics: &'a PublicTable,
    covered: &[u8],
    lines: &[Line<'_>],
) -> Result<Labels<'a>, AllocError>
    ensures regions { IfOk result (λ labels. labels.regions ≡ image.now.regions) }
    ensures publics { IfOk result (λ labels. labels.publics ≡ publics.now) }
{
    let mut marks = case_targets(alloc, &image.regions)?;
    let mut ports = vec![in alloc; false; 256]?;
    set(&mut marks, image.start);
    set_publics(publics, &mut marks);
    for line in lines {
        set_line(
            &image.regions,
            covered,
            line.content,
            &mut marks,
            &mut ports,
        );
    }
    Ok(Labels {
        regions: &image.regions,
        publics,
        marks,
        own: own_names(alloc, publics)?,
        ports,
    })
}

/// Sets each address that has a public.
fn set_publics(publics: &PublicTable, marks: &mut Vec<bool>) {
    for address in 0..ADDRESSES {
        if publics.at(address as u16).is_some() {
            set(marks, address as u16);
        }
    }
}

/// Sets the address or the port to which a line refers, if any.
fn set_line(
    regions: &Regions,
    covered: &[u8],
    content: Content<'_>,
    marks: &mut Vec<bool>,
    ports: &mut Vec<bool>,
) {
    if let Content::Instruction(instr) = content {
        match datum_of(instr) {
            Datum::OnePort(port) => set(ports, u16::from(port)),
            Datum::OneWord(word) if is_address(regions, covered, instr, word) => set(marks, word),
            _ => {}
        }
    }
}

/// Whether the word of an instruction is an address: always, but for LXI only if it is in the contents or in RAM.
fn is_address(regions: &Regions, covered: &[u8], instr: Instr, word: u16) -> bool {
    match instr {
        Instr::Lxi(Pair::Sp, _) => false,
        Instr::Lxi(_, _) => {
            is_marked(covered, usize::from(word))
                || regions.in_data(word)
                || regions.stack().contains(word)
        }
        _ => true,
    }
}

/// Sets an entry of a table, if the table has it.
fn set(table: &mut Vec<bool>, number: u16) {
    if let Some(entry) = table.get_mut(usize::from(number)) {
        *entry = true;
    }
}
