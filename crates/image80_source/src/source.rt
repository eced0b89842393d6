//! The source of an image.

ghost use Rattle.std.specs.Prelude.{◌≡◌, All, IfOk};
ghost use Rattle.image80_source.specs.Placed.{IsShort};
ghost use Rattle.image80_source.specs.Source.{IsSourceOf};
ghost use Rattle.image80_source.specs.SourceText.{source_text};

use crate::contents::Contents;
use crate::covered::marks_of_chunks;
use crate::labels::Labels;
use crate::line::Line;
use crate::lines::lines_of;
use crate::targets::{case_targets, labels_of};
use crate::text::{append_equates, append_lines, append_ports, append_start};
use decode80::Fetched;
use image80::Image;
use image80::laws::memory_has_the_byte_of_the_last_chunk;
use image80_text::PublicTable;
use std::alloc::{AllocError, Global};

/// The source of an image, as Intel's ASM80 takes it: assembled, it gives the bytes of the image's contents at their
/// addresses. `table` says by address which instruction begins there; an address that it lacks has none.
///
/// A line is an instruction of the table if all of its bytes are in the contents and it begins behind the line before;
/// every other byte is data: DW for the target of a case, DB with characters between quotes or with numbers. An address
/// that lines refer to, or that has a public, has a label: the name of its first public, if an assembler takes it and no
/// lower address has it, else L and four digits, or R and four digits in data and stack; the name is a comment then.
/// Labels at which no line begins, and the names of ports, are defined by EQU.
///
/// # Errors
/// `AllocError` only if memory runs out.
pub fn source_of(
    alloc: Global,
    image: &Image,
    table: &[Option<Fetched>],
    publics: &PublicTable,
) -> Result<Vec<u8>, AllocError>
    ensures { IfOk result (λ shown. IsSourceOf image.now publics.now table.now shown.items) }
{
    memory_has_the_byte_of_the_last_chunk();
    let memory = image.memory(alloc)?;
    let covered = marks_of_chunks(alloc, &image.chunks)?;
    let cases = case_targets(alloc, &image.regions)?;
    let contents = Contents {
        memory: &memory,
        covered: &covered,
        table,
        cases: &cases,
        labelled: &[],
    };
    let references = lines_of(alloc, contents)?;
    let labels = labels_of(alloc, image, publics, &covered, &references)?;
    let contents = Contents {
        labelled: labels.marks(),
        ..contents
    };
    let lines = lines_of(alloc, contents)?;
    let text = text_of(alloc, &labels, &lines, image.start)?;
    Ok(text)
}

/// The text of these lines, with the names that they use. None may stand for more than 65536 bytes.
fn text_of(
    alloc: Global,
    labels: &Labels<'_>,
    lines: &[Line<'_>],
    start: u16,
) -> Result<Vec<u8>, AllocError>
    requires { All IsShort lines.now }
    ensures { IfOk result (λ shown. shown.items ≡ source_text labels.now lines.now start) }
{
    let mut text = Vec::new(alloc);
    append_ports(labels, &mut text)?;
    append_equates(alloc, labels, lines, &mut text)?;
    append_lines(alloc, labels, lines, &mut text)?;
    append_start(alloc, labels, start, &mut text)?;
    Ok(text)
}
