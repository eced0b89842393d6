//! The text of a source.

ghost use Rattle.std.specs.Prelude.{◌≡◌, All, ◌<◌, ◌+◌, ◌++◌, ◌∷◌, [], OnOk, length, codes, drop};
ghost use Rattle.std.specs.List.{flat_map};
ghost use Rattle.image80_source.specs.Labels.{label_at};
ghost use Rattle.image80_source.specs.Placed.{IsShort};
ghost use Rattle.image80_source.specs.SourceText.{byte_number, content_text, end_text, equate_text, label_equate, label_equates, label_field};
ghost use Rattle.image80_source.specs.SourceText.{line_end, line_text, lines_text, numbers_text, origin_if, origin_text, port_equate, port_equates};

use crate::covered::{ADDRESSES, is_marked, marks_of_lines};
use crate::labels::Labels;
use crate::line::{Content, Line, size_of};
use crate::operands::{append_address, append_instruction, append_number, append_word};
use std::alloc::{AllocError, Global};
use text80::{byte_digits, word_digits};

/// The blanks of a column.
static BLANKS: [u8; 8] = *b"        ";

/// Appends the lines, each with an ORG before it if it doesn't begin where the one before it ends. None may stand for more than
/// 65536 bytes.
pub(crate) fn append_lines(
    alloc: Global,
    labels: &Labels<'_>,
    lines: &[Line<'_>],
    out: &mut Vec<u8>,
) -> Result<(), AllocError>
    requires { All IsShort lines.now }
    ensures { OnOk result (out.new.items ≡ out.old.items ++ lines_text labels.now 0 lines.now) }
{
    let mut behind = 0;
    let mut rest = lines;
    while let [line, after @ ..] = rest {
        append_origin(alloc, line.at, behind, out)?;
        append_line(alloc, labels, *line, out)?;
        behind = usize::from(line.at) + size_of(line.content);
        rest = after;
    }
    Ok(())
}

/// Appends an ORG for the next line, unless it begins at `behind`, where the one before it ends.
fn append_origin(
    alloc: Global,
    address: u16,
    behind: usize,
    out: &mut Vec<u8>,
) -> Result<(), AllocError>
    ensures { OnOk result (out.new.items ≡ out.old.items ++ origin_if address behind) }
{
    if usize::from(address) == behind {
        return Ok(());
    }
    append_org(alloc, address, out)
}

/// Appends an ORG.
fn append_org(alloc: Global, address: u16, out: &mut Vec<u8>) -> Result<(), AllocError>
    ensures { OnOk result (out.new.items ≡ out.old.items ++ origin_text address) }
{
    let mut operand = Vec::new(alloc);
    append_address(address, &mut operand)?;
    append_directive(b"ORG ", &operand, out)
}

/// Appends a line of a code without a label and its operand.
fn append_directive(code: &[u8], operand: &[u8], out: &mut Vec<u8>) -> Result<(), AllocError>
    ensures { OnOk result (out.new.items ≡ out.old.items ++ (codes "        " ++ (code.now ++ (operand.now ++ 10 ∷ [])))) }
{
    out.extend_from_slice(&BLANKS)?;
    out.extend_from_slice(code)?;
    out.extend_from_slice(operand)?;
    out.push(b'\n')?;
    Ok(())
}

/// Appends a line: its label, what it says, and a name of its address that is no label.
fn append_line(
    alloc: Global,
    labels: &Labels<'_>,
    line: Line<'_>,
    out: &mut Vec<u8>,
) -> Result<(), AllocError>
    ensures { OnOk result (out.new.items ≡ out.old.items ++ line_text labels.now line.entry) }
{
    append_label(alloc, labels, line.at, out)?;
    append_content(alloc, labels, line.content, out)?;
    append_end(labels, line.at, out)
}

/// Appends the label of an address and a colon, or blanks if it has none, filled to eight places.
fn append_label(
    alloc: Global,
    labels: &Labels<'_>,
    address: u16,
    out: &mut Vec<u8>,
) -> Result<(), AllocError>
    ensures { OnOk result (out.new.items ≡ out.old.items ++ label_field (label_at labels.now address)) }
{
    if !labels.has_label(address) {
        return out.extend_from_slice(&BLANKS);
    }
    let mut name = Vec::new(alloc);
    labels.append_name(address, &mut name)?;
    append_field(&name, out)
}

/// Appends a label and a colon, filled to eight places.
fn append_field(name: &[u8], out: &mut Vec<u8>) -> Result<(), AllocError>
    ensures { OnOk result (out.new.items ≡ out.old.items ++ (name.now ++ (codes ":" ++ drop (length name.now + 1) (codes "        ")))) }
{
    out.extend_from_slice(name)?;
    out.push(b':')?;
    append_blanks(name.len().saturating_add(1), out)
}

/// Appends the blanks of a column of eight places of which some are taken.
fn append_blanks(taken: usize, out: &mut Vec<u8>) -> Result<(), AllocError>
    ensures { OnOk result (out.new.items ≡ out.old.items ++ drop taken (codes "        ")) }
{
    if taken < 8 {
        return out.extend_from_slice(&BLANKS[taken..]);
    }
    Ok(())
}

/// Appends what a line says.
fn append_content(
    alloc: Global,
    labels: &Labels<'_>,
    content: Content<'_>,
    out: &mut Vec<u8>,
) -> Result<(), AllocError>
    ensures { OnOk result (out.new.items ≡ out.old.items ++ content_text labels.now content.entry) }
{
    match content {
        Content::Instruction(instr) => append_instruction(alloc, labels, instr, out),
        Content::Bytes(bytes) => append_bytes(bytes, out),
        Content::Quoted(bytes) => append_quoted(bytes, out),
        Content::Word(word) => {
            out.extend_from_slice(b"DW ".as_slice())?;
            append_word(labels, word, out)
        }
    }
}

/// Appends DB and these bytes as numbers.
fn append_bytes(bytes: &[u8], out: &mut Vec<u8>) -> Result<(), AllocError>
    ensures { OnOk result (out.new.items ≡ out.old.items ++ (codes "DB " ++ numbers_text bytes.now)) }
{
    out.extend_from_slice(b"DB ".as_slice())?;
    match bytes {
        [first, rest @ ..] => {
            append_number(&byte_digits(*first), out)?;
            append_others(rest, out)
        }
        [] => Ok(()),
    }
}

/// Appends each of these bytes as a number behind a comma.
fn append_others(bytes: &[u8], out: &mut Vec<u8>) -> Result<(), AllocError>
    ensures { OnOk result (out.new.items ≡ out.old.items ++ flat_map (λ b. codes "," ++ byte_number b) bytes.now) }
{
    for byte in bytes {
        out.push(b',')?;
        append_number(&byte_digits(*byte), out)?;
    }
    Ok(())
}

/// Appends DB and these characters between quotes.
fn append_quoted(bytes: &[u8], out: &mut Vec<u8>) -> Result<(), AllocError>
    ensures { OnOk result (out.new.items ≡ out.old.items ++ (codes "DB '" ++ (bytes.now ++ codes "'"))) }
{
    out.extend_from_slice(b"DB '".as_slice())?;
    out.extend_from_slice(bytes)?;
    out.push(b'\'')?;
    Ok(())
}

/// Appends the name of an address that is no label, as a comment, and the end of the line.
fn append_end(labels: &Labels<'_>, address: u16, out: &mut Vec<u8>) -> Result<(), AllocError>
    ensures { OnOk result (out.new.items ≡ out.old.items ++ line_end labels.now address) }
{
    if let Some(public) = labels.other_public(address) {
        out.extend_from_slice(b" ;".as_slice())?;
        out.extend_from_slice(public.name.bytes())?;
    }
    out.push(b'\n')?;
    Ok(())
}

/// Appends the lines that define the names of ports.
pub(crate) fn append_ports(labels: &Labels<'_>, out: &mut Vec<u8>) -> Result<(), AllocError>
    ensures { OnOk result (out.new.items ≡ out.old.items ++ port_equates labels.now) }
{
    for port in 0..256usize {
        append_port_equate(labels, port as u8, out)?;
    }
    Ok(())
}

/// Appends the line that defines a port's name, if it has one.
fn append_port_equate(labels: &Labels<'_>, port: u8, out: &mut Vec<u8>) -> Result<(), AllocError>
    ensures { OnOk result (out.new.items ≡ out.old.items ++ port_equate labels.now port) }
{
    if labels.has_port(port) {
        let [high, low] = byte_digits(port);
        append_equate(&[b'P', high, low], &[high, low], out)?;
        out.push(b'\n')?;
    }
    Ok(())
}

/// Appends a name, filled to eight places, and its value.
fn append_equate(name: &[u8], digits: &[u8], out: &mut Vec<u8>) -> Result<(), AllocError>
    requires { 0 < length digits.now }
    ensures { OnOk result (out.new.items ≡ out.old.items ++ equate_text name.now digits.now) }
{
    out.extend_from_slice(name)?;
    append_blanks(name.len(), out)?;
    out.extend_from_slice(b"EQU ".as_slice())?;
    append_number(digits, out)
}

/// Appends the lines that define the labels of addresses at which no line begins.
pub(crate) fn append_equates(
    alloc: Global,
    labels: &Labels<'_>,
    lines: &[Line<'_>],
    out: &mut Vec<u8>,
) -> Result<(), AllocError>
    ensures { OnOk result (out.new.items ≡ out.old.items ++ label_equates labels.now lines.now) }
{
    let begun = marks_of_lines(alloc, lines)?;
    for address in 0..ADDRESSES {
        let is_begun = is_marked(&begun, address);
        append_label_equate(alloc, labels, is_begun, address as u16, out)?;
    }
    Ok(())
}

/// Appends the line that defines an address's label, if it has one and no line begins there.
fn append_label_equate(
    alloc: Global,
    labels: &Labels<'_>,
    is_begun: bool,
    address: u16,
    out: &mut Vec<u8>,
) -> Result<(), AllocError>
    ensures { OnOk result (out.new.items ≡ out.old.items ++ label_equate labels.now is_begun address) }
{
    if is_begun || !labels.has_label(address) {
        return Ok(());
    }
    let mut name = Vec::new(alloc);
    labels.append_name(address, &mut name)?;
    append_equate(&name, &word_digits(address), out)?;
    append_end(labels, address, out)
}

/// Appends the last line, with the address at which the program starts.
pub(crate) fn append_start(
    alloc: Global,
    labels: &Labels<'_>,
    start: u16,
    out: &mut Vec<u8>,
) -> Result<(), AllocError>
    ensures { OnOk result (out.new.items ≡ out.old.items ++ end_text labels.now start) }
{
    let mut operand = Vec::new(alloc);
    append_word(labels, start, &mut operand)?;
    append_directive(b"END ", &operand, out)
}
