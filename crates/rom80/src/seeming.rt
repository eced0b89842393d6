//! What a file that is given as a dump seems to be.

ghost use Rattle.std.specs.Prelude.{◌≡◌, ◌==◌};
ghost use Rattle.std.specs.Char.{is_ascii_hexdigit};
ghost use Rattle.std.specs.List.{list_all, list_any, slice_split};
ghost use Rattle.rom80.specs.DumpKinds.{are_digit_pairs, begins_with_header, dump_kind, is_dump_line, is_hex_line, is_line_of, is_part_of, is_s_record, is_text_of, may_be_part_of, without_return};

use omf_core::{RecordKind, next_record};

/// The type of the record with which an object file begins.
const MODULE_HEADER: u8 = RecordKind::ModuleHeader as u8;

/// The byte with which CP/M fills a text up to the end of its last record.
const CONTROL_Z: u8 = 0x1A;

/// A kind of file that encodes bytes instead of holding them as they are, so that it is no dump.
#[derive(Clone, Copy, PartialEq, Eq)]
pub enum DumpKind {
    /// Lines of Intel's hexadecimal format.
    IntelHex,
    /// Lines of Motorola's S-records.
    SRecords,
    /// Lines of `xxd`.
    HexDump,
    /// Lines of `xxd -p`.
    PlainHexDump,
    /// An object file, as an image is one.
    ObjectFile,
}

impl DumpKind {
    /// The kind of file that the bytes seem to be: an object file by the first record, or a text by all of its lines.
    /// `None` if they seem to be a dump, although the bytes of a dump may happen to spell such a file.
    pub fn of(bytes: &[u8]) -> Option<DumpKind>
        ensures { result ≡ dump_kind bytes.now }
    {
        if begins_with_header(bytes) {
            Some(DumpKind::ObjectFile)
        } else if is_text_of(DumpKind::IntelHex, bytes) {
            Some(DumpKind::IntelHex)
        } else if is_text_of(DumpKind::SRecords, bytes) {
            Some(DumpKind::SRecords)
        } else if is_text_of(DumpKind::HexDump, bytes) {
            Some(DumpKind::HexDump)
        } else if is_text_of(DumpKind::PlainHexDump, bytes) {
            Some(DumpKind::PlainHexDump)
        } else {
            None
        }
    }

    /// Whether a line, without its line end, is a line of this kind of text; never for an object file.
    fn is_line(self, line: &[u8]) -> bool
        ensures { result ≡ is_line_of self line.now }
    {
        match self {
            DumpKind::IntelHex => is_hex_line(line),
            DumpKind::SRecords => is_s_record(line),
            DumpKind::HexDump => is_dump_line(line),
            DumpKind::PlainHexDump => are_digit_pairs(line, 2),
            DumpKind::ObjectFile => false,
        }
    }
}

/// Whether the bytes begin with a whole record that is a module header.
fn begins_with_header(bytes: &[u8]) -> bool
    ensures { result ≡ begins_with_header bytes.now }
{
    match next_record(bytes, 0) {
        Ok((record, _)) => record.kind == MODULE_HEADER,
        Err(_) => false,
    }
}

/// Whether the bytes are a text of at least one line of this kind and of nothing else but the CONTROL-Z that CP/M
/// fills up with.
fn is_text_of(kind: DumpKind, bytes: &[u8]) -> bool
    ensures { result ≡ is_text_of kind bytes.now }
{
    are_lines(kind, bytes) && has_line(kind, bytes)
}

/// Whether each part of the bytes between line feeds is a line of this kind or has only CONTROL-Z.
fn are_lines(kind: DumpKind, bytes: &[u8]) -> bool
    ensures { result ≡ list_all (may_be_part_of kind) (slice_split (λ byte. byte == 10) bytes.now) }
{
    bytes
        .split(|byte| *byte == b'\n')
        .all(|part| may_be_part_of(kind, part))
}

/// Whether some part of the bytes between line feeds is a line of this kind.
fn has_line(kind: DumpKind, bytes: &[u8]) -> bool
    ensures { result ≡ list_any (is_part_of kind) (slice_split (λ byte. byte == 10) bytes.now) }
{
    bytes
        .split(|byte| *byte == b'\n')
        .any(|part| is_part_of(kind, part))
}

/// Whether a part between line feeds is a line of this kind or has only CONTROL-Z.
fn may_be_part_of(kind: DumpKind, part: &[u8]) -> bool
    ensures { result ≡ may_be_part_of kind part.now }
{
    is_part_of(kind, part) || fills_up(part)
}

/// Whether a part between line feeds has nothing but CONTROL-Z, with which CP/M fills up a text; also true if it is
/// empty.
fn fills_up(part: &[u8]) -> bool
    ensures { result ≡ list_all (λ byte. byte == 0x1A) part.now }
{
    part.iter().all(|byte| *byte == CONTROL_Z)
}

/// Whether a part between line feeds, without a carriage return at its end, is a line of this kind.
fn is_part_of(kind: DumpKind, part: &[u8]) -> bool
    ensures { result ≡ is_part_of kind part.now }
{
    kind.is_line(without_return(part))
}

/// The line without the carriage return at its end, if it has one.
fn without_return(part: &[u8]) -> &[u8]
    ensures { result.now ≡ without_return part.now }
{
    if part.ends_with(b"\r") {
        &part[..part.len() - 1]
    } else {
        part
    }
}

/// Whether a line is like a record of Intel's hexadecimal format: a colon and at least five pairs of hexadecimal digits.
fn is_hex_line(line: &[u8]) -> bool
    ensures { result ≡ is_hex_line line.now }
{
    !line.is_empty() && line[0] == b':' && are_digit_pairs(&line[1..], 10)
}

/// Whether a line is like an S-record: `S`, a decimal digit and at least four pairs of hexadecimal digits.
fn is_s_record(line: &[u8]) -> bool
    ensures { result ≡ is_s_record line.now }
{
    line.len() >= 2 && line[0] == b'S' && line[1].is_ascii_digit() && are_digit_pairs(&line[2..], 8)
}

/// Whether a line begins like one of `xxd`: eight hexadecimal digits, a colon, a space and two hexadecimal digits.
fn is_dump_line(line: &[u8]) -> bool
    ensures { result ≡ is_dump_line line.now }
{
    line.len() >= 12
        && are_digit_pairs(&line[..8], 8)
        && line[8] == b':'
        && line[9] == b' '
        && are_digit_pairs(&line[10..12], 2)
}

/// Whether the bytes are all hexadecimal digits of either case, an even number of them and at least `least`.
fn are_digit_pairs(bytes: &[u8], least: usize) -> bool
    ensures { result ≡ are_digit_pairs least bytes.now }
{
    least <= bytes.len() && bytes.len() % 2 == 0 && are_digits(bytes)
}

/// Whether all bytes are hexadecimal digits of either case.
fn are_digits(bytes: &[u8]) -> bool
    ensures { result ≡ list_all is_ascii_hexdigit bytes.now }
{
    bytes.iter().all(|byte| is_digit(*byte))
}

/// Whether a byte is a hexadecimal digit of either case.
fn is_digit(byte: u8) -> bool
    ensures { result ≡ is_ascii_hexdigit byte }
{
    byte.is_ascii_hexdigit()
}
