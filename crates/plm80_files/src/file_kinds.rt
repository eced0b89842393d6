//! What a file seems to be, in words, if a command takes it for another one.

ghost use Rattle.std.specs.Prelude.{◌≡◌, ◌==◌, is_some};
ghost use Rattle.std.specs.List.{list_all, list_any};
ghost use Rattle.plm80_files.specs.FileKinds.{
  begins_with_digits,
  is_explained,
  is_inputs_start,
  is_intel_hex_start,
  is_misplaced,
  is_of_text,
  is_s_records_start,
  is_text,
  kind_of,
  kind_of_text,
  stands_beside_regions,
};

use crate::line_words::{CONTROL_Z, FLAWS, explain_flaws};
use plm80_console::{Console, are_digits};

/// The first byte of an object file, the type of a module header.
const MODULE_HEADER: u8 = 0x02;

/// The first byte of a library.
const LIBRARY_HEADER: u8 = 0x2C;

/// The fewest bytes of a text: fewer may be bytes of a PROM by chance.
const LEAST_TEXT: usize = 8;

/// The form of a line of inputs, in words.
pub const INPUTS_LINE: &str =
    "a line is a port, a blank and bytes without blanks between them, as 02 41FF";

/// What a file seems to be, by how it begins.
#[derive(Clone, Copy, PartialEq, Eq)]
pub(crate) enum FileKind {
    Empty,
    ObjectFile,
    Library,
    Regions,
    Inputs,
    Board,
    IntelHex,
    SRecords,
    Elf,
    Text,
    Unknown,
}

/// What a file is to be, by its place among the arguments of its command.
#[derive(Clone, Copy, PartialEq, Eq)]
pub enum FileRole {
    ObjectFile,
    Image,
    Regions,
    Inputs,
    Board,
}

impl FileKind {
    /// The kind of a file with these bytes.
    fn of(bytes: &[u8]) -> FileKind
        ensures { result ≡ kind_of bytes.now }
    {
        if bytes.is_empty() {
            FileKind::Empty
        } else if bytes[0] == MODULE_HEADER {
            FileKind::ObjectFile
        } else if bytes[0] == LIBRARY_HEADER {
            FileKind::Library
        } else {
            FileKind::of_text(bytes)
        }
    }

    /// The kind of a file with these bytes, which begin neither as an object file nor as a library.
    fn of_text(bytes: &[u8]) -> FileKind
        ensures { result ≡ kind_of_text bytes.now }
    {
        if bytes.starts_with(b"\x7FELF") {
            FileKind::Elf
        } else if is_intel_hex(bytes) {
            FileKind::IntelHex
        } else if is_s_records(bytes) {
            FileKind::SRecords
        } else if bytes.starts_with(b"REGIONS") {
            FileKind::Regions
        } else if bytes.starts_with(b"BOARD") {
            FileKind::Board
        } else if is_inputs(bytes) {
            FileKind::Inputs
        } else if is_text(bytes) {
            FileKind::Text
        } else {
            FileKind::Unknown
        }
    }

    /// Words on a file of this kind that was to be an object file; `None` if it begins as one.
    fn words_for_object(self) -> Option<&'static str>
        ensures { is_some result ≡ is_explained FileRole.ObjectFile self }
    {
        match self {
            FileKind::ObjectFile => None,
            FileKind::Empty => Some("the file is empty"),
            FileKind::Library => Some(
                "this is a library, not an object file: only link and find read libraries",
            ),
            FileKind::Regions => Some("this is a regions text, not an object file"),
            FileKind::Inputs => Some("this is an inputs text, not an object file"),
            FileKind::Board => Some("this is the text of a board, not an object file"),
            FileKind::IntelHex => Some(
                "this is Intel HEX, not an object file: objcopy -I ihex -O binary makes bytes of it, and absolute an image of these",
            ),
            FileKind::SRecords => Some(
                "these are S-records, not an object file: objcopy -I srec -O binary makes bytes of them, and absolute an image of these",
            ),
            FileKind::Elf => Some("this is an ELF file, not an object file of the 8080"),
            FileKind::Text => Some(
                "this is a text, not an object file: a compiler or an assembler makes one of its source",
            ),
            FileKind::Unknown => Some(
                "this isn't an object file, whose first byte is 02: of a PROM's bytes plm80 absolute makes an image",
            ),
        }
    }

    /// Words on a file of this kind that was to be a text of regions; `None` if it begins as one, or as no file that is known.
    fn words_for_regions(self) -> Option<&'static str>
        ensures { is_some result ≡ is_explained FileRole.Regions self }
    {
        match self {
            FileKind::Empty => Some("the file is empty: its first line is REGIONS 1 or REGIONS 2"),
            FileKind::ObjectFile => Some("this is an object file, not a regions text"),
            FileKind::Library => Some("this is a library, not a regions text"),
            FileKind::Inputs => Some("this is an inputs text, not a regions text"),
            FileKind::Board => Some("this is the text of a board, not a regions text"),
            FileKind::IntelHex => Some("this is Intel HEX, not a regions text"),
            FileKind::SRecords => Some("these are S-records, not a regions text"),
            FileKind::Elf => Some("this is an ELF file, not a regions text"),
            FileKind::Regions | FileKind::Text | FileKind::Unknown => None,
        }
    }

    /// Words on a file of this kind that was to be a text of inputs; `None` unless it begins as another file of the same command.
    fn words_for_inputs(self) -> Option<&'static str>
        ensures { is_some result ≡ is_explained FileRole.Inputs self }
    {
        match self {
            FileKind::Regions => Some("this is a regions text, not an inputs text"),
            FileKind::ObjectFile => Some("this is an object file, not an inputs text"),
            FileKind::Board => Some(
                "this is the text of a board: run takes it with --board, and no INPUTS",
            ),
            _ => None,
        }
    }

    /// Words on a file of this kind that was to be the text of a board; `None` if it may be one, or is a file of which nothing is known.
    fn words_for_board(self) -> Option<&'static str>
        ensures { is_some result ≡ is_explained FileRole.Board self }
    {
        match self {
            FileKind::Empty => Some("the file is empty: its first line is BOARD 1"),
            FileKind::ObjectFile => Some("this is an object file, not the text of a board"),
            FileKind::Library => Some("this is a library, not the text of a board"),
            FileKind::Regions => Some("this is a regions text, not that of a board"),
            FileKind::Inputs => Some("this is an inputs text, not that of a board"),
            FileKind::IntelHex => Some("this is Intel HEX, not the text of a board"),
            FileKind::SRecords => Some("these are S-records, not the text of a board"),
            FileKind::Elf => Some("this is an ELF file, not the text of a board"),
            FileKind::Board | FileKind::Text | FileKind::Unknown => None,
        }
    }

    /// Words on which path an image has, if a file of this kind in its place seems to be another file of the command; else `None`.
    fn place_of_image(self) -> Option<&'static str>
        ensures { is_some result ≡ is_misplaced FileRole.Image self }
    {
        match self {
            FileKind::Regions
            | FileKind::Inputs
            | FileKind::Board
            | FileKind::Text
            | FileKind::Unknown => Some("IMAGE is the first path"),
            _ => None,
        }
    }

    /// Words on which path inputs have, if a file of this kind in their place seems to be another file of the command; else `None`.
    fn place_of_inputs(self) -> Option<&'static str>
        ensures { is_some result ≡ is_misplaced FileRole.Inputs self }
    {
        match self {
            FileKind::ObjectFile | FileKind::Regions => Some("INPUTS is the third path"),
            _ => None,
        }
    }
}

impl FileRole {
    /// Words on a file of this kind that was to have this role; `None` if it may have it, or if there is nothing to say.
    fn words(self, kind: FileKind) -> Option<&'static str>
        ensures { is_some result ≡ is_explained self kind }
    {
        match self {
            FileRole::ObjectFile | FileRole::Image => kind.words_for_object(),
            FileRole::Regions => kind.words_for_regions(),
            FileRole::Inputs => kind.words_for_inputs(),
            FileRole::Board => kind.words_for_board(),
        }
    }

    /// Words on which path the file of this role has, if a file of this kind in its place seems to be another file of the command; else
    /// `None`. Of regions `place_of_regions` says it, after the other words on them.
    fn place(self, kind: FileKind) -> Option<&'static str>
        ensures { is_some result ≡ is_misplaced self kind }
    {
        match self {
            FileRole::ObjectFile | FileRole::Regions | FileRole::Board => None,
            FileRole::Image => kind.place_of_image(),
            FileRole::Inputs => kind.place_of_inputs(),
        }
    }
}

/// Whether the bytes begin as a record of Intel's hexadecimal format: a colon and digits.
fn is_intel_hex(bytes: &[u8]) -> bool
    ensures { result ≡ is_intel_hex_start bytes.now }
{
    !bytes.is_empty() && bytes[0] == b':' && begins_with_digits(&bytes[1..], 8)
}

/// Whether the bytes begin as a record of Motorola's hexadecimal format: a letter S and digits.
fn is_s_records(bytes: &[u8]) -> bool
    ensures { result ≡ is_s_records_start bytes.now }
{
    !bytes.is_empty() && bytes[0] == b'S' && begins_with_digits(&bytes[1..], 9)
}

/// Whether the bytes are a text: at least eight, with a line feed, and each printable or one that texts have.
pub fn is_text(bytes: &[u8]) -> bool
    ensures { result ≡ is_text bytes.now }
{
    bytes.len() >= LEAST_TEXT && has_line_feed(bytes) && are_of_text(bytes)
}

/// Whether there is a line feed among the bytes.
fn has_line_feed(bytes: &[u8]) -> bool
    ensures { result ≡ list_any (λ byte. byte == 10) bytes.now }
{
    bytes.contains(&b'\n')
}

/// Whether a text may have each of the bytes.
fn are_of_text(bytes: &[u8]) -> bool
    ensures { result ≡ list_all is_of_text bytes.now }
{
    bytes.iter().all(|byte| is_of_text(*byte))
}

/// Whether a text may have this byte: a printable one, a tab, a line feed, a form feed, a carriage return, or a Ctrl-Z.
fn is_of_text(byte: u8) -> bool
    ensures { result ≡ is_of_text byte }
{
    (byte > 0x1F && byte < 0x7F)
        || byte == b'\t'
        || byte == b'\n'
        || byte == 0x0C
        || byte == b'\r'
        || byte == CONTROL_Z
}

/// Whether the bytes begin as a line of inputs: a port, a blank and a byte.
fn is_inputs(bytes: &[u8]) -> bool
    ensures { result ≡ is_inputs_start bytes.now }
{
    bytes.len() >= 3
        && begins_with_digits(bytes, 2)
        && bytes[2] == b' '
        && begins_with_digits(&bytes[3..], 2)
}

/// Whether the bytes begin with `count` hexadecimal digits.
fn begins_with_digits(bytes: &[u8], count: usize) -> bool
    ensures { result ≡ begins_with_digits count bytes.now }
{
    count <= bytes.len() && are_digits(&bytes[..count])
}

/// Says what the bytes of a file seem to be that was to have this role, and which path the file of this role has, if that helps. The
/// result is whether it said what they seem to be.
pub fn explain_file<C: Console>(console: &C, bytes: &[u8], role: FileRole) -> bool
    ensures { result ≡ is_explained role (kind_of bytes.now) }
{
    let kind = FileKind::of(bytes);
    let words = role.words(kind);
    console.explain_any(words);
    console.explain_any(role.place(kind));
    words.is_some()
}

/// Words on which path the regions have, if the text that was given for them seems to be another file of the command; else `None`.
pub fn place_of_regions(text: &[u8]) -> Option<&'static str>
    ensures { is_some result ≡ stands_beside_regions (kind_of text.now) }
{
    match FileKind::of(text) {
        FileKind::ObjectFile | FileKind::Inputs => Some("REGIONS is the second path"),
        _ => None,
    }
}

/// Says what is wrong with the line of this number in a text that was to be one of inputs.
pub fn explain_inputs<C: Console>(console: &C, text: &[u8], number: usize) {
    if !explain_file(console, text, FileRole::Inputs)
        && !explain_flaws(console, text, number, FLAWS)
    {
        console.explain(INPUTS_LINE);
    }
}
