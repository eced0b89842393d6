//! What an image's contents have at an address: an instruction, or data.

ghost use Rattle.std.specs.Prelude.{◌≡◌, ◌<◌, ◌≤◌, ◌+◌, ◌/◌, ◌%◌, None, true, false, ℕ, length, slice_index, slice_index_or, IfSome};
ghost use Rattle.decode80.specs.Spelling.{spelling};
ghost use Rattle.image80_source.specs.Lines.{bytes_of, IsData, IsFound};
ghost use Rattle.image80_source.specs.Placed.{AreMarked};

use crate::covered::is_marked;
use crate::line::{Content, Line};
use decode80::{Fetched, Instr, decode, spelling_laws};

/// The most characters of one line.
const MOST_QUOTED: usize = 32;
/// The fewest characters that are printed between quotes.
const FEWEST_QUOTED: usize = 4;
/// The most bytes of one line that are printed as numbers.
const MOST_BYTES: usize = 8;

/// The contents of an image, and what tells one line from the next.
#[derive(Clone, Copy, Drop)]
pub(crate) struct Contents<'a> {
    /// The image's memory.
    pub memory: &'a [u8],
    /// By address, 1 if the contents have a byte there.
    pub covered: &'a [u8],
    /// By address, the instruction that begins there, if one does.
    pub table: &'a [Option<Fetched>],
    /// By address, whether a PCHL is declared to go there.
    pub cases: &'a [bool],
    /// By address, whether it has a label, with which a line of data begins.
    pub labelled: &'a [bool],
}

/// The line at an address of the contents: the instruction that begins there, or data.
pub(crate) fn line_at<'a>(contents: Contents<'a>, at: usize) -> Line<'a>
    requires memory { length contents.memory.now ≡ 65536 }
    requires marks { length contents.covered.now ≡ 65536 }
    requires inside { at < 65536 }
    requires covered { slice_index contents.covered.now at ≡ 1 }
    ensures at { result.at ≡ at }
    ensures some { 0 < length (bytes_of result.content) }
    ensures marked { AreMarked contents.entry.covered.now contents.entry.memory.now at (bytes_of result.content) }
    ensures found { IsFound contents.entry.table.now result }
{
    spelling_laws();
    let content = match instruction_at(contents, at) {
        Some(instr) => Content::Instruction(instr),
        None => data_at(contents, at),
    };
    Line {
        at: at as u16,
        content,
    }
}

/// The instruction that begins at an address, all of whose bytes are in the contents; `None` if none does.
fn instruction_at(contents: Contents<'_>, at: usize) -> Option<Instr>
    requires memory { length contents.memory.now ≡ 65536 }
    requires marks { length contents.covered.now ≡ 65536 }
    requires inside { at < 65536 }
    ensures marked { IfSome result (λ instr. AreMarked contents.entry.covered.now contents.entry.memory.now at (spelling instr)) }
    ensures found { IfSome result (λ _. slice_index_or contents.entry.table.now at None ≡ None → ⊥) }
{
    spelling_laws();
    if !is_found(contents.table, at) {
        return None;
    }
    let (instr, length) = decode(bytes_at(contents.memory, at))?;
    if all_marked(contents.covered, at, length) {
        return Some(instr);
    }
    None
}

/// Whether a table has an instruction at an address.
fn is_found(table: &[Option<Fetched>], at: usize) -> bool
    ensures { result ≡ true → slice_index_or table.now at None ≡ None → ⊥ }
{
    table.get(at).copied().flatten().is_some()
}

/// The bytes at an address and at the two addresses behind it; 0 past the end of memory.
pub(crate) fn bytes_at(memory: &[u8], at: usize) -> [u8; 3]
    requires { at < 65536 }
    ensures first { slice_index result 0 ≡ slice_index memory.now at }
    ensures second { slice_index result 1 ≡ slice_index memory.now (at + 1) }
    ensures third { slice_index result 2 ≡ slice_index memory.now (at + 2) }
{
    [
        byte_at(memory, at),
        byte_at(memory, at + 1),
        byte_at(memory, at + 2),
    ]
}

/// The byte at an address; 0 past the end of memory.
fn byte_at(memory: &[u8], at: usize) -> u8
    ensures { result ≡ slice_index memory.now at }
{
    match memory.get(at) {
        Some(byte) => *byte,
        None => 0,
    }
}

/// Whether `count` addresses from one on are marked.
fn all_marked(marks: &[u8], at: usize, count: usize) -> bool
    requires inside { at < 65536 }
    requires few { count ≤ 65536 }
    ensures { result ≡ true → (k : ℕ) → k < count → slice_index marks.now (at + k) ≡ 1 }
{
    for offset in 0..count {
        if !is_marked(marks, at + offset) {
            return false;
        }
    }
    true
}

/// The line of data at an address of the contents: the address of a case's target, characters, or numbers.
fn data_at<'a>(contents: Contents<'a>, at: usize) -> Content<'a>
    requires memory { length contents.memory.now ≡ 65536 }
    requires marks { length contents.covered.now ≡ 65536 }
    requires inside { at < 65536 }
    requires covered { slice_index contents.covered.now at ≡ 1 }
    ensures some { 0 < length (bytes_of result) }
    ensures marked { AreMarked contents.entry.covered.now contents.entry.memory.now at (bytes_of result) }
    ensures found { IsData result }
{
    let room = room_at(contents, at);
    let bytes = &contents.memory[at..at + room];
    if let Some(word) = case_word(bytes, contents.cases) {
        return Content::Word(word);
    }
    let quoted = quoted_length(bytes);
    if quoted >= FEWEST_QUOTED {
        return Content::Quoted(&bytes[..quoted]);
    }
    Content::Bytes(&bytes[..plain_length(bytes, contents.cases)])
}

/// How many bytes of data there are from an address of the contents on, up to the next label or instruction: 1 to 32.
fn room_at(contents: Contents<'_>, at: usize) -> usize
    requires memory { length contents.memory.now ≡ 65536 }
    requires marks { length contents.covered.now ≡ 65536 }
    requires inside { at < 65536 }
    requires covered { slice_index contents.covered.now at ≡ 1 }
    ensures some { 0 < result }
    ensures few { result ≤ 32 }
    ensures marked { (k : ℕ) → k < result → slice_index contents.entry.covered.now (at + k) ≡ 1 }
    ensures within { at + result ≤ 65536 }
{
    for offset in 1..MOST_QUOTED {
        if !goes_on(contents, at + offset) {
            return offset;
        }
    }
    MOST_QUOTED
}

/// Whether data goes on at an address: the contents have it, and neither a label nor an instruction begins there.
fn goes_on(contents: Contents<'_>, at: usize) -> bool
    requires memory { length contents.memory.now ≡ 65536 }
    requires marks { length contents.covered.now ≡ 65536 }
    ensures covered { result ≡ true → slice_index contents.entry.covered.now at ≡ 1 }
    ensures inside { result ≡ true → at < 65536 }
{
    at < 65536
        && is_marked(contents.covered, at)
        && !is_set(contents.labelled, at)
        && instruction_at(contents, at).is_none()
}

/// What a table says of an address; `false` past its end.
pub(crate) fn is_set(table: &[bool], at: usize) -> bool
    ensures { result ≡ slice_index_or table.now at false }
{
    match table.get(at) {
        Some(set) => *set,
        None => false,
    }
}

/// The word of the first two bytes, if a PCHL is declared to go there.
fn case_word(bytes: &[u8], cases: &[bool]) -> Option<u16>
    ensures two { IfSome result (λ _. 2 ≤ length bytes.now) }
    ensures word { IfSome result (λ word. (word % 256 ≡ slice_index bytes.now 0) × (word / 256 ≡ slice_index bytes.now 1)) }
{
    match bytes {
        [low, high, ..] => {
            let word = u16::from_le_bytes([*low, *high]);
            if is_set(cases, usize::from(word)) {
                Some(word)
            } else {
                None
            }
        }
        _ => None,
    }
}

/// How many of the bytes, from the first on, can stand between quotes.
fn quoted_length(bytes: &[u8]) -> usize
    ensures { result ≤ length bytes.now }
{
    bytes
        .iter()
        .position(|byte| !is_quotable(*byte))
        .unwrap_or(bytes.len())
}

/// Whether a byte is a character that can stand between quotes: 20h to 7Eh, but no quote.
fn is_quotable(byte: u8) -> bool {
    (0x20..=0x7E).contains(&byte) && byte != b'\''
}

/// How many of the bytes, which must be one at least, are printed as numbers: 1 to 8.
fn plain_length(bytes: &[u8], cases: &[bool]) -> usize
    requires { 0 < length bytes.now }
    ensures some { 0 < result }
    ensures within { result ≤ length bytes.now }
{
    let most = MOST_BYTES.min(bytes.len());
    for count in 1..most {
        let rest = &bytes[count..];
        if case_word(rest, cases).is_some() || quoted_length(rest) >= FEWEST_QUOTED {
            return count;
        }
    }
    most
}
