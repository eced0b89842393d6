//! The lines of a source, as values.

ghost use Rattle.std.specs.Prelude.{◌≡◌, length};
ghost use Rattle.image80_source.specs.Lines.{bytes_of};

use decode80::{Instr, encode};

/// What a line says.
#[derive(Clone, Copy)]
pub enum Content<'a> {
    /// An instruction.
    Instruction(Instr),
    /// DB: bytes as numbers.
    Bytes(&'a [u8]),
    /// DB: characters between quotes.
    Quoted(&'a [u8]),
    /// DW: two bytes, the low one first.
    Word(u16),
}

/// A line and the address of its first byte.
#[derive(Clone, Copy)]
pub struct Line<'a> {
    /// The address.
    pub at: u16,
    /// What the line says.
    pub content: Content<'a>,
}

/// How many bytes a line stands for.
pub(crate) fn size_of(content: Content<'_>) -> usize
    ensures { result ≡ length (bytes_of content.entry) }
{
    match content {
        Content::Instruction(instr) => encode(instr).1,
        Content::Bytes(bytes) | Content::Quoted(bytes) => bytes.len(),
        Content::Word(_) => 2,
    }
}
