//! The lines of a regions text after the first.

ghost use Rattle.std.specs.Prelude.{◌≡◌, ◌≢◌, Some, None, IfOk, IfSome, IfNone};
ghost use Rattle.image80.specs.Range.{IsInMemory};
ghost use Rattle.image80.specs.RegionsText.{range_text, entry_text, code_range, stack_range, data_range, case_of, IsProper};

use crate::case_line::{CaseLine, read_case};
use crate::range::Range;
use crate::version::Version;
use std::alloc::{AllocError, Global};
use text80::word_of_digits;

/// A line of a regions text, other than the heading, as it is read.
#[derive(Drop)]
pub(crate) enum Entry {
    /// The range of a CODE line, which may be empty.
    Code(Range),
    /// The range of a STACK line, which may be empty.
    Stack(Range),
    /// The range of a DATA line, which may be empty.
    Data(Range),
    /// The address and the targets of a CASE line.
    Case(CaseLine),
}

impl Entry {
    /// The range of a CODE line, `None` for any other line.
    pub(crate) fn code(&self) -> Option<Range>
        ensures { result ≡ code_range self.now }
    {
        match self {
            Entry::Code(range) => Some(*range),
            _ => None,
        }
    }

    /// The range of a STACK line, `None` for any other line.
    pub(crate) fn stack(&self) -> Option<Range>
        ensures { result ≡ stack_range self.now }
    {
        match self {
            Entry::Stack(range) => Some(*range),
            _ => None,
        }
    }

    /// The range of a DATA line, `None` for any other line.
    pub(crate) fn data(&self) -> Option<Range>
        ensures { result ≡ data_range self.now }
    {
        match self {
            Entry::Data(range) => Some(*range),
            _ => None,
        }
    }

    /// The address and the targets of a CASE line, `None` for any other line.
    pub(crate) fn case(&self) -> Option<&CaseLine>
        ensures some { IfSome result (λ case. case_of self.now ≡ Some case.now) }
        ensures none { IfNone result (case_of self.now ≡ None) }
    {
        match self {
            Entry::Case(case) => Some(case),
            _ => None,
        }
    }
}

/// Reads a line, given without its line feed, of a regions text of the version: CODE, DATA or STACK with a range in
/// memory, or in version 2 CASE. `None` if it is no such line.
pub(crate) fn read_entry(
    alloc: Global,
    version: Version,
    line: &[u8],
) -> Result<Option<Entry>, AllocError>
    ensures spelled { IfOk result (λ read. IfSome read (λ entry. line.now ≡ entry_text entry)) }
    ensures proper { IfOk result (λ read. IfSome read (λ entry. IsProper version entry)) }
    ensures none { IfOk result (λ read. IfNone read ((entry : Entry) → IsProper version entry → line.now ≢ entry_text entry)) }
{
    let Some(case) = line.strip_prefix(b"CASE ") else {
        return Ok(read_range_entry(line));
    };
    match version {
        Version::One => Ok(None),
        Version::Two => Ok(read_case(alloc, case)?.map(Entry::Case)),
    }
}

/// Reads a CODE, DATA or STACK line; `None` if it is none of them or its range passes the end of memory.
fn read_range_entry(line: &[u8]) -> Option<Entry>
    ensures spelled { IfSome result (λ entry. line.now ≡ entry_text entry) }
    ensures proper { IfSome result (λ entry. (version : Version) → IsProper version entry) }
    ensures none { IfNone result ((version : Version) (entry : Entry) → IsProper version entry → case_of entry ≡ None →
        line.now ≢ entry_text entry) }
{
    if let Some(range) = line.strip_prefix(b"CODE ") {
        return Some(Entry::Code(read_range(range)?));
    }
    if let Some(range) = line.strip_prefix(b"DATA ") {
        return Some(Entry::Data(read_range(range)?));
    }
    let range = line.strip_prefix(b"STACK ")?;
    Some(Entry::Stack(read_range(range)?))
}

/// Reads a range, `ffff llll`: its first address and its length, in upper-case hexadecimal. `None` if the text has
/// another form or the range passes the end of memory.
fn read_range(text: &[u8]) -> Option<Range>
    ensures spelled { IfSome result (λ range. text.now ≡ range_text range) }
    ensures in_memory { IfSome result (λ range. IsInMemory range) }
    ensures none { IfNone result ((range : Range) → IsInMemory range → text.now ≢ range_text range) }
{
    if text.len() != 9 || text[4] != b' ' {
        return None;
    }
    let first = word_of_digits([text[0], text[1], text[2], text[3]])?;
    let length = word_of_digits([text[5], text[6], text[7], text[8]])?;
    if u32::from(first) + u32::from(length) > 65536 {
        return None;
    }
    Some(Range { first, length })
}
