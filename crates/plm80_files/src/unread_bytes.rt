//! Bytes of an object file that aren't read, in words.

ghost use Rattle.std.specs.Prelude.{◌≡◌, ◌<◌, ◌≤◌, ℕ, List, Some, true, length, slice_get, IfNone, IfSome, OnSome};
ghost use Rattle.omf_core.specs.Record.{record_size};
ghost use Rattle.plm80_files.specs.UnreadBytes.{AreUnread, IsBehindEnd, after_record, is_filling};

use crate::line_words::CONTROL_Z;
use omf_core::RecordKind;
use plm80_console::Console;
use std::fmt;
use std::fmt::{Display, Formatter};

/// The type of the record with which an object file begins.
const MODULE_HEADER: u8 = RecordKind::ModuleHeader as u8;

/// The type of the record with which an object file ends.
const END_OF_FILE: u8 = RecordKind::EndOfFile as u8;

/// Words on the bytes of an object file that aren't read: how many there are behind its end record.
#[derive(Clone, Copy)]
pub struct UnreadBytes<'a> {
    pub path: &'a str,
    pub count: usize,
    /// Whether they begin as an object file does.
    begin_module: bool,
}

impl Display for UnreadBytes<'_> {
    fn fmt<W: fmt::Write>(&self, formatter: &mut Formatter<W>) -> fmt::Result {
        let (path, count) = (self.path, self.count);
        let advice = if self.begin_module {
            ": they begin as an object file does, so give each file by itself"
        } else {
            ""
        };
        write!(
            formatter,
            "{count} bytes behind the end record of {path} aren't read{advice}"
        )
    }
}

impl<'a> UnreadBytes<'a> {
    /// Words on the unread bytes of the file of this path, which has these bytes; `None` if those behind its end record only fill it up.
    pub fn of(path: &'a str, bytes: &[u8]) -> Option<UnreadBytes<'a>>
        ensures path { IfSome result (λ unread. unread.path.now ≡ path.now) }
        ensures bytes { IfSome result (λ unread. AreUnread bytes.now unread.count) }
        ensures none { IfNone result ((rest : List ℕ) × IsBehindEnd bytes.now rest × (is_filling rest ≡ true)) }
    {
        let unread = bytes_behind_end(bytes);
        if is_filling(unread) {
            None
        } else {
            Some(UnreadBytes {
                path,
                count: unread.len(),
                begin_module: unread.first() == Some(&MODULE_HEADER),
            })
        }
    }

    /// Words on the unread bytes of the file of this path, which is read again; `None` if there are none, if the file can't be read
    /// again, or if faults aren't explained.
    pub(crate) fn of_file<C: Console>(console: &C, path: &'a str) -> Option<UnreadBytes<'a>>
        ensures path { IfSome result (λ unread. unread.path.now ≡ path.now) }
        ensures bytes { IfSome result (λ unread. (bytes : List ℕ) × AreUnread bytes unread.count) }
    {
        let bytes = console.text_to_explain(path)?;
        UnreadBytes::of(path, &bytes)
    }
}

/// Whether bytes only fill up a file: all are 00 or 1A.
fn is_filling(bytes: &[u8]) -> bool
    ensures { result ≡ is_filling bytes.now }
{
    bytes.iter().all(|byte| *byte == 0 || *byte == CONTROL_Z)
}

/// The bytes behind the end record of an object file; empty if there is no such record.
fn bytes_behind_end(bytes: &[u8]) -> &[u8]
    ensures { IsBehindEnd bytes.now result.now }
{
    let mut rest = bytes;
    while let Some((kind, after)) = split_record(rest) {
        if kind == END_OF_FILE {
            return after;
        }
        rest = after;
    }
    b""
}

/// The type of the record with which these bytes begin, and the bytes behind it; `None` if they end before it does.
fn split_record(bytes: &[u8]) -> Option<(u8, &[u8])>
    ensures kind { IfSome result (λ found. slice_get bytes.now 0 ≡ Some found.0) }
    ensures after { IfSome result (λ found. found.1.now ≡ after_record bytes.now) }
    ensures shorter { IfSome result (λ found. length found.1.now < length bytes.now) }
    ensures whole { OnSome result (record_size bytes.now ≤ length bytes.now) }
    ensures none { IfNone result (length bytes.now < record_size bytes.now) }
{
    let [kind, low, high, body @ ..] = bytes else {
        return None;
    };
    let length = usize::from(u16::from_le_bytes([*low, *high]));
    Some((*kind, body.get(length..)?))
}
