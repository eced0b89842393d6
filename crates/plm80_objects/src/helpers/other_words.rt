//! Files that no dump is, of which no command makes bytes of a PROM, in words.

use crate::helpers::dump_words::DumpWords;
use omf_core::{RecordKind, next_record};
use plm80_console::Console;
use plm80_files::is_text;

/// The type of the record with which a library begins.
const LIBRARY_HEADER: u8 = RecordKind::LibraryHeader as u8;

/// Says what the dump of this path seems to be, and what makes bytes of it, if it doesn't seem to be bytes as they are and words are asked
/// for.
pub(crate) fn explain_dump<C: Console>(console: &C, path: &str) {
    match DumpWords::of(console, path) {
        Some(words) => console.explain(words),
        None => explain_other(console, path),
    }
}

/// Says what the dump of this path seems to be, if that is another file than one of bytes as they are. It is read again; nothing is said if
/// it can't be, or if words aren't asked for.
pub(crate) fn explain_other<C: Console>(console: &C, path: &str) {
    if let Some(bytes) = console.text_to_explain(path)
        && let Some(seems) = kind_of(&bytes)
    {
        console.explain(format_args!("{path} seems to be {seems}, not bytes of a PROM"));
    }
}

/// What the bytes seem to be, if that isn't a dump: a library by its first record, a file of another kind by its first bytes, or a text by
/// all of its bytes.
fn kind_of(bytes: &[u8]) -> Option<&'static str> {
    if begins_with_library(bytes) {
        Some("a library")
    } else if bytes.starts_with(b"\x7FELF") {
        Some("an ELF file")
    } else if bytes.starts_with(b"\x1F\x8B\x08") {
        Some("a gzip file")
    } else if bytes.starts_with(b"PK\x03\x04") {
        Some("a zip file")
    } else if bytes.starts_with(b"%PDF-") {
        Some("a PDF file")
    } else if bytes.starts_with(b"REGIONS ") {
        Some("a regions text")
    } else if is_text(bytes) {
        Some("a text")
    } else {
        None
    }
}

/// Whether the bytes begin with a whole record that is the header of a library.
fn begins_with_library(bytes: &[u8]) -> bool {
    match next_record(bytes, 0) {
        Ok((record, _)) => record.kind == LIBRARY_HEADER,
        Err(_) => false,
    }
}
