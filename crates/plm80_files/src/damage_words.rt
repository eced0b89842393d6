//! What is wrong with the bytes of an object file or a library, in words.

use omf_core::RecordFault;
use omf_module::Cause;

/// The words on a file that was copied as a text.
const TEXT_MODE: &str =
    "each line feed in it is behind a carriage return, as a copy in text mode has them: copy it again, in binary mode";

/// The words on a file that ends too early.
const CUT: &str = "the file ends before this record does: copy it again, in binary mode";

/// Words on the bytes of an object file or a library that have a fault of this cause, if a copy seems to have made it; else `None`.
pub(crate) fn damage_words(bytes: &[u8], cause: Cause) -> Option<&'static str> {
    if is_text_mode(bytes) {
        return Some(TEXT_MODE);
    }
    match cause {
        Cause::Record(RecordFault::Truncated(place)) if place > 0 => Some(CUT),
        _ => None,
    }
}

/// Whether the bytes have a line feed, and each is behind a carriage return.
fn is_text_mode(bytes: &[u8]) -> bool {
    let mut has_line_feed = false;
    let mut before = 0u8;
    for byte in bytes {
        if *byte == b'\n' {
            if before != b'\r' {
                return false;
            }
            has_line_feed = true;
        }
        before = *byte;
    }
    has_line_feed
}
