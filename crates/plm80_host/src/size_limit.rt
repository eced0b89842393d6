//! How many bytes a file may have.
//!
//! Who writes more is ended by a signal, unless it is ignored, and std has no means to ignore it: so the limit is read before.

use crate::system_text::count_behind;
use std::fs;
use std::fs::Metadata;

/// The file in which Linux says what a process may use.
const LIMITS: &str = "/proc/self/limits";

/// What stands before the length that a file may have, the limit that counts; behind it follows the one to which it may be raised.
const LABEL: &str = "Max file size ";

/// Whether a file of this length is longer than the system lets one be. `false` if the system doesn't say what the limit is.
pub(crate) fn is_past_limit(rt: &HostRuntime, length: u64) -> bool {
    size_limit(rt).is_some_and(|limit| length > limit)
}

/// How many bytes a file may have; `None` if any number, or if the system doesn't say.
fn size_limit(rt: &HostRuntime) -> Option<u64> {
    count_behind(&fs::read_to_string(rt, LIMITS).ok()?, LABEL)
}

/// Standard output, as Linux names it, and what Linux says of it.
const OUTPUT: &str = "/proc/self/fd/1";

const OUTPUT_SAYS: &str = "/proc/self/fdinfo/1";

/// How many bytes standard output still takes; `None` if any number, as of a pipe, or if the system doesn't say.
pub(crate) fn room_of_output(rt: &HostRuntime) -> Option<u64> {
    let output = fs::metadata(rt, OUTPUT).ok()?;
    if !output.is_file() {
        return None;
    }
    let limit = size_limit(rt)?;
    Some(limit.saturating_sub(position(rt, &output)?))
}

/// Where the next byte of standard output goes, which is this file: to its end if it is appended to. `None` if the system doesn't say.
fn position(rt: &HostRuntime, output: &Metadata) -> Option<u64> {
    let says = fs::read_to_string(rt, OUTPUT_SAYS).ok()?;
    // The flags are octal digits: 02000 says that each write appends.
    let flags = count_behind(&says, "flags:")?;
    if flags / 1000 % 10 / 2 % 2 == 1 {
        Some(output.len())
    } else {
        count_behind(&says, "pos:")
    }
}
