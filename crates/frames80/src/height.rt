//! How deep a frame is.

ghost use Rattle.std.specs.Prelude.{◌≡◌, ◌≤◌, length};
ghost use Rattle.frames80.specs.Calls.{depth_by, depth_of};

use crate::frame::Frame;
use crate::role::Role;

/// By how many bytes the stack has grown since the procedure's start: `2 * (words - 1 - taken)` in
/// an entry, which starts with its return address on it, and `2 * words` in the main program.
/// Negative if the stack has shrunk. The frame must have at most 1,000,000 words and at most
/// 1,000,000 taken. The call takes no memory.
pub fn depth(frame: &Frame, role: Role) -> i64
    requires taken { frame.now.taken ≤ 1000000 }
    requires words { length frame.now.words ≤ 1000000 }
    ensures { result ≡ depth_of role frame.now }
{
    depth_by(role, frame.words.len() as u32, frame.taken)
}

/// By how many bytes the stack has grown since the procedure's start, for a frame with `words` own
/// words that has popped `taken` from beneath: `2 * (words - 1 - taken)` in an entry, and `2 *
/// words` in the main program.
pub fn depth_by(role: Role, words: u32, taken: u32) -> i64
    ensures { result ≡ depth_by role words taken }
{
    let words = i64::from(words);
    match role {
        Role::Main { .. } => 2 * words,
        Role::Entry => 2 * (words - 1 - i64::from(taken)),
    }
}
