//! What becomes of a caller's frame when its callee returns.

ghost use Rattle.std.specs.Prelude.{◌≡◌, ◌≤◌, ◌≢◌, length, Ok, Err, IfOk, IfErr};
ghost use Rattle.frames80.specs.Calls.{after_call, room};

use crate::fault::CallFault;
use crate::frame::Frame;
use crate::role::Role;
use std::alloc::Global;

/// The caller's frame after a call of a procedure that takes up to `wants` words from beneath its
/// return address on any of its walks, and `taken` of them where it returns: the top `taken` words
/// are gone, and BC, DE and HL may hold anything. `frame` must have at most 1,000,000 words and at
/// most 1,000,000 taken, and `taken` must be at most `wants`.
///
/// # Errors
/// `ShortArguments` exactly where the caller has fewer than `wants` words above its bottom word; in the main program, if
/// it has fewer words. `Memory` only if it has enough and memory runs out.
#[tactic(auto, using(crate::proofs::Reversed::drop_reverse))]
pub fn after(
    alloc: Global,
    frame: &Frame,
    role: Role,
    wants: u32,
    taken: u32,
) -> Result<Frame, CallFault>
    requires taken { frame.now.taken ≤ 1000000 }
    requires words { length frame.now.words ≤ 1000000 }
    requires within { taken ≤ wants }
    ensures came { IfOk result (λ after. after_call role wants taken frame.now ≡ Ok after) }
    ensures fault { IfErr result (λ fault. fault ≢ CallFault.Memory → after_call role wants taken frame.now ≡ Err fault) }
    ensures refused { IfErr (after_call role wants taken frame.now) (λ fault. result ≡ Err fault) }
{
    if room(frame, role) < wants as usize {
        return Err(CallFault::ShortArguments);
    }
    let left = frame.words.len() - taken as usize;
    let words = Vec::from_slice(alloc, &frame.words[..left])?;
    Ok(Frame::of_words(frame.taken, words))
}

/// How many words of a caller's frame a callee may take: all of them in the main program, and those
/// above the bottom word in an entry.
fn room(frame: &Frame, role: Role) -> usize
    ensures value { result ≡ room role frame.now.words }
    ensures within { result ≤ length frame.now.words }
{
    match role {
        Role::Main { .. } => frame.words.len(),
        Role::Entry => frame.words.len().saturating_sub(1),
    }
}
