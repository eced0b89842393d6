//! A name is split off a record's body.

ghost use Rattle.std.specs.Prelude.{◌≡◌, ℕ, ◌↔◌, List, drop, IsTrue, IsSome, IfSome};
ghost use Rattle.omf_core.specs.Name.{SpellsName, counted_bytes, holds_name};

use crate::name::is_name;

/// Splits off the name that stands in a record's body at place `at`: the name's bytes, and the
/// place after them. `None` if no name stands there: `at` is past the end, the body ends before the
/// name does, the length byte is 0, or a byte of the name is outside 21h to 7Eh.
///
/// Takes no memory: the name borrows from `body`.
pub fn split_name(body: &[u8], at: usize) -> Option<(&[u8], usize)>
    // What is split off is what the bytes from `at` on spell, and no name that they spell is refused.
    ensures split { IfSome result (λ r. SpellsName body.now at r.1 r.0.now) }
    ensures every_name { (name : List ℕ) (after : ℕ)
        → SpellsName body.now at after name
        → IsSome result }

    // The same, computed from the bytes that stand from `at` on.
    ensures exactly { IsSome result ↔ IsTrue (holds_name (drop at body.now)) }
    ensures counted { IfSome result (λ r. r.0.now ≡ counted_bytes (drop at body.now)) }
{
    let length = *body.get(at)? as usize;
    let after = at + 1 + length;
    let name = body.get(at + 1..after)?;
    if is_name(name) {
        Some((name, after))
    } else {
        None
    }
}
