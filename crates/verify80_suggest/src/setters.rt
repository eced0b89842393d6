//! The instructions that set SP.

ghost use Rattle.std.specs.Prelude.{◌≡◌, length};
ghost use Rattle.verify80_suggest.specs.Names.{AreSetters, FirstSetter, stack_word, word_at};

use decode80::{Instr, Pair, fetch};
use verify80::ImageCode;

/// An LXI SP.
#[derive(Clone, Copy, PartialEq, Eq)]
pub struct Setter {
    /// The address of the instruction.
    pub at: u16,
    /// The word that it writes to SP.
    pub word: u16,
}

/// The first two LXI SP of a program, by address.
#[derive(Clone, Copy, PartialEq, Eq)]
pub(crate) struct Setters {
    /// The first one; `None` if there is none.
    pub(crate) first: Option<Setter>,
    /// The next one; `None` if there is none.
    pub(crate) second: Option<Setter>,
}

/// The first two LXI SP at marked addresses of `reached`. `reached` must have an entry for each
/// address.
pub(crate) fn find_setters(code: &ImageCode<'_>, reached: &[bool]) -> Setters
    requires { length reached.now ≡ 65536 }
    ensures { AreSetters code.now reached.now result.first result.second }
{
    let first = find_setter(code, reached, 0);
    let second = match first {
        Some(setter) => find_setter(code, reached, u32::from(setter.at) + 1),
        None => None,
    };
    Setters { first, second }
}

/// The first LXI SP at a marked address that is at or above `from`; `None` if there is none.
/// `reached` must have an entry for each address.
fn find_setter(code: &ImageCode<'_>, reached: &[bool], from: u32) -> Option<Setter>
    requires { length reached.now ≡ 65536 }
    ensures { FirstSetter code.now reached.now from result }
{
    for address in from..65_536 {
        let at = address as u16;
        if let Some(word) = word_at(code, reached, at) {
            return Some(Setter { at, word });
        }
    }
    None
}

/// The word that the instruction at an address writes to SP; `None` if the address isn't marked or
/// has no LXI SP. `reached` must have an entry for each address.
#[tactic(auto, unfolding(crate::specs::Names::word_at))]
fn word_at(code: &ImageCode<'_>, reached: &[bool], at: u16) -> Option<u16>
    requires { length reached.now ≡ 65536 }
    ensures { result ≡ word_at code.now reached.now at }
{
    if !reached[usize::from(at)] {
        return None;
    }
    match fetch(at, code) {
        Ok(found) => stack_word(found.instr),
        Err(_) => None,
    }
}

/// The word that an LXI SP writes to SP; `None` for other instructions.
fn stack_word(instr: Instr) -> Option<u16>
    ensures { result ≡ stack_word instr }
{
    match instr {
        Instr::Lxi(Pair::Sp, word) => Some(word),
        _ => None,
    }
}
