//! What the words of a kept frame are to a pop and to a return.

ghost use Rattle.std.specs.Prelude.{◌≡◌, ◌<◌, length};
ghost use Rattle.frames80.specs.Holding.{holding_of};
ghost use Rattle.frames80_interned.specs.Stacks.{words_at};

use crate::stacks::Stacks;
use frames80::{Holding, Word};

/// What the checks of pops and returns need to know of the words of stack `words`: whether there
/// are none, the return address alone, or others. There must be a stack `words`.
pub(crate) fn holding_of(stacks: &Stacks, words: u32) -> Holding
    requires { words < length stacks.now }
    ensures { result ≡ holding_of (words_at stacks.now words) }
{
    match stacks.top(words) {
        None => Holding::Nothing,
        Some(link) if link.height == 1 && link.word == Word::Own => Holding::ReturnAddress,
        Some(_) => Holding::Others,
    }
}
