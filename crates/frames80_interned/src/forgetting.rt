//! How a frame forgets what isn't asked for.

ghost use Rattle.std.specs.Prelude.{◌≡◌, ◌<◌, ◌++◌, length, IfOk, IfSome};
ghost use Rattle.frames80.specs.declared.word.Word.TheVariants.{Own};
ghost use Rattle.frames80_interned.specs.Stacks.{words_at, IsLink, IsStack, StacksStay};
ghost use Rattle.frames80_interned.specs.Lesser.{IsLesser, IsLesserTop, IsLesserStack};

use crate::link::Link;
use crate::meets::push_all;
use crate::stacks::Stacks;
use frames80::Word;
use std::alloc::AllocError;

/// Which words and pairs of a frame must keep that they are the return address; all others may be
/// forgotten.
#[derive(Clone, Copy)]
pub struct Asked<'a> {
    /// The words that are asked for, each by how many words there are from the bottom up to it (1
    /// is the bottom word), ascending.
    pub heights: &'a [u32],
    /// Whether BC is asked for.
    pub bc: bool,
    /// Whether DE is asked for.
    pub de: bool,
    /// Whether HL is asked for.
    pub hl: bool,
}

/// A stack as the words that were gone through, some of them forgotten, and the untouched rest
/// beneath.
#[derive(Drop)]
struct LesserTop {
    /// The words that were gone through, top first.
    words: Vec<Word>,
    /// The number of the stack beneath them.
    rest: u32,
}

/// The number of a stack as high as stack `number`, in which words that aren't asked for may be
/// `Any`. It goes down from the top, and leaves the rest as it is once all return addresses there
/// may be asked for. There must be a stack `number`; all stacks keep their numbers.
///
/// # Errors
/// `AllocError` if memory runs out.
pub(crate) fn forget_words(
    stacks: &mut Stacks,
    number: u32,
    heights: &[u32],
) -> Result<u32, AllocError>
    requires { number < length stacks.old }
    ensures lesser { IfOk result (λ lesser. IsLesserStack stacks.new lesser (words_at stacks.old number)) }
    ensures stays { StacksStay stacks.old stacks.new }
{
    let top = forget_tops(stacks, number, heights)?;
    push_all(stacks, top.rest, top.words)
}

/// The upper words of stack `number`, with `Any` for those that aren't asked for, down to where all
/// return addresses beneath may be asked for; and the number of the stack that is left. There must
/// be a stack `number`.
///
/// # Errors
/// `AllocError` if memory runs out.
fn forget_tops(stacks: &Stacks, number: u32, heights: &[u32]) -> Result<LesserTop, AllocError>
    requires { number < length stacks.now }
    ensures { IfOk result (λ top. IsLesserTop stacks.now (words_at stacks.now number) top.words.items top.rest) }
{
    let mut words = Vec::new(stacks.alloc());
    let mut rest = number;
    while let Some((link, is_asked)) = top_to_forget(stacks, rest, heights) {
        words.push(forget_word(link.word, is_asked))?;
        rest = link.below;
    }
    Ok(LesserTop { words, rest })
}

/// The top word of a stack and whether it is asked for. `None` if nothing more is to be forgotten:
/// the stack is empty, or has no more return addresses than words that are asked for. There must be
/// a stack `number`.
fn top_to_forget(stacks: &Stacks, number: u32, heights: &[u32]) -> Option<(Link, bool)>
    requires { number < length stacks.now }
    ensures { IfSome result (λ top. IsLink stacks.now number top.0) }
{
    let link = stacks.top(number)?;
    let (is_asked, asked) = match heights.binary_search(&link.height) {
        Ok(beneath) => (true, beneath.saturating_add(1)),
        Err(beneath) => (false, beneath),
    };
    if stacks.owns(number) as usize <= asked {
        return None;
    }
    Some((link, is_asked))
}

/// The word itself if it is asked for, else `Any`.
pub(crate) fn forget_word(word: Word, is_asked: bool) -> Word
    ensures { result ≡ Own → word ≡ Own }
{
    if is_asked { word } else { Word::Any }
}
