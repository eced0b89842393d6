//! What becomes of a kept frame at a change.

ghost use Rattle.std.specs.Prelude.{◌≡◌, ◌<◌, ◌≤◌, [], length, IfOk};
ghost use Rattle.frames80.specs.StackFrame.{popped, pushed, top_word};
ghost use Rattle.frames80.specs.Moves.{changed};
ghost use Rattle.frames80_interned.specs.Stacks.{words_at, IsStack, StacksStay};
ghost use Rattle.frames80_interned.specs.InternedFrame.{frame_of, IsInterned};

use crate::interned_frame::InternedFrame;
use crate::stacks::{EMPTY, Stacks};
use frames80::{Change, FramePair, Word};
use std::alloc::AllocError;

/// The frame after a change; words that it pushes are added to `stacks`, whose stacks keep their
/// numbers. The words of `interned` must be a stack of `stacks`, with at most 1,000,000 words taken,
/// and stack `EMPTY` must have no words.
///
/// # Errors
/// `AllocError` if memory runs out.
pub(crate) fn change_frame(
    stacks: &mut Stacks,
    interned: InternedFrame,
    change: Change,
) -> Result<InternedFrame, AllocError>
    requires there { interned.words < length stacks.old }
    requires empty { IsStack stacks.old 0 [] }
    requires taken { interned.taken ≤ 1000000 }
    ensures changed { IfOk result (λ after. IsInterned stacks.new after (changed change (frame_of stacks.old interned))) }
    ensures stays { StacksStay stacks.old stacks.new }
{
    match change {
        Change::Keep => Ok(interned),
        Change::Push(pair) => push_word(stacks, interned, interned.pair(pair)),
        Change::PushAny => push_word(stacks, interned, Word::Any),
        Change::Pop(pair) => {
            let (after, word) = pop_word(stacks, interned);
            Ok(after.holding(pair, word))
        }
        Change::Drop => Ok(pop_word(stacks, interned).0),
        Change::Swap => {
            let (below, word) = pop_word(stacks, interned);
            let after = push_word(stacks, below, interned.hl)?;
            Ok(after.holding(FramePair::Hl, word))
        }
        Change::Exchange => Ok(InternedFrame {
            de: interned.hl,
            hl: interned.de,
            ..interned
        }),
        Change::Forget(pair) => Ok(interned.holding(pair, Word::Any)),
        Change::SetStack(_) => Ok(InternedFrame {
            words: EMPTY,
            ..interned
        }),
    }
}

/// The frame with `word` pushed on its words. The words of `interned` must be a stack of `stacks`,
/// whose stacks keep their numbers.
///
/// # Errors
/// `AllocError` if memory runs out.
fn push_word(
    stacks: &mut Stacks,
    interned: InternedFrame,
    word: Word,
) -> Result<InternedFrame, AllocError>
    requires { interned.words < length stacks.old }
    ensures pushed { IfOk result (λ after. IsInterned stacks.new after (pushed word (frame_of stacks.old interned))) }
    ensures stays { StacksStay stacks.old stacks.new }
{
    let words = stacks.push(interned.words, word)?;
    Ok(InternedFrame { words, ..interned })
}

/// The frame without its top word, and that word. If the procedure has no word of its own left, the
/// frame has one more word taken from beneath, and the word is `Any`. The words of `interned` must be a
/// stack of `stacks`, with at most 1,000,000 words taken.
fn pop_word(stacks: &Stacks, interned: InternedFrame) -> (InternedFrame, Word)
    requires there { interned.words < length stacks.now }
    requires taken { interned.taken ≤ 1000000 }
    ensures popped { IsInterned stacks.now result.0 (popped (frame_of stacks.now interned)) }
    ensures word { result.1 ≡ top_word (words_at stacks.now interned.words) }
{
    match stacks.top(interned.words) {
        Some(link) => (
            InternedFrame {
                words: link.below,
                ..interned
            },
            link.word,
        ),
        None => (
            InternedFrame {
                taken: interned.taken + 1,
                ..interned
            },
            Word::Any,
        ),
    }
}
