//! Frames as they are kept.

ghost use Rattle.std.specs.Prelude.{◌≡◌, ◌<◌, ◌⊎◌, ◌++◌, ◌∷◌, [], List, Some, slice_get, length, IfOk};
ghost use Rattle.frames80.specs.declared.word.Word.{Word};
ghost use Rattle.frames80.specs.StackFrame.{of_words, pair_in};
ghost use Rattle.frames80.specs.Moves.{holding};
ghost use Rattle.frames80_interned.specs.Stacks.{words_at};
ghost use Rattle.frames80_interned.specs.InternedFrame.{frame_of, pairs_of};

use crate::frame_id::FrameId;
use frames80::{FramePair, Word};
use indexmap::IndexSet;
use std::alloc::AllocError;

/// A frame as it is kept: its words are a stack, by number.
#[derive(Clone, Copy, PartialEq, Eq, Hash)]
pub(crate) struct InternedFrame {
    /// How many words it has popped from beneath the procedure's own.
    pub(crate) taken: u32,
    /// The number of the stack of its words.
    pub(crate) words: u32,
    /// What is known of the word in BC.
    pub(crate) bc: Word,
    /// What is known of the word in DE.
    pub(crate) de: Word,
    /// What is known of the word in HL.
    pub(crate) hl: Word,
}

impl InternedFrame {
    /// A frame with the words of stack `words` and `taken` words popped from beneath, whose pairs
    /// may hold anything.
    pub(crate) fn of_words(taken: u32, words: u32) -> InternedFrame
        ensures frame { (stacks : List (List Word)) → frame_of stacks result ≡ of_words taken (words_at stacks words) }
        ensures words { result.words ≡ words }
    {
        InternedFrame {
            taken,
            words,
            bc: Word::Any,
            de: Word::Any,
            hl: Word::Any,
        }
    }

    /// What is known of the word in a register pair.
    pub(crate) fn pair(self, pair: FramePair) -> Word
        ensures { result ≡ pair_in (pairs_of self) pair }
    {
        match pair {
            FramePair::Bc => self.bc,
            FramePair::De => self.de,
            FramePair::Hl => self.hl,
        }
    }

    /// The frame with `word` in a register pair, and else unchanged.
    pub(crate) fn holding(self, pair: FramePair, word: Word) -> InternedFrame
        ensures frame { (stacks : List (List Word)) → frame_of stacks result ≡ holding pair word (frame_of stacks self) }
        ensures words { result.words ≡ self.words }
    {
        match pair {
            FramePair::Bc => InternedFrame { bc: word, ..self },
            FramePair::De => InternedFrame { de: word, ..self },
            FramePair::Hl => InternedFrame { hl: word, ..self },
        }
    }
}

/// The frame with this number, which must be below the number of `frames`.
pub(crate) fn interned_at(frames: &IndexSet<InternedFrame>, id: FrameId) -> InternedFrame
    requires { id < length frames.now.keys }
    ensures { slice_get frames.now.keys id ≡ Some result }
{
    frames[id.index()]
}

/// The number of a frame; a frame that isn't kept yet is added to `frames`.
///
/// # Errors
/// `AllocError` if memory runs out, and if there are 4,294,967,295 frames already.
pub(crate) fn intern(
    frames: &mut IndexSet<InternedFrame>,
    interned: InternedFrame,
) -> Result<FrameId, AllocError>
    ensures number { IfOk result (λ id. slice_get frames.new.keys id ≡ Some interned) }
    ensures grows { (frames.new.keys ≡ frames.old.keys) ⊎ (frames.new.keys ≡ frames.old.keys ++ interned ∷ []) }
{
    if frames.len() >= u32::MAX as usize {
        return Err(AllocError);
    }
    let (index, _) = frames.insert_full(interned)?;
    Ok(FrameId::new(index as u32))
}
