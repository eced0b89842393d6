//! What is known of a procedure's stack and register pairs at a point.

ghost use Rattle.std.specs.Prelude.{◌≡◌, ◌+◌, ◌<◌, ◌≤◌, IfOk, reverse};

use crate::frame_pair::FramePair;
use crate::holding::Holding;
use crate::word::Word;
use std::alloc::{AllocError, Global};
use std::hash::{Hash, Hasher};
use std::marker::Model;

/// What is known of a procedure's stack and register pairs at one of its points.
///
/// A frame lists the words that the procedure itself has on the stack, its return address among
/// them until that is popped, and counts the words that it has popped from beneath them. A contract
/// sees the words top first; the field has them from bottom to top.
///
/// Two frames are equal if all their fields are.
#[derive(Debug, Drop)]
pub struct Frame {
    /// How many words beneath the procedure's own it has popped.
    pub taken: u32,
    /// The procedure's own words on the stack, from bottom to top. An entry starts with its return
    /// address there.
    pub words: Vec<Word>,
    /// What is known of the word in B and C.
    pub bc: Word,
    /// What is known of the word in D and E.
    pub de: Word,
    /// What is known of the word in H and L.
    pub hl: Word,
}

impl Model for Frame {
    ghost use Rattle.frames80.specs.StackFrame.{StackFrame};

    ghost Value = { StackFrame };

    ghost use Rattle.frames80.specs.FrameView.{frame_view};

    ghost view = { frame_view };
}

impl Frame {
    ghost use Rattle.frames80.specs.StackFrame.{entry_frame, main_frame, pair_in, with_pair, popped, top_word, of_words};
    ghost use Rattle.frames80.specs.Holding.{holding_of};

    /// The frame at the start of a procedure that is called: its one word is its return address.
    ///
    /// # Errors
    /// `AllocError` if memory runs out.
    pub fn entry(alloc: Global) -> Result<Frame, AllocError>
        ensures { IfOk result (λ frame. frame ≡ entry_frame) }
    {
        Ok(Frame::of_words(0, vec![in alloc; Word::Own]?))
    }

    /// The frame at the start of the main program: it has no words.
    ///
    /// # Errors
    /// `AllocError` if memory runs out.
    pub fn main_entry(alloc: Global) -> Result<Frame, AllocError>
        ensures { IfOk result (λ frame. frame ≡ main_frame) }
    {
        Ok(Frame::of_words(0, Vec::new(alloc)))
    }

    /// A frame with these own words, from bottom to top, and `taken` words popped from beneath
    /// them. Its pairs may hold anything.
    pub(crate) fn of_words(taken: u32, words: Vec<Word>) -> Frame
        ensures { result ≡ of_words taken (reverse words.items) }
    {
        Frame {
            taken,
            words,
            bc: Word::Any,
            de: Word::Any,
            hl: Word::Any,
        }
    }

    /// A copy of the frame.
    ///
    /// # Errors
    /// `AllocError` if memory runs out.
    pub fn copy(&self, alloc: Global) -> Result<Frame, AllocError>
        ensures { IfOk result (λ frame. frame ≡ self.now) }
    {
        let words = Vec::from_slice(alloc, self.words.as_slice())?;
        Ok(Frame { words, ..*self })
    }

    /// What is known of the word in a register pair.
    pub fn pair(&self, pair: FramePair) -> Word
        ensures { result ≡ pair_in self.now.pairs pair }
    {
        match pair {
            FramePair::Bc => self.bc,
            FramePair::De => self.de,
            FramePair::Hl => self.hl,
        }
    }

    /// What the checks of pops and returns need to know of the frame's words: whether there are
    /// none, the return address alone, or others.
    pub fn holding(&self) -> Holding
        ensures { result ≡ holding_of self.now.words }
    {
        match self.words.as_slice() {
            [] => Holding::Nothing,
            [Word::Own] => Holding::ReturnAddress,
            _ => Holding::Others,
        }
    }

    /// Sets what is known of the word in a register pair.
    pub(crate) fn set_pair(&mut self, pair: FramePair, word: Word)
        ensures { self.new ≡ record self.old { pairs = with_pair self.old.pairs pair word } }
    {
        match pair {
            FramePair::Bc => self.bc = word,
            FramePair::De => self.de = word,
            FramePair::Hl => self.hl = word,
        }
    }

    /// Removes the top word and returns it. If the procedure has no word of its own left, it pops
    /// one from beneath: `taken` is one more, and the result is `Any`. `taken` must be at most
    /// 1,000,000 before.
    pub(crate) fn pop(&mut self) -> Word
        requires { self.old.taken ≤ 1000000 }
        ensures word { result ≡ top_word self.old.words }
        ensures rest { self.new ≡ popped self.old }
    {
        match self.words.pop() {
            Some(word) => word,
            None => {
                self.taken += 1;
                Word::Any
            }
        }
    }
}

impl PartialEq for Frame {
    ghost use Rattle.std.specs.Cmp.{partial_equiv_from_equiv};
    ghost use Rattle.frames80.specs.FrameEquality.{frame_eq, frame_equivalence};

    ghost eq = { frame_eq };

    ghost laws = { partial_equiv_from_equiv frame_equivalence };

    /// Whether all fields of both frames are equal.
    #[tactic(auto, using(crate::proofs::Reversed::pointwise_reverse))]
    fn eq(&self, other: &Frame) -> bool {
        self.taken == other.taken
            && self.words == other.words
            && self.bc == other.bc
            && self.de == other.de
            && self.hl == other.hl
    }
}

impl Eq for Frame {
    ghost use Rattle.frames80.specs.FrameEquality.{frame_equivalence};

    ghost laws = { frame_equivalence };
}

impl Hash for Frame {
    ghost use Rattle.frames80.specs.FrameEquality.{frame_writes, frame_alike};

    ghost hash_input = { frame_writes };

    ghost respects_eq = { frame_alike };

    /// Feeds all fields to the hasher.
    fn hash<H: Hasher>(&self, state: &mut H) {
        state.write_u32(self.taken);
        self.words.hash(state);
        self.bc.hash(state);
        self.de.hash(state);
        self.hl.hash(state);
    }
}
