//! What is known of the words on top of the stack.

ghost use Rattle.std.specs.Prelude.{◌≡◌, true};
ghost use Rattle.verify80_states.specs.State.{IsWordInside};

use crate::states::pairs::PairSpan;

/// What the words from the stack pointer on may be, as far as the program has written them.
#[derive(Clone, Copy, PartialEq, Eq)]
pub struct Words {
    pub first: Option<PairSpan>,
    pub second: Option<PairSpan>,
    pub third: Option<PairSpan>,
    pub fourth: Option<PairSpan>,
}

impl Words {
    ghost use Rattle.std.specs.Prelude.{◌≡◌, true};
    ghost use Rattle.verify80_states.specs.State.{pushed, popped, AreWordsInside};

    /// Words of which none is known.
    pub const NONE: Words = Words {
        first: None,
        second: None,
        third: None,
        fourth: None,
    };

    /// The words after one is pushed; the last one is forgotten.
    pub fn pushed(self, word: Option<PairSpan>) -> Words
        ensures { result ≡ pushed self word }
    {
        Words {
            first: word,
            second: self.first,
            third: self.second,
            fourth: self.third,
        }
    }

    /// The words after one is popped; of the last one nothing is known then.
    pub fn popped(self) -> Words
        ensures { result ≡ popped self }
    {
        Words {
            first: self.second,
            second: self.third,
            third: self.fourth,
            fourth: None,
        }
    }

    /// Whether these words say all that others do.
    pub(crate) fn are_inside(self, other: Words) -> bool
        ensures { result ≡ true → AreWordsInside self other }
    {
        is_word_inside(self.first, other.first)
            && is_word_inside(self.second, other.second)
            && is_word_inside(self.third, other.third)
            && is_word_inside(self.fourth, other.fourth)
    }
}

/// Whether `inner`, what is known of a word, says all that `outer` does.
fn is_word_inside(inner: Option<PairSpan>, outer: Option<PairSpan>) -> bool
    ensures { result ≡ true → IsWordInside inner outer }
{
    match (inner, outer) {
        (_, None) => true,
        (None, Some(_)) => false,
        (Some(inner), Some(outer)) => inner.is_inside(outer),
    }
}
