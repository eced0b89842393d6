//! What is known of a word.

ghost use Rattle.std.specs.Cmp.{partial_equiv_from_equiv};
ghost use Rattle.std.specs.Hash as fed;
ghost use Rattle.std.specs.Prelude.{◌≡◌};

use std::hash::{Hash, Hasher};

/// What is known of a word on a procedure's stack, or in one of its register pairs.
#[derive(Clone, Copy, Debug)]
pub enum Word {
    /// The procedure's own return address, both bytes of it.
    Own = 1,
    /// Any word; nothing relies on its not being the return address.
    Any = 0,
}

impl Word {
    ghost use Rattle.frames80.specs.Word.{met};

    /// What is known of a word that is one of the two: `Own` only if both are `Own`.
    pub fn meet(self, other: Word) -> Word
        ensures { result ≡ met self other }
    {
        match self {
            Word::Own => other,
            Word::Any => Word::Any,
        }
    }
}

impl PartialEq for Word {
    ghost use Rattle.frames80.specs.Word.{word_eq, word_equivalence};

    ghost eq = { word_eq };

    ghost laws = { partial_equiv_from_equiv word_equivalence };

    /// Whether both are the same variant.
    fn eq(&self, other: &Word) -> bool {
        *self as u8 == *other as u8
    }
}

impl Eq for Word {
    ghost use Rattle.frames80.specs.Word.{word_equivalence};

    ghost laws = { word_equivalence };
}

impl Hash for Word {
    ghost use Rattle.frames80.specs.Word.{word_writes, word_alike};

    ghost hash_input = { word_writes };

    ghost respects_eq = { word_alike };

    /// Feeds the variant's number, 0 or 1, to the hasher.
    fn hash<H: Hasher>(&self, state: &mut H) {
        state.write_u8(*self as u8);
    }
}
