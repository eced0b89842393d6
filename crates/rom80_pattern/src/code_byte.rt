//! The bytes of a module's code, each a half of a target's value, which isn't known yet, plus an addend.

ghost use Rattle.std.specs.Prelude.{◌≡◌};
ghost use Rattle.rom80_pattern.specs.CodeBytes.{is_known_fixup, is_plain};

use crate::number::number_of;
use omf_model::Target;

/// Which byte of a word: the low or the high one.
#[derive(Clone, Copy, PartialEq, Eq)]
pub enum Half {
    /// The low byte.
    Low,
    /// The high byte.
    High,
}

/// A byte of a module's code: a half of the word that is the value of a target plus an addend, modulo 65536. The value of a segment is
/// its base, that of STACK its top, that of the absolute segment 0; that of an external is the word that it stands for. So a byte outside
/// fixups is the low half of absolute 0 plus the byte.
#[derive(Clone, Copy)]
pub struct CodeByte {
    /// The byte's offset in CODE.
    pub offset: u16,
    /// Which half of the word the byte is.
    pub half: Half,
    /// The segment or external whose value the word has.
    pub target: Target,
    /// The word less the target's value, modulo 65536.
    pub addend: u16,
}

impl CodeByte {
    /// Whether the byte is outside fixups.
    pub fn is_plain(&self) -> bool
        ensures { result ≡ is_plain self.now }
    {
        self.half == Half::Low && self.target == Target::Segment(0)
    }

    /// Whether the byte is in a fixup of one of the two values that are known at each address: absolute 0 and CODE's base.
    pub fn is_known_fixup(&self) -> bool
        ensures { result ≡ is_known_fixup self.now }
    {
        !self.is_plain() && number_of(self.target) < 2
    }
}
