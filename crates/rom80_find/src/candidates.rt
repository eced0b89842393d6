//! The words that the value of a target may be, given bytes of a dump.

ghost use Rattle.std.specs.Prelude.{◌≡◌, ◌<◌, ◌+◌, ◌%◌, ◌==◌, ◌&&◌, ℕ, false, IfSome, IfNone};
ghost use Rattle.rom80_find.specs.Candidates.{is_candidate, is_half, is_in_window};

use rom80_pattern::Half;

/// The words that the value of a target may be: at least one.
#[derive(Clone, Copy)]
pub(crate) enum Candidates {
    /// All words.
    Any,
    /// The 256 words with this low byte.
    Low(u8),
    /// The first of some words in a row, and how many follow it; 0000 follows FFFF.
    Window(u16, u8),
}

impl Candidates {
    /// Returns the candidates whose sum with `addend`, modulo 65536, has `byte` as its `half`; `None` if there are none.
    pub(crate) fn narrow(self, half: Half, addend: u16, byte: u8) -> Option<Candidates>
        ensures some { IfSome result (λ narrowed. (word : ℕ) → word < 65536 →
            is_candidate narrowed word ≡ (is_candidate self word && is_half half addend byte word)) }
        ensures none { IfNone result ((word : ℕ) → word < 65536 →
            (is_candidate self word && is_half half addend byte word) ≡ false) }
    {
        match half {
            Half::Low => self.with_low_byte(byte.wrapping_sub((addend % 256) as u8)),
            Half::High => self.within_page(u16::from_be_bytes([byte, 0]).wrapping_sub(addend)),
        }
    }

    /// Returns the candidates with the low byte `low`; `None` if there are none.
    fn with_low_byte(self, low: u8) -> Option<Candidates>
        ensures some { IfSome result (λ narrowed. (word : ℕ) → word < 65536 →
            is_candidate narrowed word ≡ (is_candidate self word && (word % 256 == low))) }
        ensures none { IfNone result ((word : ℕ) → word < 65536 →
            (is_candidate self word && (word % 256 == low)) ≡ false) }
    {
        match self {
            Candidates::Any => Some(Candidates::Low(low)),
            Candidates::Low(other) => { if other == low { Some(self) } else { None } }
            Candidates::Window(first, more) => low_in_window(first, more, low),
        }
    }

    /// Returns the candidates among the 256 words from `start` on; `None` if there are none.
    fn within_page(self, start: u16) -> Option<Candidates>
        ensures some { IfSome result (λ narrowed. (word : ℕ) → word < 65536 →
            is_candidate narrowed word ≡ (is_candidate self word && is_in_window start 255 word)) }
        ensures none { IfNone result ((word : ℕ) → word < 65536 →
            (is_candidate self word && is_in_window start 255 word) ≡ false) }
    {
        match self {
            Candidates::Any => Some(Candidates::Window(start, 255)),
            Candidates::Low(low) => low_in_window(start, 255, low),
            Candidates::Window(first, more) => common_window(first, more, start),
        }
    }
}

/// The only candidate with the low byte `low` among the word `first` and the `more` words that follow it; `None` if they have none.
fn low_in_window(first: u16, more: u8, low: u8) -> Option<Candidates>
    ensures some { IfSome result (λ narrowed. (word : ℕ) → word < 65536 →
        is_candidate narrowed word ≡ (is_in_window first more word && (word % 256 == low))) }
    ensures none { IfNone result ((word : ℕ) → word < 65536 →
        (is_in_window first more word && (word % 256 == low)) ≡ false) }
{
    let after = low.wrapping_sub((first % 256) as u8);
    if after <= more {
        Some(Candidates::Window(first.wrapping_add(u16::from(after)), 0))
    } else {
        None
    }
}

/// The candidates that the word `first` and the `more` words that follow it have in common with the 256 words from `start` on; `None` if
/// there are none.
fn common_window(first: u16, more: u8, start: u16) -> Option<Candidates>
    ensures some { IfSome result (λ narrowed. (word : ℕ) → word < 65536 →
        is_candidate narrowed word ≡ (is_in_window first more word && is_in_window start 255 word)) }
    ensures none { IfNone result ((word : ℕ) → word < 65536 →
        (is_in_window first more word && is_in_window start 255 word) ≡ false) }
{
    let ahead = start.wrapping_sub(first);
    if ahead <= u16::from(more) {
        return Some(Candidates::Window(start, more - ahead as u8));
    }
    let behind = first.wrapping_sub(start);
    if behind > 255 {
        return None;
    }
    Some(Candidates::Window(first, more.min(255 - behind as u8)))
}
