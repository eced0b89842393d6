//! Spans of words.

use crate::byte_span::ByteSpan;

/// The words from a first to a last one, both among them.
#[derive(Clone, Copy, PartialEq, Eq)]
pub struct Span {
    pub first: u16,
    pub last: u16,
}

impl Span {
    ghost use Rattle.std.specs.Prelude.{◌≡◌, ◌↔◌, true, IsTrue};
    ghost use Rattle.verify80_spans.specs.Span.{words_between, word_alone, is_alone, next_span, previous_span, sum_span, sum_carries, high_of, low_of, joined, hull, meet, IsInside};

    /// The span of all words.
    pub const ANY: Span = Span {
        first: 0,
        last: u16::MAX,
    };

    /// The span of the words from `first` to `last`, both among them; it has none, if `last` is below `first`.
    pub fn new(first: u16, last: u16) -> Span
        ensures { result ≡ words_between first last }
    {
        Span { first, last }
    }

    /// The span of one word.
    pub fn alone(word: u16) -> Span
        ensures { result ≡ word_alone word }
    {
        Span::new(word, word)
    }

    /// Whether each word of this span is one of another.
    pub fn is_inside(self, other: Span) -> bool
        ensures { (result ≡ true) ↔ IsInside self other }
    {
        other.first <= self.first && self.last <= other.last
    }

    /// Whether the span has one word alone.
    pub fn is_alone(self) -> bool
        ensures { result ≡ is_alone self }
    {
        self.first == self.last
    }

    /// The words that this span shares with another; a span without words, if there are none.
    pub fn meet(self, other: Span) -> Span
        ensures { result ≡ meet self other }
    {
        Span::new(self.first.max(other.first), self.last.min(other.last))
    }

    /// The smallest span that has the words of this one and of another.
    pub fn hull(self, other: Span) -> Span
        ensures { result ≡ hull self other }
    {
        Span::new(self.first.min(other.first), self.last.max(other.last))
    }

    /// The words of this span plus 1, as INX makes them: any word, if FFFF is one of several.
    pub fn next(self) -> Span
        ensures { result ≡ next_span self }
    {
        if self.last < u16::MAX {
            Span::new(self.first.wrapping_add(1), self.last.wrapping_add(1))
        } else if self.first == u16::MAX {
            Span::alone(0)
        } else {
            Span::ANY
        }
    }

    /// The words of this span less 1, as DCX makes them: any word, if 0 is one of several.
    pub fn previous(self) -> Span
        ensures { result ≡ previous_span self }
    {
        if self.first > 0 {
            Span::new(self.first - 1, self.last.saturating_sub(1))
        } else if self.last == 0 {
            Span::alone(u16::MAX)
        } else {
            Span::ANY
        }
    }

    /// The sums of a word of this span and one of another, as DAD makes them: any word, if some wrap and others don't.
    pub fn plus(self, other: Span) -> Span
        ensures { result ≡ sum_span self other }
    {
        let first = u32::from(self.first) + u32::from(other.first);
        let last = u32::from(self.last) + u32::from(other.last);
        if last < 65536 && first < 65536 {
            Span::new(first as u16, last as u16)
        } else if first >= 65536 && last >= 65536 {
            Span::new((first - 65536) as u16, (last - 65536) as u16)
        } else {
            Span::ANY
        }
    }

    /// Whether the sum of a word of this span and one of another carries; `None` if some do and others don't.
    pub fn carries(self, other: Span) -> Option<bool>
        ensures { result ≡ sum_carries self other }
    {
        if u32::from(self.last) + u32::from(other.last) < 65536 {
            Some(false)
        } else if u32::from(self.first) + u32::from(other.first) >= 65536 {
            Some(true)
        } else {
            None
        }
    }

    /// The high bytes of this span's words.
    pub fn high(self) -> ByteSpan
        ensures { result ≡ high_of self }
    {
        ByteSpan::new((self.first / 256) as u8, (self.last / 256) as u8)
    }

    /// The low bytes of this span's words: any byte, unless the words have one high byte.
    pub fn low(self) -> ByteSpan
        ensures { result ≡ low_of self }
    {
        if self.first / 256 == self.last / 256 {
            ByteSpan::new((self.first % 256) as u8, (self.last % 256) as u8)
        } else {
            ByteSpan::ANY
        }
    }

    /// The span from the first bytes of `high` and `low` to the last ones of both.
    pub fn of_halves(high: ByteSpan, low: ByteSpan) -> Span
        ensures { result ≡ joined high low }
    {
        Span::new(
            256 * u16::from(high.first) + u16::from(low.first),
            256 * u16::from(high.last) + u16::from(low.last),
        )
    }
}
