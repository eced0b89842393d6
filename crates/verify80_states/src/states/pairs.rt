//! What is known of a pair.

use verify80_spans::{ByteSpan, Span};

/// What a pair may be: its words, and its low bytes, which may be fewer than those of the words.
#[derive(Clone, Copy, PartialEq, Eq)]
pub struct PairSpan {
    pub words: Span,
    pub low: ByteSpan,
}

impl PairSpan {
    ghost use Rattle.std.specs.Prelude.{◌≡◌, ◌↔◌, true};
    ghost use Rattle.verify80_spans.specs.Span.{high_of};
    ghost use Rattle.verify80_states.specs.Known.{pair_of_words, pair_of_halves, cut_high, cut_low, next_pair, previous_pair, sum_pair, IsPairInside};

    /// A pair of which nothing is known.
    pub const ANY: PairSpan = PairSpan {
        words: Span::ANY,
        low: ByteSpan::ANY,
    };

    /// The pair that is one of `words`.
    pub fn of_words(words: Span) -> PairSpan
        ensures { result ≡ pair_of_words words }
    {
        PairSpan {
            words,
            low: words.low(),
        }
    }

    /// The pair whose high byte is one of `high` and whose low byte is one of `low`.
    pub fn of_halves(high: ByteSpan, low: ByteSpan) -> PairSpan
        ensures { result ≡ pair_of_halves high low }
    {
        PairSpan {
            words: Span::of_halves(high, low),
            low,
        }
    }

    /// What the high byte of this pair may be.
    pub fn high(self) -> ByteSpan
        ensures { result ≡ high_of self.words }
    {
        self.words.high()
    }

    /// This pair when its high byte is known to be one of `byte` too.
    pub(crate) fn cut_high(self, byte: ByteSpan) -> PairSpan
        ensures { result ≡ cut_high self byte }
    {
        PairSpan {
            words: self.words.meet(Span::of_halves(byte, ByteSpan::ANY)),
            low: self.low,
        }
    }

    /// This pair when its low byte is known to be one of `byte` too.
    pub(crate) fn cut_low(self, byte: ByteSpan) -> PairSpan
        ensures { result ≡ cut_low self byte }
    {
        let low = self.low.meet(byte);
        PairSpan {
            words: self.words.meet(Span::of_halves(self.high(), low)),
            low,
        }
    }

    /// This pair plus 1, as INX makes it.
    pub(crate) fn next(self) -> PairSpan
        ensures { result ≡ next_pair self }
    {
        PairSpan::of_words(self.words.next()).cut_low(self.low.next())
    }

    /// This pair less 1, as DCX makes it.
    pub(crate) fn previous(self) -> PairSpan
        ensures { result ≡ previous_pair self }
    {
        PairSpan::of_words(self.words.previous()).cut_low(self.low.previous())
    }

    /// The sum of this pair and another, as DAD makes it.
    pub(crate) fn plus(self, other: PairSpan) -> PairSpan
        ensures { result ≡ sum_pair self other }
    {
        let low = self.low.plus(other.low, ByteSpan::alone(0));
        PairSpan::of_words(self.words.plus(other.words)).cut_low(low.value)
    }

    /// Whether all that this pair may be another may be.
    pub(crate) fn is_inside(self, other: PairSpan) -> bool
        ensures { (result ≡ true) ↔ IsPairInside self other }
    {
        self.words.is_inside(other.words) && self.low.is_inside(other.low)
    }
}
