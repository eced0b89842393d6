//! Spans of bytes, and what the operations of the accumulator make of them.

ghost use Rattle.std.specs.Prelude.{◌≡◌};
ghost use Rattle.verify80_spans.specs.Span.{carry_span, operated, rotated};

use decode80::{Operation, Rotation};

/// The bytes from a first to a last one, both among them: what a register may hold.
#[derive(Clone, Copy, PartialEq, Eq)]
pub struct ByteSpan {
    pub first: u8,
    pub last: u8,
}

/// What an operation may make: bytes, and the carry, `None` if it may be set or not.
#[derive(Clone, Copy)]
pub struct Outcome {
    pub value: ByteSpan,
    pub carry: Option<bool>,
}

impl Outcome {
    ghost use Rattle.verify80_spans.specs.Span.{uncarried};

    /// The outcome with these bytes, and CY cleared.
    pub fn uncarried(value: ByteSpan) -> Outcome
        ensures { result ≡ uncarried value }
    {
        Outcome {
            value,
            carry: Some(false),
        }
    }

    /// The outcome of which nothing is known: any byte, with a carry or without.
    pub const ANY: Outcome = Outcome {
        value: ByteSpan::ANY,
        carry: None,
    };
}

impl ByteSpan {
    ghost use Rattle.std.specs.Prelude.{◌≡◌, ◌↔◌, true};
    ghost use Rattle.verify80_spans.specs.Span.{bytes_between, byte_alone, is_byte_alone, meet_bytes, next_byte, previous_byte, sum_of};
    ghost use Rattle.verify80_spans.specs.Span.{difference_of, and_of, or_of, exclusive_or_of, doubled, complemented, zero_of, sign_of, only};
    ghost use Rattle.verify80_spans.specs.Span.{without, below, from, IsByteInside};

    /// The span of all bytes.
    pub const ANY: ByteSpan = ByteSpan {
        first: 0,
        last: u8::MAX,
    };

    /// The span of the bytes from `first` to `last`, both among them; it has none, if `last` is below `first`.
    pub fn new(first: u8, last: u8) -> ByteSpan
        ensures { result ≡ bytes_between first last }
    {
        ByteSpan { first, last }
    }

    /// The span of one byte.
    pub fn alone(byte: u8) -> ByteSpan
        ensures { result ≡ byte_alone byte }
    {
        ByteSpan::new(byte, byte)
    }

    /// Whether the span has one byte alone.
    pub fn is_alone(self) -> bool
        ensures { result ≡ is_byte_alone self }
    {
        self.first == self.last
    }

    /// Whether each byte of this span is one of another.
    pub fn is_inside(self, other: ByteSpan) -> bool
        ensures { (result ≡ true) ↔ IsByteInside self other }
    {
        other.first <= self.first && self.last <= other.last
    }

    /// The bytes that this span shares with another; a span without bytes, if there are none.
    pub fn meet(self, other: ByteSpan) -> ByteSpan
        ensures { result ≡ meet_bytes self other }
    {
        ByteSpan::new(self.first.max(other.first), self.last.min(other.last))
    }

    /// The bytes of this span plus 1, as INR makes them: any byte, if 255 is one of several.
    pub fn next(self) -> ByteSpan
        ensures { result ≡ next_byte self }
    {
        if self.last < u8::MAX {
            ByteSpan::new(self.first.wrapping_add(1), self.last.wrapping_add(1))
        } else if self.first == u8::MAX {
            ByteSpan::alone(0)
        } else {
            ByteSpan::ANY
        }
    }

    /// The bytes of this span less 1, as DCR makes them: any byte, if 0 is one of several.
    pub fn previous(self) -> ByteSpan
        ensures { result ≡ previous_byte self }
    {
        if self.first > 0 {
            ByteSpan::new(self.first - 1, self.last.saturating_sub(1))
        } else if self.last == 0 {
            ByteSpan::alone(u8::MAX)
        } else {
            ByteSpan::ANY
        }
    }

    /// The sums of a byte of this span, one of another and a carry: nothing is known, if some of them wrap and others don't.
    pub fn plus(self, other: ByteSpan, carry: ByteSpan) -> Outcome
        ensures { result ≡ sum_of self other carry }
    {
        let first = u16::from(self.first) + u16::from(other.first) + u16::from(carry.first);
        let last = u16::from(self.last) + u16::from(other.last) + u16::from(carry.last);
        if last < 256 && first < 256 {
            Outcome {
                value: ByteSpan::new(first as u8, last as u8),
                carry: Some(false),
            }
        } else if first >= 256 && last >= 256 && last < 512 && first < 512 {
            Outcome {
                value: ByteSpan::new((first - 256) as u8, (last - 256) as u8),
                carry: Some(true),
            }
        } else {
            Outcome::ANY
        }
    }

    /// A byte of this span less one of another and a borrow: nothing is known, if some of the differences wrap and others don't.
    pub fn minus(self, other: ByteSpan, borrow: ByteSpan) -> Outcome
        ensures { result ≡ difference_of self other borrow }
    {
        let first = u16::from(self.first);
        let last = u16::from(self.last);
        let least = u16::from(other.first) + u16::from(borrow.first);
        let most = u16::from(other.last) + u16::from(borrow.last);
        if most <= first && least <= last {
            Outcome {
                value: ByteSpan::new((first - most) as u8, (last - least) as u8),
                carry: Some(false),
            }
        } else if last < least && first < most && most <= 256 && least <= 256 {
            Outcome {
                value: ByteSpan::new((256 + first - most) as u8, (256 + last - least) as u8),
                carry: Some(true),
            }
        } else {
            Outcome::ANY
        }
    }

    /// The bytes that ANA makes of a byte of this span and one of another: at most the last of either span.
    pub fn and(self, other: ByteSpan) -> ByteSpan
        ensures { result ≡ and_of self other }
    {
        if self.is_alone() && other.is_alone() {
            ByteSpan::alone(self.first & other.first)
        } else {
            ByteSpan::new(0, self.last.min(other.last))
        }
    }

    /// The bytes that XRA makes of a byte of this span and one of another: at most the sum of the last ones.
    pub fn exclusive_or(self, other: ByteSpan) -> ByteSpan
        ensures { result ≡ exclusive_or_of self other }
    {
        if self.is_alone() && other.is_alone() {
            ByteSpan::alone(self.first ^ other.first)
        } else {
            ByteSpan::new(0, self.last.saturating_add(other.last))
        }
    }

    /// The bytes that ORA makes of a byte of this span and one of another: at least the first of either span, and at most the sum of the
    /// last ones.
    pub fn or(self, other: ByteSpan) -> ByteSpan
        ensures { result ≡ or_of self other }
    {
        if self.is_alone() && other.is_alone() {
            ByteSpan::alone(self.first | other.first)
        } else {
            ByteSpan::new(
                self.first.max(other.first),
                self.last.saturating_add(other.last),
            )
        }
    }

    /// The bytes of this span doubled: any byte, if a double may be above 255.
    fn doubled(self) -> ByteSpan
        ensures { result ≡ doubled self }
    {
        if self.last < 128 && self.first < 128 {
            ByteSpan::new(2 * self.first, 2 * self.last)
        } else {
            ByteSpan::ANY
        }
    }

    /// The bytes of this span with each bit complemented, as CMA makes them.
    pub fn complemented(self) -> ByteSpan
        ensures { result ≡ complemented self }
    {
        ByteSpan::new(u8::MAX - self.last, u8::MAX - self.first)
    }

    /// Whether a byte of this span is 0; `None` if some are and others aren't.
    pub fn zero(self) -> Option<bool>
        ensures { result ≡ zero_of self }
    {
        if self.first > 0 {
            Some(false)
        } else if self.last == 0 {
            Some(true)
        } else {
            None
        }
    }

    /// Whether bit 7 of a byte of this span is set; `None` if it is in some and not in others.
    pub fn sign(self) -> Option<bool>
        ensures { result ≡ sign_of self }
    {
        if self.last < 128 {
            Some(false)
        } else if self.first >= 128 {
            Some(true)
        } else {
            None
        }
    }

    /// The span of `byte` alone; `None` if this span doesn't have it.
    pub fn only(self, byte: u8) -> Option<ByteSpan>
        ensures { result ≡ only byte self }
    {
        (self.first <= byte && byte <= self.last).then_some(ByteSpan::alone(byte))
    }

    /// This span without `byte`, if that is its first or last one, and else as it is; `None` if no byte is left.
    pub fn without(self, byte: u8) -> Option<ByteSpan>
        ensures { result ≡ without byte self }
    {
        if self.first == byte {
            (byte < self.last).then(|| ByteSpan::new(byte.saturating_add(1), self.last))
        } else if self.last == byte {
            (self.first < byte).then(|| ByteSpan::new(self.first, byte.saturating_sub(1)))
        } else {
            Some(self)
        }
    }

    /// The bytes of this span below `byte`; `None` if there are none.
    pub fn below(self, byte: u8) -> Option<ByteSpan>
        ensures { result ≡ below byte self }
    {
        (self.first < byte).then(|| ByteSpan::new(
            self.first,
            self.last.min(byte.saturating_sub(1)),
        ))
    }

    /// The bytes of this span from `byte` on; `None` if there are none.
    pub fn from(self, byte: u8) -> Option<ByteSpan>
        ensures { result ≡ from byte self }
    {
        (byte <= self.last).then_some(ByteSpan::new(self.first.max(byte), self.last))
    }
}

/// The carry as a number: 0 or 1, and either if it isn't known.
fn carry_span(carry: Option<bool>) -> ByteSpan
    ensures { result ≡ carry_span carry }
{
    match carry {
        None => ByteSpan::new(0, 1),
        Some(true) => ByteSpan::alone(1),
        Some(false) => ByteSpan::alone(0),
    }
}

/// What an operation may make of the accumulator's bytes and an operand's, given the carry before it. A comparison makes the difference.
pub fn operated(operation: Operation, a: ByteSpan, byte: ByteSpan, carry: Option<bool>) -> Outcome
    ensures { result ≡ operated operation a byte carry }
{
    match operation {
        Operation::Add => a.plus(byte, ByteSpan::alone(0)),
        Operation::AddCarry => a.plus(byte, carry_span(carry)),
        Operation::Subtract | Operation::Compare => a.minus(byte, ByteSpan::alone(0)),
        Operation::SubtractBorrow => a.minus(byte, carry_span(carry)),
        Operation::And => Outcome::uncarried(a.and(byte)),
        Operation::ExclusiveOr => Outcome::uncarried(a.exclusive_or(byte)),
        Operation::Or => Outcome::uncarried(a.or(byte)),
    }
}

/// The bytes that a rotation makes of the accumulator's, given the carry before it.
pub fn rotated(rotation: Rotation, a: ByteSpan, carry: Option<bool>) -> ByteSpan
    ensures { result ≡ rotated rotation a carry }
{
    let twice = (u16::from(a.first) * 2 % 256) as u8;
    match (rotation, carry) {
        (Rotation::Left, _) if a.is_alone() => ByteSpan::alone(twice + a.first / 128),
        (Rotation::Left, _) => a.doubled(),
        (Rotation::Right, _) if a.is_alone() => ByteSpan::alone(a.first / 2 + a.first % 2 * 128),
        (Rotation::Right, _) => ByteSpan::ANY,
        (Rotation::LeftThroughCarry, Some(false)) if a.is_alone() => ByteSpan::alone(twice),
        (Rotation::LeftThroughCarry, Some(false)) => a.doubled(),
        (Rotation::LeftThroughCarry, Some(true)) if a.is_alone() => ByteSpan::alone(twice + 1),
        (Rotation::RightThroughCarry, Some(false)) => ByteSpan::new(a.first / 2, a.last / 2),
        (Rotation::RightThroughCarry, Some(true)) => {
            ByteSpan::new(a.first / 2 + 128, a.last / 2 + 128)
        }
        (Rotation::LeftThroughCarry, Some(true) | None) | (Rotation::RightThroughCarry, None) => {
            ByteSpan::ANY
        }
    }
}
