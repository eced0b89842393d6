//! Tags with numbers.

ghost use Rattle.std.specs.Prelude.{◌≡◌, ◌<◌, IfOk, OnOk};
ghost use Rattle.page80.specs.Pieces.{EndsTag, IsMarkup, IsTagBegun, StaysInTag};

use std::alloc::AllocError;

/// Appends an attribute to a tag that has begun: what stands before its number, such as ` x="`, the number, and a quote.
/// `AllocError` if memory runs out.
pub(crate) fn append_attribute(
    tag: &mut Vec<u8>,
    before: &[u8],
    number: u16,
) -> Result<(), AllocError>
    requires begun { IsTagBegun tag.old.items }
    requires before { StaysInTag before.now }
    requires number { number < 10000 }
    ensures { OnOk result (IsTagBegun tag.new.items) }
{
    append_in_tag(tag, before)?;
    append_in_tag(tag, &number_digits(number))?;
    append_in_tag(tag, b"\"".as_slice())
}

/// Appends what goes on in a tag that has begun. `AllocError` if memory runs out.
pub(crate) fn append_in_tag(tag: &mut Vec<u8>, piece: &[u8]) -> Result<(), AllocError>
    requires begun { IsTagBegun tag.old.items }
    requires piece { StaysInTag piece.now }
    ensures { OnOk result (IsTagBegun tag.new.items) }
{
    tag.extend_from_slice(piece)?;
    Ok(())
}

/// Appends the end of a tag that has begun. `AllocError` if memory runs out.
pub(crate) fn end_tag(tag: &mut Vec<u8>, piece: &[u8]) -> Result<(), AllocError>
    requires begun { IsTagBegun tag.old.items }
    requires piece { EndsTag piece.now }
    ensures { OnOk result (IsMarkup tag.new.items) }
{
    tag.extend_from_slice(piece)?;
    Ok(())
}

/// A number as four decimal digits.
pub(crate) fn number_digits(number: u16) -> [u8; 4]
    requires { number < 10000 }
    ensures { StaysInTag result }
{
    [
        decimal_digit(number / 1000),
        decimal_digit(number / 100 % 10),
        decimal_digit(number / 10 % 10),
        decimal_digit(number % 10),
    ]
}

/// A decimal digit.
fn decimal_digit(digit: u16) -> u8
    requires { digit < 10 }
    ensures { result < 58 }
{
    48 + digit as u8
}
