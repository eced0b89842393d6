//! Numbers that were perhaps meant in decimal.

ghost use Rattle.std.specs.Prelude.{◌≡◌, IfSome};
ghost use Rattle.plm80_console.specs.NumberText.{IsCountText, count_value};

use plm80_console::{OptionText, count_of_digits};
use std::fmt;
use std::fmt::{Display, Formatter, Write};

/// What may be said of an option whose number is hexadecimal, and writes a size of a memory in decimal.
#[derive(Clone, Copy)]
pub(crate) struct DecimalWords<'a> {
    /// The option.
    option: OptionText<'a>,
    /// The number that its text writes in decimal.
    number: u64,
}

impl<'a> DecimalWords<'a> {
    /// The words on an option; `None` if it writes no size of a memory in decimal.
    pub(crate) fn of(option: OptionText<'a>) -> Option<DecimalWords<'a>>
        ensures { IfSome result (λ words. (words.option ≡ option.entry) × (words.number ≡ count_value option.entry.text.now)) }
    {
        let number = decimal_size(option.text())?;
        Some(DecimalWords { option, number })
    }
}

impl Display for DecimalWords<'_> {
    fn fmt<W: Write>(&self, formatter: &mut Formatter<W>) -> fmt::Result {
        let (name, text, number) = (self.option.name(), self.option.text(), self.number);
        write!(
            formatter,
            "--{name} {text} is hexadecimal: {text} in decimal is {number:X}"
        )
    }
}

/// The number that `text` writes in decimal, if that is a power of two, as sizes of memories are; else `None`.
fn decimal_size(text: &str) -> Option<u64>
    ensures { IfSome result (λ number. IsCountText text.now × (number ≡ count_value text.now)) }
{
    let number = count_of_digits(text)?;
    if number >= 16 && number.count_ones() == 1 {
        Some(number)
    } else {
        None
    }
}
