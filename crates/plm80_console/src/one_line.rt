//! Texts that stay in their line.

ghost use Rattle.std.specs.Prelude.{◌≡◌};
ghost use Rattle.plm80_console.specs.HiddenCharacters.{is_hidden};

use std::fmt;
use std::fmt::{Display, Formatter, Write};

/// A text in which each control character is shown by its bytes, as `\x1B`, and so is each character that isn't seen or changes the order
/// of others: the text stays in its line, no terminal obeys it, and it reads as what it is.
#[derive(Drop)]
pub struct OneLine<F>(pub F);

impl<F: Display> Display for OneLine<F> {
    fn fmt<W: Write>(&self, formatter: &mut Formatter<W>) -> fmt::Result {
        let mut shown = Shown { formatter };
        shown.write(&self.0)
    }
}

/// A formatter that writes text with each hidden character shown by its bytes.
#[derive(Drop)]
struct Shown<'f, W> {
    formatter: &'f mut Formatter<W>,
}

impl<'f, W: Write> Write for Shown<'f, W> {
    fn write_str(&mut self, text: &str) -> fmt::Result {
        for character in text.chars() {
            if is_hidden(character) {
                let mut bytes = [0u8; 4];
                for byte in character.encode_utf8(&mut bytes).as_bytes() {
                    write!(self.formatter, "\\x{byte:02X}")?;
                }
            } else {
                self.formatter.write_char(character)?;
            }
        }
        Ok(())
    }
}

/// Whether a character is a control character, or one that isn't seen or changes the order of others.
fn is_hidden(character: char) -> bool
    ensures { result ≡ is_hidden character }
{
    character.is_control()
        || matches!(
            character,
            '\u{AD}'
                | '\u{61C}'
                | '\u{200B}'..='\u{200F}'
                | '\u{2028}'..='\u{202E}'
                | '\u{2060}'..='\u{206F}'
                | '\u{FEFF}'
        )
}
