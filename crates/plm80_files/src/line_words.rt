//! What is wrong with a line of a text, in words.

ghost use Rattle.std.specs.Prelude.{◌≡◌, [], option_copied, option_map, unwrap_or};
ghost use Rattle.std.specs.List.{list_any};
ghost use Rattle.plm80_files.specs.Lines.{ends_in_blank, has_blanks, has_comment, has_empty_word, has_flaw, has_lower_case};
ghost use Rattle.plm80_files.specs.Lines.{has_odd_number, has_other_bytes, is_flawed, is_odd_number, line_at, part_at, without_return};

use plm80_console::{Console, are_digits};
use thiserror::Error;

/// The byte 1A, Ctrl-Z: the end of a text in CP/M, which fills the last part of a file with it.
pub(crate) const CONTROL_Z: u8 = 0x1A;

/// What is often wrong with a line of the program's texts.
#[derive(Clone, Copy, Debug, Error)]
pub enum LineFlaw {
    #[error("the line has bytes that aren't ASCII: write the text without UTF-16 and without a byte order mark")]
    NotAscii,
    #[error("the line ends in CR LF: write LF alone")]
    CarriageReturn,
    #[error("the line has a Ctrl-Z (1A)")]
    ControlZ,
    #[error("the line has no line feed at its end")]
    NoLineFeed,
    #[error("the line ends in a blank")]
    Blank,
    #[error("the line has a tab: write one blank")]
    Tab,
    #[error("the line has two blanks in a row, or begins with one: write one between words")]
    Blanks,
    #[error("the line is empty: leave it out")]
    Empty,
    #[error("the line has a ; but these texts have no comments")]
    Comment,
    #[error("a number of the line has an odd number of digits")]
    OddDigits,
    #[error("the line has lower case: digits and words are of upper case, and numbers have no h")]
    LowerCase,
}

/// The flaws that any line may have, in the order in which they are said.
pub const FLAWS: &[LineFlaw] = &[
    LineFlaw::NotAscii,
    LineFlaw::CarriageReturn,
    LineFlaw::ControlZ,
    LineFlaw::NoLineFeed,
    LineFlaw::Blank,
    LineFlaw::Tab,
    LineFlaw::Blanks,
    LineFlaw::Empty,
    LineFlaw::Comment,
    LineFlaw::OddDigits,
];

/// The flaws of the first line of a text of regions or of a board, whose digit stands alone.
pub const VERSION_FLAWS: &[LineFlaw] = &[
    LineFlaw::NotAscii,
    LineFlaw::CarriageReturn,
    LineFlaw::ControlZ,
    LineFlaw::NoLineFeed,
    LineFlaw::Blank,
    LineFlaw::Comment,
];

/// A line without its line feed, and whether it has one.
#[derive(Clone, Copy)]
pub(crate) struct Line<'a> {
    pub(crate) bytes: &'a [u8],
    pub(crate) is_ended: bool,
}

/// Says which of these flaws the line of this number has, each in a line of its own. The result is whether it has one; `false` if the text
/// has no such line.
pub fn explain_flaws<C: Console>(
    console: &C,
    text: &[u8],
    number: usize,
    flaws: &[LineFlaw],
) -> bool
    ensures { result ≡ is_flawed text.now number flaws.now }
{
    match line_of(text, number) {
        Some(line) => line.explain(console, flaws),
        None => false,
    }
}

impl<'a> Line<'a> {
    /// Says which of these flaws this line has, each in a line of its own. The result is whether it has one.
    fn explain<C: Console>(self, console: &C, flaws: &[LineFlaw]) -> bool
        ensures { let line = self.entry in result ≡ list_any (λ flaw. has_flaw flaw line.bytes.now line.is_ended) flaws.now }
    {
        for flaw in flaws {
            if self.has(*flaw) {
                console.explain(*flaw);
            }
        }
        flaws.iter().any(|flaw| self.has(*flaw))
    }

    /// Whether this line has the flaw.
    fn has(self, flaw: LineFlaw) -> bool
        ensures { result ≡ has_flaw flaw self.entry.bytes.now self.entry.is_ended }
    {
        match flaw {
            LineFlaw::NotAscii => has_other_bytes(self.bytes),
            LineFlaw::CarriageReturn => self.bytes.ends_with(b"\r"),
            LineFlaw::ControlZ => self.bytes.contains(&CONTROL_Z),
            LineFlaw::NoLineFeed => !self.is_ended,
            LineFlaw::Blank => ends_in_blank(self.bytes),
            LineFlaw::Tab => self.bytes.contains(&b'\t'),
            LineFlaw::Blanks => !self.has_comment() && has_blanks(self.bytes),
            LineFlaw::Empty => self.bytes.is_empty(),
            LineFlaw::Comment => self.has_comment(),
            LineFlaw::OddDigits => {
                !self.has_comment() && has_odd_number(without_return(self.bytes))
            }
            LineFlaw::LowerCase => !self.has_comment() && has_lower_case(self.bytes),
        }
    }

    /// Whether this line has a semicolon.
    fn has_comment(self) -> bool
        ensures { result ≡ has_comment self.entry.bytes.now }
    {
        self.bytes.contains(&b';')
    }
}

/// The line of this number, counted from 1; `None` if the text has no such line. What follows the last line feed is a line if it has
/// bytes.
pub(crate) fn line_of(text: &[u8], number: usize) -> Option<Line<'_>>
    ensures { option_map (λ line. (line.bytes.now, line.is_ended)) result ≡ line_at text.now number }
{
    let bytes = part_of(text, number.checked_sub(1)?)?;
    let is_ended = part_of(text, number).is_some();
    if bytes.is_empty() && !is_ended {
        return None;
    }
    Some(Line { bytes, is_ended })
}

/// The bytes of the line of this number, counted from 1, without its line feed; none if the text has no such line.
pub fn line_bytes(text: &[u8], number: usize) -> &[u8]
    ensures { result.now ≡ unwrap_or (option_map (λ line. line.0) (line_at text.now number)) [] }
{
    match line_of(text, number) {
        Some(line) => line.bytes,
        None => &[],
    }
}

/// The part of the text with this index, of those between its line feeds; `None` if there is none.
fn part_of(text: &[u8], index: usize) -> Option<&[u8]>
    ensures { option_copied result ≡ part_at text.now index }
{
    text.split(|byte| *byte == b'\n').nth(index)
}

/// The line without a carriage return at its end.
fn without_return(line: &[u8]) -> &[u8]
    ensures { result.now ≡ without_return line.now }
{
    if line.ends_with(b"\r") {
        &line[..line.len() - 1]
    } else {
        line
    }
}

/// Whether the line, without a carriage return at its end, ends in a blank or a tab.
fn ends_in_blank(line: &[u8]) -> bool
    ensures { result ≡ ends_in_blank line.now }
{
    let line = without_return(line);
    line.ends_with(b" ") || line.ends_with(b"\t")
}

/// Whether the line begins with a blank, or has two in a row, and ends in none.
fn has_blanks(line: &[u8]) -> bool
    ensures { result ≡ has_blanks line.now }
{
    !line.is_empty() && !ends_in_blank(line) && has_empty_word(line)
}

/// Whether nothing stands between two blanks of the line, or between one and an end of it.
fn has_empty_word(line: &[u8]) -> bool
    ensures { result ≡ has_empty_word line.now }
{
    line.split(|byte| *byte == b' ').any(|word| word.is_empty())
}

/// Whether the line has a byte that is none of ASCII's, or a 00.
fn has_other_bytes(line: &[u8]) -> bool
    ensures { result ≡ has_other_bytes line.now }
{
    line.iter().any(|byte| *byte == 0 || *byte > 0x7E)
}

/// Whether the line has a letter of lower case.
fn has_lower_case(line: &[u8]) -> bool
    ensures { result ≡ has_lower_case line.now }
{
    line.iter().any(|byte| byte.is_ascii_lowercase())
}

/// Whether a word of the line is of hexadecimal digits, an odd number of them.
fn has_odd_number(line: &[u8]) -> bool
    ensures { result ≡ has_odd_number line.now }
{
    line.split(|byte| *byte == b' ')
        .any(|word| is_odd_number(word))
}

/// Whether a word is of hexadecimal digits, an odd number of them.
fn is_odd_number(word: &[u8]) -> bool
    ensures { result ≡ is_odd_number word.now }
{
    word.len() % 2 == 1 && are_digits(word)
}
