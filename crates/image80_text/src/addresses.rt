//! The address that stands in a line.

ghost use Rattle.std.specs.Prelude.{◌≡◌, position};
ghost use Rattle.image80_text.specs.NameText.{address_at, address_behind, behind_blank, instruction_address, is_blank};

use text80::word_of_digits;

/// The address of an instruction's line: the four upper-case hexadecimal digits that it begins with or, if lines are
/// numbered, those behind its first blank. `None` if no such digits are there.
pub(crate) fn instruction_address(line: &[u8], numbered: bool) -> Option<u16>
    ensures { result ≡ instruction_address numbered line.now }
{
    if numbered {
        address_at(behind_blank(line))
    } else {
        address_at(line)
    }
}

/// The address, four upper-case hexadecimal digits, that follows `word` at the beginning of a line. `None` if the
/// line begins otherwise or no such digits follow.
pub(crate) fn address_behind(line: &[u8], word: &[u8]) -> Option<u16>
    ensures { result ≡ address_behind word.now line.now }
{
    match line.strip_prefix(word) {
        Some(rest) => address_at(rest),
        None => None,
    }
}

/// The part of a line after its first blank, empty if it has none.
fn behind_blank(line: &[u8]) -> &[u8]
    ensures { result.now ≡ behind_blank line.now }
{
    match first_blank(line) {
        Some(at) => &line[at + 1..],
        None => &[],
    }
}

/// The place of the first blank in a line, `None` if it has none.
fn first_blank(line: &[u8]) -> Option<usize>
    ensures { result ≡ position is_blank line.now }
{
    line.iter().position(|byte| *byte == b' ')
}

/// The address whose four upper-case hexadecimal digits a text begins with, `None` if it begins otherwise.
fn address_at(text: &[u8]) -> Option<u16>
    ensures { result ≡ address_at text.now }
{
    let [first, second, third, fourth, ..] = text else {
        return None;
    };
    word_of_digits([*first, *second, *third, *fourth])
}
