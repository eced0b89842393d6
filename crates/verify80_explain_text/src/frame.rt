//! What is known of the stack, in a line.

ghost use Rattle.std.specs.Prelude.{◌≡◌, ◌++◌, OnOk};
ghost use Rattle.std.specs.List.{flat_map};
ghost use Rattle.verify80_explain_text.specs.Frames.{frame_text, pair_shown, pairs_shown, taken_shown, word_shown};

use frames80::{Frame, Word};
use std::alloc::{AllocError, Global};

/// Appends the words of a frame from bottom to top, the pairs that hold the return address, and how many words have been taken from
/// beneath it.
pub(crate) fn append_frame(
    alloc: Global,
    text: &mut Vec<u8>,
    frame: &Frame,
) -> Result<(), AllocError>
    ensures { OnOk result (text.new.items ≡ text.old.items ++ frame_text frame.now) }
{
    append_words(text, &frame.words)?;
    append_pairs(text, frame)?;
    append_taken(alloc, text, frame.taken)
}

/// Appends each word of a frame, in the order given: `RET` or `..`.
fn append_words(text: &mut Vec<u8>, words: &[Word]) -> Result<(), AllocError>
    ensures { OnOk result (text.new.items ≡ text.old.items ++ flat_map word_shown words.now) }
{
    for word in words {
        text.extend_from_slice(word_text(*word))?;
    }
    Ok(())
}

/// How a word of the stack is shown: `RET` for the return address, `..` for any word.
fn word_text(word: Word) -> &'static [u8]
    ensures { result.now ≡ word_shown word }
{
    match word {
        Word::Own => b" RET".as_slice(),
        Word::Any => b" ..".as_slice(),
    }
}

/// Appends the pairs that hold the procedure's return address.
fn append_pairs(text: &mut Vec<u8>, frame: &Frame) -> Result<(), AllocError>
    ensures { OnOk result (text.new.items ≡ text.old.items ++ pairs_shown frame.now.pairs) }
{
    append_pair(text, b" BC=RET".as_slice(), frame.bc)?;
    append_pair(text, b" DE=RET".as_slice(), frame.de)?;
    append_pair(text, b" HL=RET".as_slice(), frame.hl)
}

/// Appends the name of a pair if it holds the procedure's return address, and otherwise nothing.
fn append_pair(text: &mut Vec<u8>, name: &[u8], word: Word) -> Result<(), AllocError>
    ensures { OnOk result (text.new.items ≡ text.old.items ++ pair_shown name.now word) }
{
    match word {
        Word::Own => text.extend_from_slice(name),
        Word::Any => Ok(()),
    }
}

/// Appends how many words have been taken, as `TAKEN 1`; nothing if none have.
fn append_taken(alloc: Global, text: &mut Vec<u8>, taken: u32) -> Result<(), AllocError>
    ensures { OnOk result (text.new.items ≡ text.old.items ++ taken_shown taken) }
{
    if taken > 0 {
        let shown = format!(in alloc; " TAKEN {taken}")?;
        text.extend_from_slice(shown.as_bytes())?;
    }
    Ok(())
}
