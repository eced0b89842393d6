//! How frames meet at a point.

ghost use Rattle.std.specs.Prelude.{◌≡◌, ◌↔◌, true, false, IfOk, OnOk, OnErr, IsOk, vec_len};
ghost use Rattle.frames80.specs.Word.{met};
ghost use Rattle.frames80.specs.Calls.{agree, merged, words_met};

use crate::fault::HeightsDiffer;
use crate::frame::Frame;
use crate::word::Word;

/// Changes `frame` to what is known of a frame that is either of the two: a word or a pair is the
/// return address only if it is in both. Answers whether `frame` changed. The call takes no memory.
///
/// # Errors
/// `HeightsDiffer` exactly where the frames differ in the words taken or in the number of words; the frame is then
/// unchanged.
pub fn meet(frame: &mut Frame, other: &Frame) -> Result<bool, HeightsDiffer>
    ensures agree { IsOk result ↔ (agree frame.old other.now ≡ true) }
    ensures merged { OnOk result (frame.new ≡ merged frame.old other.now) }
    ensures changed { IfOk result (λ changed. (changed ≡ false) ↔ (frame.new ≡ frame.old)) }
    ensures unchanged { OnErr result (frame.new ≡ frame.old) }
{
    if frame.taken != other.taken || frame.words.len() != other.words.len() {
        return Err(HeightsDiffer);
    }
    let words = meet_words(&mut frame.words, &other.words);
    let bc = meet_word(&mut frame.bc, other.bc);
    let de = meet_word(&mut frame.de, other.de);
    let hl = meet_word(&mut frame.hl, other.hl);
    Ok(words | bc | de | hl)
}

/// Sets each word to what is known of it and of the word of `others` at the same index; answers
/// whether any of them changed. `words` and `others` must have equally many words.
fn meet_words(words: &mut Vec<Word>, others: &Vec<Word>) -> bool
    requires { vec_len words.old ≡ vec_len others.now }
    ensures met { words.new.items ≡ words_met words.old.items others.now.items }
    ensures changed { (result ≡ false) ↔ (words.new.items ≡ words.old.items) }
{
    let mut changed = false;
    for i in 0..words.len() {
        changed |= meet_word(&mut words[i], others[i]);
    }
    changed
}

/// Sets `word` to the return address only if both words are; answers whether it changed.
fn meet_word(word: &mut Word, other: Word) -> bool
    ensures met { word.new ≡ met word.old other }
    ensures changed { (result ≡ false) ↔ (word.new ≡ word.old) }
{
    let old = *word;
    *word = old.meet(other);
    *word != old
}
