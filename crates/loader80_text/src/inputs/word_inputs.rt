//! The bytes that words name, and the text that spells them.

ghost use Rattle.std.specs.Prelude.{◌≡◌, ◌≢◌, ◌<◌, ◌≤◌, ◌^◌, ◌++◌, [], None, IfOk, IfSome, OnOk, OnErr, length, nat_le, string_bytes};
ghost use Rattle.loader80_text.specs.Laws.{SpellsInputs};
ghost use Rattle.loader80_text.specs.Text.{line_of, text_of};
ghost use Rattle.stream80.specs.WholeText.{text_limit};
ghost use Rattle.loader80_text.specs.Words.{word_of};

use crate::inputs::fault::{LengthFault, WordFault};
use crate::inputs::repeated::Repeated;
use crate::inputs::word::read_word;
use std::alloc::{AllocError, Global};
use std::marker::Model;
use stream80::TEXT_LIMIT;

/// The input bytes that words name, in the order of the words.
#[derive(Drop)]
pub struct WordInputs {
    /// The items of all words, in order.
    inputs: Vec<Repeated>,
}

impl Model for WordInputs {
    ghost use Rattle.std.specs.Prelude.{List, All};
    ghost use Rattle.loader80_text.specs.declared.inputs.repeated.Repeated.{Repeated};
    ghost use Rattle.loader80_text.specs.Text.{IsRepeated};

    ghost Value = { List Repeated };

    ghost view = { λ w. w.inputs.items };

    ghost invariant = { λ w. All IsRepeated w.inputs.items };
}

impl WordInputs {
    /// Inputs without any byte.
    pub fn new(alloc: Global) -> WordInputs
        ensures { result ≡ [] }
    {
        WordInputs {
            inputs: Vec::new(alloc),
        }
    }

    /// Appends the bytes that a word `pp=item,item..` names: a port in two hexadecimal digits, and the bytes that
    /// wait there. An item is a byte in two hexadecimal digits, or how many times it waits, in decimal, a star and
    /// the byte: `02=3*2A,00`. A count is at least 1 and fits in 64 bits.
    ///
    /// # Errors
    /// `BadInput` if the word has another form; `Memory` if memory runs out. The inputs are then unchanged.
    pub fn add(&mut self, alloc: Global, word: &[u8]) -> Result<(), WordFault>
        ensures added { IfSome (word_of word.now) (λ inputs. OnOk result (self.new ≡ self.old ++ inputs)) }
        ensures bad { result ≡ Err WordFault.BadInput → word_of word.now ≡ None }
        ensures good { OnOk result (word_of word.now ≢ None) }
        ensures unchanged { OnErr result (self.new ≡ self.old) }
    {
        let Some(mut inputs) = read_word(alloc, word)? else {
            return Err(WordFault::BadInput);
        };
        self.inputs.append(&mut inputs)?;
        Ok(())
    }

    /// The text of the inputs, a line `pp hh..` for each item, as [`read_inputs`](loader80::read_inputs) reads it.
    ///
    /// # Errors
    /// `TooLong` exactly if the text would have more than `loader80::TEXT_LIMIT` bytes, before memory is taken;
    /// `Memory` if memory runs out.
    pub fn text(&self, alloc: Global) -> Result<String, LengthFault>
        ensures text { IfOk result (λ text. string_bytes text ≡ text_of self.now) }
        ensures spells { IfOk result (λ text. SpellsInputs self.now (string_bytes text)) }
        ensures within { OnOk result (length (text_of self.now) ≤ text_limit) }
        ensures too_long { result ≡ Err LengthFault.TooLong → text_limit < length (text_of self.now) }
    {
        if !fits(&self.inputs) {
            return Err(LengthFault::TooLong);
        }
        Ok(lines_of(alloc, &self.inputs)?)
    }
}

/// Whether the text of the inputs has at most `loader80::TEXT_LIMIT` bytes.
fn fits(inputs: &[Repeated]) -> bool
    ensures { result ≡ nat_le (length (text_of inputs.now)) text_limit }
{
    let mut left = TEXT_LIMIT as u64;
    for input in inputs {
        if left < 4 || (left - 4) / 2 < input.count {
            return false;
        }
        left -= 4 + 2 * input.count;
    }
    true
}

/// The lines of the inputs. Their text must have at most `loader80::TEXT_LIMIT` bytes.
fn lines_of(alloc: Global, inputs: &[Repeated]) -> Result<String, AllocError>
    requires { length (text_of inputs.now) ≤ text_limit }
    ensures { IfOk result (λ text. string_bytes text ≡ text_of inputs.now) }
{
    let mut text = String::new(alloc);
    for input in inputs {
        append_line(alloc, &mut text, *input)?;
    }
    Ok(text)
}

/// Appends the line of an item: its port, a space, and its byte as often as its count says, which must be below 2^32.
fn append_line(alloc: Global, text: &mut String, input: Repeated) -> Result<(), AllocError>
    requires { input.count < 2 ^ 32 }
    ensures { OnOk result (string_bytes text.new ≡ string_bytes text.old ++ line_of input) }
{
    let bytes = vec![in alloc; input.byte; input.count as usize]?;
    text.push_str(&hex::encode_upper(alloc, [input.port])?)?;
    text.push(' ')?;
    text.push_str(&hex::encode_upper(alloc, bytes)?)?;
    text.push('\n')
}
