//! A word: a port, an equals sign, and items separated by commas.

ghost use Rattle.std.specs.Prelude.{◌≡◌, ◌<◌, ◌==◌, [], ◌∷◌, All, IfOk, IfNone, IfSome, length, position};
ghost use Rattle.std.specs.List.{slice_split};
ghost use Rattle.std.specs.Option.{option_map};
ghost use Rattle.loader80_text.specs.Text.{IsRepeated};
ghost use Rattle.loader80_text.specs.Words.{items_of, word_of};

use crate::inputs::item::read_item;
use crate::inputs::repeated::Repeated;
use loader80::digits::bytes_of_digits;
use std::alloc::{AllocError, Global};

/// Reads a word `pp=item,item..`: a byte, with its port and count, for each item. `None` if the word has another form.
pub(crate) fn read_word(alloc: Global, word: &[u8]) -> Result<Option<Vec<Repeated>>, AllocError>
    ensures read { IfOk result (λ read. option_map (λ inputs. inputs.items) read ≡ word_of word.now) }
    ensures repeated { IfOk result (λ read. IfSome read (λ inputs. All IsRepeated inputs.items)) }
{
    if word.len() < 3 || word[2] != b'=' {
        return Ok(None);
    }
    let Some(port) = bytes_of_digits(alloc, &word[..2])? else {
        return Ok(None);
    };
    if port.len() != 1 {
        return Ok(None);
    }
    read_items(alloc, port[0], &word[3..])
}

/// Reads the items of a port, separated by commas; `None` if one has another form.
fn read_items(alloc: Global, port: u8, items: &[u8]) -> Result<Option<Vec<Repeated>>, AllocError>
    ensures read { IfOk result (λ read. option_map (λ inputs. inputs.items) read ≡ items_of port items.now) }
    ensures repeated { IfOk result (λ read. IfSome read (λ inputs. All IsRepeated inputs.items)) }
{
    let mut inputs = Vec::new(alloc);
    let mut rest = items;
    while let Some((item, others)) = first_item(rest) {
        let Some(input) = read_item(alloc, port, item)? else {
            return Ok(None);
        };
        inputs.push(input)?;
        rest = others;
    }
    let Some(last) = read_item(alloc, port, rest)? else {
        return Ok(None);
    };
    inputs.push(last)?;
    Ok(Some(inputs))
}

/// The text before the first comma, and the text after it; `None` if there is no comma.
fn first_item(items: &[u8]) -> Option<(&[u8], &[u8])>
    ensures found { IfSome result (λ (item, rest).
        slice_split (λ character. character == 44) items.now ≡ item.now ∷ slice_split (λ character. character == 44) rest.now) }
    ensures shorter { IfSome result (λ (item, rest). length rest.now < length items.now) }
    ensures absent { IfNone result (slice_split (λ character. character == 44) items.now ≡ items.now ∷ []) }
{
    match comma(items) {
        Some(end) => Some((&items[..end], &items[end + 1..])),
        None => None,
    }
}

/// The place of the first comma, `None` if there is none.
fn comma(items: &[u8]) -> Option<usize>
    ensures { result ≡ position (λ character. character == 44) items.now }
{
    items.iter().position(|character| *character == b',')
}
