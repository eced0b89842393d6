//! The reader of lists of answers.

ghost use Rattle.std.specs.Prelude.{◌≡◌, ◌≢◌, ◌<◌, ◌↔◌, ◌^◌, ℕ, List, [], ◌∷◌, ◌++◌, length, All, IsTrue, IfOk, IfSome, IfNone};
ghost use Rattle.std.specs.Fmt.{decimal};
ghost use Rattle.text80.specs.Digits.{byte_text};
ghost use Rattle.board80.specs.Board.{AreBytes, AreItemBytes, IsGroup, IsItem, IsList};
ghost use Rattle.board80.specs.BoardText.{bytes_text, for_ever_text, group_text, item_text, items_text, list_text, spaced_text, times_text};
ghost use Rattle.board80.specs.ByteList.{ListedBytes};
ghost use Rattle.board80.specs.Group.{GroupBytes};
ghost use Rattle.board80.specs.Reading.{IsAtEnd};
ghost use Rattle.board80.specs.declared.byte_list.Bytes.{Bytes};
ghost use Rattle.board80.specs.declared.byte_list.Item.{Item};

use crate::byte_list::{ByteList, Bytes, Group, Item};
use crate::digits::{first_word, read_byte};
use std::alloc::{AllocError, Global};

/// Reads a list, all of the text; `None` if it has another form.
pub(crate) fn read_list(alloc: Global, text: &[u8]) -> Result<Option<ByteList>, AllocError>
    ensures spelled { IfOk result (λ read. IfSome read (λ list. text.now ≡ list_text list)) }
    ensures proper { IfOk result (λ read. IfSome read IsList) }
    ensures none { IfOk result (λ read. IfNone read ((list : ListedBytes) → IsList list → text.now ≢ list_text list)) }
{
    // A list begins with the space before its first item.
    if text.is_empty() {
        return Ok(None);
    }
    if text[0] != b' ' {
        return Ok(None);
    }
    let (items, rest) = read_items(alloc, text)?;
    if rest.is_empty() {
        return Ok(Some(ByteList {
            items,
            for_ever: None,
        }));
    }
    match read_for_ever(alloc, rest)? {
        Some(bytes) => Ok(Some(ByteList {
            items,
            for_ever: Some(bytes),
        })),
        None => Ok(None),
    }
}

/// Reads as many items as the text, which must be empty or begin with a space, begins with, and returns them and the text
/// after them, which is such a text too.
fn read_items(alloc: Global, text: &[u8]) -> Result<(Vec<Item>, &[u8]), AllocError>
    requires { IsAtEnd text.now }
    ensures found { IfOk result (λ (items, rest). text.now ≡ items_text items.items ++ rest.now) }
    ensures proper { IfOk result (λ (items, _). All IsItem items.items) }
    ensures at_end { IfOk result (λ (_, rest). IsAtEnd rest.now) }
    ensures ended { IfOk result (λ (_, rest). (item : Item) (more : List ℕ) → IsItem item → IsAtEnd more →
        rest.now ≢ 32 ∷ (item_text item ++ more)) }
{
    let mut items = Vec::new(alloc);
    let mut rest = text;
    while let Some((item, after)) = read_item(alloc, rest)? {
        items.push(item)?;
        rest = after;
    }
    Ok((items, rest))
}

/// Reads a space and an item at the beginning of the text, up to the next space or the end, and returns the item and
/// the text after it; `None` if the text begins with anything else.
fn read_item(alloc: Global, text: &[u8]) -> Result<Option<(Item, &[u8])>, AllocError>
    ensures found { IfOk result (λ read. IfSome read (λ (item, rest). text.now ≡ 32 ∷ (item_text item ++ rest.now))) }
    ensures proper { IfOk result (λ read. IfSome read (λ (item, _). IsItem item)) }
    ensures at_end { IfOk result (λ read. IfSome read (λ (_, rest). IsAtEnd rest.now)) }
    ensures shorter { IfOk result (λ read. IfSome read (λ (_, rest). length rest.now < length text.now)) }
    ensures none { IfOk result (λ read. IfNone read ((item : Item) (more : List ℕ) → IsItem item → IsAtEnd more →
        text.now ≢ 32 ∷ (item_text item ++ more))) }
{
    let Some(inner) = text.strip_prefix(b" ") else {
        return Ok(None);
    };
    let Some((bytes, after)) = read_bytes(alloc, inner)? else {
        return Ok(None);
    };
    let (word, rest) = first_word(after);
    let Some(times) = read_times(alloc, word)? else {
        return Ok(None);
    };
    Ok(Some((Item { bytes, times }, rest)))
}

/// Reads the bytes that come for ever, all of the text: a space, the bytes and a star. `None` if it has another form.
fn read_for_ever(alloc: Global, text: &[u8]) -> Result<Option<Bytes>, AllocError>
    ensures spelled { IfOk result (λ read. IfSome read (λ bytes. text.now ≡ 32 ∷ (bytes_text bytes ++ 42 ∷ []))) }
    ensures proper { IfOk result (λ read. IfSome read AreItemBytes) }
    ensures none { IfOk result (λ read. IfNone read ((bytes : Bytes) → AreItemBytes bytes → text.now ≢ 32 ∷ (bytes_text bytes ++ 42 ∷ []))) }
{
    let Some(inner) = text.strip_prefix(b" ") else {
        return Ok(None);
    };
    let Some((bytes, after)) = read_bytes(alloc, inner)? else {
        return Ok(None);
    };
    if !is_star(after) {
        return Ok(None);
    }
    Ok(Some(bytes))
}

/// Whether the text is a star.
fn is_star(text: &[u8]) -> bool
    ensures { IsTrue result ↔ text.now ≡ 42 ∷ [] }
{
    text == b"*".as_slice()
}

/// Reads a byte, or a group in brackets, at the beginning of the text, and returns it and the text after it; `None` if
/// the text begins with anything else.
fn read_bytes(alloc: Global, text: &[u8]) -> Result<Option<(Bytes, &[u8])>, AllocError>
    ensures found { IfOk result (λ read. IfSome read (λ (bytes, rest). text.now ≡ bytes_text bytes ++ rest.now)) }
    ensures proper { IfOk result (λ read. IfSome read (λ (bytes, _). AreItemBytes bytes)) }
    ensures none { IfOk result (λ read. IfNone read ((bytes : Bytes) (more : List ℕ) → AreItemBytes bytes →
        text.now ≢ bytes_text bytes ++ more)) }
{
    let Some(inner) = text.strip_prefix(b"(") else {
        return match read_byte(text) {
            Some((byte, rest)) => Ok(Some((Bytes::One(byte), rest))),
            None => Ok(None),
        };
    };
    match read_group(alloc, inner)? {
        Some((group, rest)) => Ok(Some((Bytes::Group(group), rest))),
        None => Ok(None),
    }
}

/// Reads the bytes of a group and its closing bracket at the beginning of the text, and returns the group and the text
/// after it; `None` if the text begins with anything else.
fn read_group(alloc: Global, text: &[u8]) -> Result<Option<(Group, &[u8])>, AllocError>
    ensures found { IfOk result (λ read. IfSome read (λ (group, rest). text.now ≡ group_text group ++ rest.now)) }
    ensures proper { IfOk result (λ read. IfSome read (λ (group, _). IsGroup group)) }
    ensures none { IfOk result (λ read. IfNone read ((group : GroupBytes) (more : List ℕ) → IsGroup group →
        text.now ≢ group_text group ++ more)) }
{
    let Some((first, after)) = read_byte(text) else {
        return Ok(None);
    };
    let (others, after) = read_others(alloc, after)?;
    let Some(rest) = after.strip_prefix(b")") else {
        return Ok(None);
    };
    Ok(Some((Group { first, others }, rest)))
}

/// Reads as many bytes as the text begins with, each after a space, and returns them and the text after them.
fn read_others(alloc: Global, text: &[u8]) -> Result<(Vec<u8>, &[u8]), AllocError>
    ensures found { IfOk result (λ (others, rest). text.now ≡ spaced_text others.items ++ rest.now) }
    ensures bytes { IfOk result (λ (others, _). AreBytes others.items) }
    ensures ended { IfOk result (λ (_, rest). (byte : ℕ) (more : List ℕ) → byte < 256 →
        rest.now ≢ 32 ∷ (byte_text byte ++ more)) }
{
    let mut others = Vec::new(alloc);
    let mut rest = text;
    while let Some((byte, after)) = read_other(rest) {
        others.push(byte)?;
        rest = after;
    }
    Ok((others, rest))
}

/// Reads a space and a byte at the beginning of the text, and returns the byte and the text after it; `None` if the text
/// begins with anything else.
fn read_other(text: &[u8]) -> Option<(u8, &[u8])>
    ensures found { IfSome result (λ (byte, rest). text.now ≡ 32 ∷ (byte_text byte ++ rest.now)) }
    ensures shorter { IfSome result (λ (_, rest). length rest.now < length text.now) }
    ensures none { IfNone result ((byte : ℕ) (more : List ℕ) → byte < 256 → text.now ≢ 32 ∷ (byte_text byte ++ more)) }
{
    read_byte(text.strip_prefix(b" ")?)
}

/// Reads how many times an item comes, all of the text: nothing for once, or a star and a count from 2 on. `None` if it
/// has another form.
fn read_times(alloc: Global, text: &[u8]) -> Result<Option<u64>, AllocError>
    ensures spelled { IfOk result (λ read. IfSome read (λ times. text.now ≡ times_text times)) }
    ensures some { IfOk result (λ read. IfSome read (λ times. 0 < times)) }
    ensures none { IfOk result (λ read. IfNone read ((times : ℕ) → 0 < times → times < 2 ^ 64 → text.now ≢ times_text times)) }
{
    if text.is_empty() {
        return Ok(Some(1));
    }
    let Some(digits) = text.strip_prefix(b"*") else {
        return Ok(None);
    };
    let Some(count) = read_count(alloc, digits)? else {
        return Ok(None);
    };
    if count < 2 {
        return Ok(None);
    }
    Ok(Some(count))
}

/// Reads a count in decimal without leading zeros, all of the text; `None` if it has another form or 64 bits don't hold
/// it.
fn read_count(alloc: Global, digits: &[u8]) -> Result<Option<u64>, AllocError>
    ensures spelled { IfOk result (λ read. IfSome read (λ count. digits.now ≡ decimal count)) }
    ensures none { IfOk result (λ read. IfNone read ((count : ℕ) → count < 2 ^ 64 → digits.now ≢ decimal count)) }
{
    match str::from_utf8(digits) {
        Ok(text) => count_of_text(alloc, text),
        Err(_) => Ok(None),
    }
}

/// The count that a text writes in decimal without leading zeros; `None` if it has another form or 64 bits don't hold it.
fn count_of_text(alloc: Global, text: &str) -> Result<Option<u64>, AllocError>
    ensures spelled { IfOk result (λ read. IfSome read (λ count. text.now ≡ decimal count)) }
    ensures none { IfOk result (λ read. IfNone read ((count : ℕ) → count < 2 ^ 64 → text.now ≢ decimal count)) }
{
    match u64::from_str_radix(text, 10) {
        Ok(count) => count_if_written(alloc, text, count),
        Err(_) => Ok(None),
    }
}

/// The count if the text is what is written for it: a sign or a leading zero is no form of a count.
fn count_if_written(alloc: Global, text: &str, count: u64) -> Result<Option<u64>, AllocError>
    ensures spelled { IfOk result (λ read. IfSome read (λ found. (found ≡ count) × (text.now ≡ decimal count))) }
    ensures none { IfOk result (λ read. IfNone read (text.now ≢ decimal count)) }
{
    let written = format!(in alloc; "{count}")?;
    if text == written.as_str() {
        Ok(Some(count))
    } else {
        Ok(None)
    }
}
