//! The tables of addresses by which a program jumps.

ghost use Rattle.std.specs.Prelude.{◌≡◌, ◌+◌, ◌≤◌, length, IfOk};
ghost use Rattle.image80.specs.Image.{memory_of};
ghost use Rattle.verify80.specs.Looking.{declared_targets};
ghost use Rattle.verify80.specs.LookLaws.{fetch_at};
ghost use Rattle.verify80_cases.specs.Marks.{AreMarks};
ghost use Rattle.verify80_cases.specs.Suggested.{is_free, loaded_word, word_in};
ghost use Rattle.verify80_suggest.specs.Names.{Marks};
ghost use Rattle.verify80_suggest.specs.Tables.{AreGoals, AreLoaded, AreTables, AreWordsBelow, in_keyed, in_table, in_word, is_code, is_word, loads_at, may_be_word};

use crate::bytes::is_in;
use crate::keyed::find_keyed;
use crate::names::mark_given;
use decode80::{Instr, Program, fetch};
use frames80::{Code, table};
use image80::Range;
use std::alloc::{AllocError, Global};
use verify80::ImageCode;
use verify80_cases::KeyOrder;

/// For each address whether it is in a table of addresses: of words, or of words with a key before or
/// after each. All its bytes are in CODE and in no reached instruction, and its words are targets that
/// are declared for a PCHL. A table begins at an address that a reached LXI loads, and goes on behind
/// each of its entries. `reached` and `covered` must have an entry for each address.
///
/// # Errors
/// `AllocError` only if memory runs out.
pub(crate) fn find_tables(
    alloc: Global,
    code: &ImageCode<'_>,
    reached: &[bool],
    covered: &[bool],
) -> Result<Vec<bool>, AllocError>
    requires reached { length reached.now ≡ 65536 }
    requires covered { length covered.now ≡ 65536 }
    ensures { IfOk result (λ tables. AreTables code.now reached.now covered.now tables.items) }
{
    let loaded = find_loaded(alloc, code, reached)?;
    let goals = find_goals(alloc, code)?;
    let words = find_words(alloc, code, covered, &loaded, &goals)?;
    let firsts = find_keyed(alloc, code, KeyOrder::KeyFirst, covered, &loaded, &goals)?;
    let lasts = find_keyed(alloc, code, KeyOrder::KeyLast, covered, &loaded, &goals)?;
    let tables = find_bytes_of(alloc, &words, &firsts, &lasts)?;
    Ok(tables)
}

/// For each address whether an LXI at a marked address of `reached` loads it. `reached` must have an
/// entry for each address. `AllocError` if memory runs out.
fn find_loaded(
    alloc: Global,
    code: &ImageCode<'_>,
    reached: &[bool],
) -> Result<Vec<bool>, AllocError>
    requires { length reached.now ≡ 65536 }
    ensures { IfOk result (λ loaded. AreLoaded code.now reached.now loaded.items) }
{
    let mut loaded = table(alloc, false, 65_536)?;
    for address in 0..65_536_u32 {
        mark_loaded(&mut loaded, code, reached, address as u16);
    }
    Ok(loaded)
}

/// Marks the address that the LXI at `at` loads, if there is one and `at` is marked in `reached`.
/// `loaded` and `reached` must have an entry for each address.
#[tactic(auto, unfolding(crate::specs::Tables::loads_at))]
fn mark_loaded(loaded: &mut Vec<bool>, code: &ImageCode<'_>, reached: &[bool], at: u16)
    requires loaded { length loaded.old.items ≡ 65536 }
    requires reached { length reached.now ≡ 65536 }
    ensures { Marks loaded.old.items (loads_at code.now reached.now at) loaded.new.items }
{
    if reached[usize::from(at)] {
        mark_given(loaded, loaded_word(code, at));
    }
}

/// The word that the LXI at an address loads; `None` if there is no LXI.
fn loaded_word(code: &ImageCode<'_>, at: u16) -> Option<u16>
    ensures { result ≡ loaded_word (fetch_at code.now.regions (memory_of code.now.chunks) at) }
{
    match fetch(at, code) {
        Ok(found) => match found.instr {
            Instr::Lxi(_, word) => Some(word),
            _ => None,
        },
        Err(_) => None,
    }
}

/// For each address whether it is a declared target. `AllocError` if memory runs out.
fn find_goals(alloc: Global, code: &ImageCode<'_>) -> Result<Vec<bool>, AllocError>
    ensures { IfOk result (λ goals. AreGoals code.now goals.items) }
{
    let mut goals = table(alloc, false, 65_536)?;
    for address in 0..65_536_u32 {
        mark_all(&mut goals, code.targets(address as u16));
    }
    Ok(goals)
}

/// Marks these addresses. `marks` must have an entry for each address.
fn mark_all(marks: &mut Vec<bool>, addresses: &[u16])
    requires { length marks.old.items ≡ 65536 }
    ensures { Marks marks.old.items addresses.now marks.new.items }
{
    for address in addresses {
        mark_given(marks, Some(*address));
    }
}

/// For each address whether a table has a word there. The tables must have an entry for each
/// address: which are in a reached instruction, which an LXI loads, and which are declared targets.
/// `AllocError` if memory runs out.
fn find_words(
    alloc: Global,
    code: &ImageCode<'_>,
    covered: &[bool],
    loaded: &[bool],
    goals: &[bool],
) -> Result<Vec<bool>, AllocError>
    requires covered { length covered.now ≡ 65536 }
    requires loaded { length loaded.now ≡ 65536 }
    requires goals { length goals.now ≡ 65536 }
    ensures { IfOk result (λ words. AreWordsBelow code.now covered.now loaded.now goals.now 65536 words.items) }
{
    let mut words = Vec::new(alloc);
    for address in 0..65_536_u32 {
        let is_word = is_word(code, covered, loaded, goals, &words, address as u16);
        words.push(is_word)?;
    }
    Ok(words)
}

/// Whether a table has a word at an address: there may be one, and the table begins there or goes on
/// behind the word before. `words` must have an entry for each address below, the other tables for
/// each address.
fn is_word(
    code: &ImageCode<'_>,
    covered: &[bool],
    loaded: &[bool],
    goals: &[bool],
    words: &[bool],
    address: u16,
) -> bool
    requires covered { length covered.now ≡ 65536 }
    requires loaded { length loaded.now ≡ 65536 }
    requires goals { length goals.now ≡ 65536 }
    requires words { length words.now ≡ address }
    ensures { result ≡ is_word code.now covered.now loaded.now goals.now words.now address }
{
    let index = usize::from(address);
    (loaded[index] || (index >= 2 && words[index - 2]))
        && may_be_word(code, covered, goals, address)
}

/// Whether a table may have a word at an address: its two bytes are in CODE and in no reached
/// instruction, and it is a declared target. `covered` and `goals` must have an entry for each
/// address.
pub(crate) fn may_be_word(
    code: &ImageCode<'_>,
    covered: &[bool],
    goals: &[bool],
    address: u16,
) -> bool
    requires covered { length covered.now ≡ 65536 }
    requires goals { length goals.now ≡ 65536 }
    ensures { result ≡ may_be_word code.now covered.now goals.now address }
{
    address <= 65_534
        && is_free(code, covered, address)
        && is_free(code, covered, address + 1)
        && goals[usize::from(word_at(code, address))]
}

/// Whether an address is in CODE and in no reached instruction. `covered` must have an entry for
/// each address.
pub(crate) fn is_free(code: &ImageCode<'_>, covered: &[bool], address: u16) -> bool
    requires { length covered.now ≡ 65536 }
    ensures { result ≡ is_free code.now covered.now address }
{
    code.is_code(address) && !covered[usize::from(address)]
}

/// The word in the two bytes from an address on, low byte first. `address` must be at most FFFE.
pub(crate) fn word_at(code: &ImageCode<'_>, address: u16) -> u16
    requires { address + 2 ≤ 65536 }
    ensures { result ≡ word_in (memory_of code.now.chunks) address }
{
    u16::from_le_bytes([code.byte(address), code.byte(address + 1)])
}

/// For each address whether it is in a word of `words`, or in an entry with a key, one of `firsts` or
/// `lasts`. Each must have an entry for each address. `AllocError` if memory runs out.
fn find_bytes_of(
    alloc: Global,
    words: &[bool],
    firsts: &[bool],
    lasts: &[bool],
) -> Result<Vec<bool>, AllocError>
    requires words { length words.now ≡ 65536 }
    requires firsts { length firsts.now ≡ 65536 }
    requires lasts { length lasts.now ≡ 65536 }
    ensures { IfOk result (λ tables. AreMarks (in_table words.now firsts.now lasts.now) 65536 tables.items) }
{
    let mut marks = Vec::new(alloc);
    for address in 0..65_536_u32 {
        marks.push(is_in_table(words, firsts, lasts, address as u16))?;
    }
    Ok(marks)
}

/// Whether an address is in a word of `words`, or in an entry with a key, one of `firsts` or `lasts`.
/// Each must have an entry for each address.
fn is_in_table(words: &[bool], firsts: &[bool], lasts: &[bool], address: u16) -> bool
    requires words { length words.now ≡ 65536 }
    requires firsts { length firsts.now ≡ 65536 }
    requires lasts { length lasts.now ≡ 65536 }
    ensures { result ≡ in_table words.now firsts.now lasts.now address }
{
    is_in_word(words, address) || is_in_keyed(firsts, address) || is_in_keyed(lasts, address)
}

/// Whether an address is in a word: one that begins there, or one address before. `words` must have an
/// entry for each address.
fn is_in_word(words: &[bool], address: u16) -> bool
    requires { length words.now ≡ 65536 }
    ensures { result ≡ in_word words.now address }
{
    words[usize::from(address)] || (address >= 1 && words[usize::from(address - 1)])
}

/// Whether an address is in an entry of three bytes: one that begins there, or one or two addresses
/// before. `marks` must have an entry for each address.
fn is_in_keyed(marks: &[bool], address: u16) -> bool
    requires { length marks.now ≡ 65536 }
    ensures { result ≡ in_keyed marks.now address }
{
    is_in_word(marks, address) || (address >= 2 && marks[usize::from(address - 2)])
}

/// For each address whether it is to be code: in a reached instruction, or in a table outside the
/// ranges of `ram`. `covered` and `tables` must have an entry for each address.
///
/// # Errors
/// `AllocError` only if memory runs out.
pub(crate) fn find_code(
    alloc: Global,
    covered: &[bool],
    tables: &[bool],
    ram: &[Range],
) -> Result<Vec<bool>, AllocError>
    requires covered { length covered.now ≡ 65536 }
    requires tables { length tables.now ≡ 65536 }
    ensures { IfOk result (λ marks. AreMarks (is_code covered.now tables.now ram.now) 65536 marks.items) }
{
    let mut marks = Vec::new(alloc);
    for address in 0..65_536_u32 {
        marks.push(is_code(covered, tables, ram, address as u16))?;
    }
    Ok(marks)
}

/// Whether an address is to be code: in a reached instruction, or in a table outside the ranges of
/// `ram`. `covered` and `tables` must have an entry for each address.
fn is_code(covered: &[bool], tables: &[bool], ram: &[Range], address: u16) -> bool
    requires covered { length covered.now ≡ 65536 }
    requires tables { length tables.now ≡ 65536 }
    ensures { result ≡ is_code covered.now tables.now ram.now address }
{
    covered[usize::from(address)] || (tables[usize::from(address)] && !is_in(ram, address))
}
