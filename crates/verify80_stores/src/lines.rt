//! What is printed of the stores of a program.

ghost use Rattle.std.specs.Prelude.{◌≡◌, ◌++◌, IfOk, OnOk};
ghost use Rattle.std.specs.List.{flat_map};
ghost use Rattle.verify80_stores.specs.StoresText.{count_line, jumps_line, jump_line, premise_lines, quiet_line, stack_line, start_line, store_line, stores_text_of};

use crate::stores::{OpenStore, Stores};
use decode80::write_text;
use image80::Range;
use std::alloc::{AllocError, Global};
use text80::word_digits;

/// The lines of a program's stores: how many of its register-indirect stores are shown to stay in data, of how many, such as
/// `STORES 11 OF 12`; if there is a PCHL, how many of them are shown to go to declared targets, such as `JUMPS 1 OF 2`; what that rests on:
/// `SP NOT SET` unless the program sets SP on each way before it uses it, each quiet range, such as `QUIET 2000 0100`, and where the
/// program begins, such as `START 0040`, unless that is 0000; each of the other stores, such as `STORE 011E MOV M,A 0000 FFFF`, with the
/// first and the last address that it may have; and each of the other PCHLs, such as `JUMP 0065`.
///
/// # Errors
/// `AllocError` only if memory runs out.
pub fn stores_text(
    alloc: Global,
    stores: &Stores,
    quiet: &[Range],
    start: u16,
) -> Result<Vec<u8>, AllocError>
    ensures { IfOk result (λ text.
        text.items ≡ stores_text_of start quiet.now stores.now.sets_stack stores.now.addresses.items stores.now.open.items
        stores.now.jumps.items stores.now.open_jumps.items) }
{
    let all = stores.addresses.len();
    let mut text = count_text(alloc, all.saturating_sub(stores.open.len()), all)?;
    let jumps = stores.jumps.len();
    let line = jumps_text(alloc, jumps.saturating_sub(stores.open_jumps.len()), jumps)?;
    text.extend_from_slice(&line)?;
    append_premises(&mut text, stores.sets_stack, quiet, start)?;
    append_stores(alloc, &mut text, &stores.open)?;
    append_jumps(&mut text, &stores.open_jumps)?;
    Ok(text)
}

/// The line of the counts.
fn count_text(alloc: Global, shown: usize, all: usize) -> Result<Vec<u8>, AllocError>
    ensures { IfOk result (λ text. text.items ≡ count_line shown all) }
{
    let line = format!(in alloc; "STORES {shown} OF {all}\n")?;
    Ok(line.into_bytes())
}

/// The line of the counts of PCHLs, if there is one.
fn jumps_text(alloc: Global, shown: usize, all: usize) -> Result<Vec<u8>, AllocError>
    ensures { IfOk result (λ text. text.items ≡ jumps_line shown all) }
{
    if all == 0 {
        return Ok(Vec::new(alloc));
    }
    let line = format!(in alloc; "JUMPS {shown} OF {all}\n")?;
    Ok(line.into_bytes())
}

/// Appends the lines of what the list rests on: `SP NOT SET` unless `sets_stack`, each quiet range, and where the program begins, unless that
/// is 0000.
fn append_premises(
    text: &mut Vec<u8>,
    sets_stack: bool,
    quiet: &[Range],
    start: u16,
) -> Result<(), AllocError>
    ensures { OnOk result (text.new.items ≡ text.old.items ++ premise_lines sets_stack quiet.now start) }
{
    append_stack(text, sets_stack)?;
    append_quiet(text, quiet)?;
    append_start(text, start)
}

/// Appends the line of a program that may use SP before it is set.
fn append_stack(text: &mut Vec<u8>, sets_stack: bool) -> Result<(), AllocError>
    ensures { OnOk result (text.new.items ≡ text.old.items ++ stack_line sets_stack) }
{
    if !sets_stack {
        text.extend_from_slice(b"SP NOT SET\n".as_slice())?;
    }
    Ok(())
}

/// Appends the line of each quiet range.
fn append_quiet(text: &mut Vec<u8>, quiet: &[Range]) -> Result<(), AllocError>
    ensures { OnOk result (text.new.items ≡ text.old.items ++ flat_map quiet_line quiet.now) }
{
    for range in quiet {
        append_range(text, *range)?;
    }
    Ok(())
}

/// Appends the line of a quiet range.
fn append_range(text: &mut Vec<u8>, range: Range) -> Result<(), AllocError>
    ensures { OnOk result (text.new.items ≡ text.old.items ++ quiet_line range) }
{
    text.extend_from_slice(b"QUIET ".as_slice())?;
    text.extend_from_slice(&word_digits(range.first))?;
    text.push(b' ')?;
    text.extend_from_slice(&word_digits(range.length))?;
    text.push(b'\n')?;
    Ok(())
}

/// Appends the line of the address where the program begins, unless it begins at 0000.
fn append_start(text: &mut Vec<u8>, start: u16) -> Result<(), AllocError>
    ensures { OnOk result (text.new.items ≡ text.old.items ++ start_line start) }
{
    if start != 0 {
        text.extend_from_slice(b"START ".as_slice())?;
        text.extend_from_slice(&word_digits(start))?;
        text.push(b'\n')?;
    }
    Ok(())
}

/// Appends the line of each open store.
fn append_stores(alloc: Global, text: &mut Vec<u8>, stores: &[OpenStore]) -> Result<(), AllocError>
    ensures { OnOk result (text.new.items ≡ text.old.items ++ flat_map store_line stores.now) }
{
    for store in stores {
        append_store(alloc, text, *store)?;
    }
    Ok(())
}

/// Appends the line of an open store.
#[tactic(auto, unfolding(crate::specs::StoresText::store_line))]
fn append_store(alloc: Global, text: &mut Vec<u8>, store: OpenStore) -> Result<(), AllocError>
    ensures { OnOk result (text.new.items ≡ text.old.items ++ store_line store) }
{
    let OpenStore { at, instr, span } = store;
    text.extend_from_slice(b"STORE ".as_slice())?;
    text.extend_from_slice(&word_digits(at))?;
    text.push(b' ')?;
    write_text(alloc, instr, text)?;
    text.push(b' ')?;
    text.extend_from_slice(&word_digits(span.first))?;
    text.push(b' ')?;
    text.extend_from_slice(&word_digits(span.last))?;
    text.push(b'\n')?;
    Ok(())
}

/// Appends the line of each open PCHL.
fn append_jumps(text: &mut Vec<u8>, jumps: &[u16]) -> Result<(), AllocError>
    ensures { OnOk result (text.new.items ≡ text.old.items ++ flat_map jump_line jumps.now) }
{
    for at in jumps {
        append_jump(text, *at)?;
    }
    Ok(())
}

/// Appends the line of an open PCHL.
fn append_jump(text: &mut Vec<u8>, at: u16) -> Result<(), AllocError>
    ensures { OnOk result (text.new.items ≡ text.old.items ++ jump_line at) }
{
    text.extend_from_slice(b"JUMP ".as_slice())?;
    text.extend_from_slice(&word_digits(at))?;
    text.push(b'\n')?;
    Ok(())
}
