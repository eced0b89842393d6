//! What is printed of a program that is followed.

ghost use Rattle.std.specs.Prelude.{◌≡◌, ◌++◌, IfOk, OnOk, length, map};
ghost use Rattle.std.specs.List.{flat_map};
ghost use Rattle.verify80_follow.specs.{FollowText.bounds_lines, FollowText.handler_line, FollowText.handlers_line, FollowText.live_lines};
ghost use Rattle.verify80_follow.specs.{FollowText.pair_line, FollowText.way_line, FollowText.ways_lines, FollowText.written_line, Reaching.AreStoresFollowed, Reaching.with_instr};

use crate::fit::Table;
use crate::followed::{Listed, Way};
use crate::handling::Handler;
use decode80::{Fetched, Instr};
use image80::Range;
use std::alloc::{AllocError, Global};
use text80::word_digits;
use verify80_states::entry_at;
use verify80_stores::{Kind, OpenStore, Stores, addresses_of_kind};

/// The lines of a table: how many states it has, and how many bytes the stack has at most, of how many, such as `FOLLOWED 146 STATES` and
/// `STACK 4 OF 256 AT MOST`; and of a
/// program that is interrupted, that its handlers aren't verified.
///
/// # Errors
/// `AllocError` only if memory runs out.
pub fn bounds_text(
    alloc: Global,
    table: &Table,
    room: u16,
    interrupted: bool,
) -> Result<Vec<u8>, AllocError>
    ensures { IfOk result (λ text. text.items ≡ bounds_lines interrupted (length table.now.states.items) table.now.bytes room) }
{
    let states = table.states.len();
    let bytes = table.bytes;
    let handlers = handlers_line(interrupted);
    let lines = format!(in alloc;
        "FOLLOWED {states} STATES\nSTACK {bytes} OF {room} AT MOST\n{handlers}"
    )?;
    Ok(lines.into_bytes())
}

/// The lines of a table with those of its handlers: how many states the first one has; how many bytes the stack has with an interrupt, at most, of how
/// many; each handler, such as `HANDLER 0038 STACK 4`, with the bytes that it has at most, the two of the interrupt among them; and the data that
/// they write, such as `WRITES 2000 0002`.
///
/// # Errors
/// `AllocError` only if memory runs out.
pub fn live_text(
    alloc: Global,
    table: &Table,
    handlers: &[Handler],
    writes: &[Range],
    room: u16,
    most: u16,
) -> Result<Vec<u8>, AllocError>
    ensures { IfOk result (λ text. text.items ≡ live_lines handlers.now writes.now (length table.now.states.items) table.now.bytes room most) }
{
    let states = table.states.len();
    let bytes = u32::from(table.bytes) + u32::from(most);
    let lines = format!(in alloc; "FOLLOWED {states} STATES\nSTACK {bytes} OF {room} AT MOST\n")?;
    let mut text = lines.into_bytes();
    let rest = handlers_text(alloc, handlers, writes)?;
    text.extend_from_slice(&rest)?;
    Ok(text)
}

/// The lines of handlers, and of the data that they write.
fn handlers_text(
    alloc: Global,
    handlers: &[Handler],
    writes: &[Range],
) -> Result<Vec<u8>, AllocError>
    ensures { IfOk result (λ text. text.items ≡ flat_map handler_line handlers.now ++ flat_map written_line writes.now) }
{
    let mut text = Vec::new(alloc);
    append_handlers(alloc, &mut text, handlers)?;
    append_written(&mut text, writes)?;
    Ok(text)
}

/// Appends the line of each handler.
fn append_handlers(
    alloc: Global,
    text: &mut Vec<u8>,
    handlers: &[Handler],
) -> Result<(), AllocError>
    ensures { OnOk result (text.new.items ≡ text.old.items ++ flat_map handler_line handlers.now) }
{
    for handler in handlers {
        append_handler(alloc, text, handler)?;
    }
    Ok(())
}

/// Appends the line of a handler.
#[tactic(auto, unfolding(crate::specs::FollowText::handler_line))]
fn append_handler(alloc: Global, text: &mut Vec<u8>, handler: &Handler) -> Result<(), AllocError>
    ensures { OnOk result (text.new.items ≡ text.old.items ++ handler_line handler.now) }
{
    let bytes = handler.table.bytes;
    let rest = format!(in alloc; " STACK {bytes}\n")?;
    text.extend_from_slice(b"HANDLER ".as_slice())?;
    text.extend_from_slice(&word_digits(handler.at))?;
    text.extend_from_slice(&rest.into_bytes())?;
    Ok(())
}

/// Appends the line of each range of data that handlers write.
fn append_written(text: &mut Vec<u8>, writes: &[Range]) -> Result<(), AllocError>
    ensures { OnOk result (text.new.items ≡ text.old.items ++ flat_map written_line writes.now) }
{
    for range in writes {
        append_pair(text, b"WRITES ", range.first, range.length)?;
    }
    Ok(())
}

/// What is said of the handlers of a program that is interrupted.
fn handlers_line(interrupted: bool) -> &'static str
    ensures { result.now ≡ handlers_line interrupted }
{
    if interrupted {
        "HANDLERS NOT VERIFIED\n"
    } else {
        ""
    }
}

/// The stores and jumps by register pairs among the instructions to which a followed program may come, with those that its table leaves open.
/// `sets_stack` says whether SP may be anywhere when the program begins.
///
/// # Errors
/// `AllocError` only if memory runs out.
pub fn followed_stores(
    alloc: Global,
    listed: &Listed,
    reached: &[Option<Fetched>],
    sets_stack: bool,
) -> Result<Stores, AllocError>
    ensures { IfOk result (AreStoresFollowed listed.now sets_stack reached.now) }
{
    Ok(Stores {
        addresses: addresses_of_kind(alloc, Kind::Store, reached)?,
        open: with_instructions(alloc, &listed.stores, reached)?,
        jumps: addresses_of_kind(alloc, Kind::Jump, reached)?,
        open_jumps: listed.jumps.iter().copied().collect(alloc)?,
        sets_stack,
        search: None,
    })
}

/// Open stores with the instructions that are reached at their addresses.
fn with_instructions(
    alloc: Global,
    stores: &[OpenStore],
    reached: &[Option<Fetched>],
) -> Result<Vec<OpenStore>, AllocError>
    ensures { IfOk result (λ copies. copies.items ≡ map (with_instr reached.now) stores.now) }
{
    stores
        .iter()
        .map(|store| with_instruction(*store, reached))
        .collect(alloc)
}

/// An open store with the instruction that is reached at its address.
fn with_instruction(store: OpenStore, reached: &[Option<Fetched>]) -> OpenStore
    ensures { result ≡ with_instr reached.now store }
{
    let instr = entry_at(reached, store.at).map_or(Instr::Nop, |found| found.instr);
    OpenStore { instr, ..store }
}

/// The line of each way of a program's table and of its handlers' tables that goes to no address behind a call, such as `WAY 3007 300A`.
///
/// # Errors
/// `AllocError` only if memory runs out.
pub fn ways_text(alloc: Global, ways: &[Way], handlers: &[Handler]) -> Result<Vec<u8>, AllocError>
    ensures { IfOk result (λ text. text.items ≡ ways_lines ways.now handlers.now) }
{
    let mut text = Vec::new(alloc);
    append_ways(&mut text, ways)?;
    for handler in handlers {
        append_ways(&mut text, &handler.table.ways)?;
    }
    Ok(text)
}

/// Appends the line of each way.
fn append_ways(text: &mut Vec<u8>, ways: &[Way]) -> Result<(), AllocError>
    ensures { OnOk result (text.new.items ≡ text.old.items ++ flat_map way_line ways.now) }
{
    for way in ways {
        append_pair(text, b"WAY ", way.at, way.to)?;
    }
    Ok(())
}

/// Appends a line of two numbers behind a word.
fn append_pair(text: &mut Vec<u8>, word: &[u8], first: u16, second: u16) -> Result<(), AllocError>
    ensures { OnOk result (text.new.items ≡ text.old.items ++ pair_line word.now first second) }
{
    text.extend_from_slice(word)?;
    text.extend_from_slice(&word_digits(first))?;
    text.push(b' ')?;
    text.extend_from_slice(&word_digits(second))?;
    text.push(b'\n')?;
    Ok(())
}
