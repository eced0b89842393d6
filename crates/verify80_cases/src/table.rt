//! The entries of a table.

ghost use Rattle.std.specs.Prelude.{◌≡◌, ◌+◌, ◌*◌, ◌<◌, ◌≤◌, ◌&&◌, Some, None, All, IfOk, IfSome, length, if◌then◌else◌};
ghost use Rattle.verify80_cases.specs.Reading.{IsLimitOf, IsRunOf};
ghost use Rattle.verify80_cases.specs.Suggested.{AreEntries, compared_byte, goal_of, holds_pchl, is_ended, is_entry, is_free, is_jump, is_keyed};
ghost use Rattle.verify80_cases.specs.Suggested.{is_last, is_target, is_undeclared, is_word, loaded_word, stride, word_in, word_place};
ghost use Rattle.verify80.specs.LookLaws.{fetch_at};
ghost use Rattle.image80.specs.Image.{memory_of};

use crate::marks::is_marked;
use decode80::{Instr, Operand, Operation, Program, fetch};
use image80::Image;
use std::alloc::{AllocError, Global};
use verify80::ImageCode;

/// The opcode of JMP.
const JMP: u8 = 0xC3;
/// The opcode of PCHL.
const PCHL: u8 = 0xE9;
/// The limit of a table that no comparison bounds: more entries than it can have.
pub(crate) const NO_LIMIT: usize = 65_536;

/// What a table consists of.
#[derive(Clone, Copy, PartialEq, Eq)]
pub enum TableKind {
    /// Addresses that the PCHL goes to, low byte first.
    Words,
    /// JMPs that the PCHL goes to.
    Jumps,
    /// Entries of three bytes: a key, and the address that the PCHL goes to if that key is looked up.
    Keys {
        /// Where the key of an entry is.
        order: KeyOrder,
        /// The key that ends the table, if one does.
        last: Option<u8>,
    },
}

/// Where the key of an entry is: before its address, or after it.
#[derive(Clone, Copy, PartialEq, Eq)]
pub enum KeyOrder {
    /// The key, and then the address, low byte first.
    KeyFirst,
    /// The address, low byte first, and then the key.
    KeyLast,
}

/// A table by which a PCHL goes, as the code before the PCHL shows it.
#[derive(Clone, Copy)]
pub(crate) struct Table {
    /// The address of the LXI that loads the table's address.
    pub(crate) lxi: u16,
    /// What the table consists of.
    pub(crate) kind: TableKind,
    /// The address of the CPI that bounds the table's index, if there is one.
    pub(crate) comparison: Option<u16>,
}

/// Entries of a table, one after another.
#[derive(Clone, Copy)]
pub(crate) struct EntryRun {
    /// What the table consists of.
    pub(crate) kind: TableKind,
    /// The address of the first entry.
    pub(crate) first: u16,
    /// How many entries there are at most.
    pub(crate) limit: usize,
}

/// Whether an address has a PCHL in CODE for which no targets are declared. `code` must be that of
/// `image`.
pub(crate) fn is_undeclared(image: &Image, code: &ImageCode<'_>, at: u16) -> bool
    requires { code.now ≡ image.now }
    ensures { result ≡ is_undeclared image.now at }
{
    code.is_code(at) && code.byte(at) == PCHL && image.regions.targets(at).is_none()
}

/// Whether an address has a PCHL in CODE.
pub(crate) fn holds_pchl(code: &ImageCode<'_>, at: u16) -> bool
    ensures { result ≡ holds_pchl (fetch_at code.now.regions (memory_of code.now.chunks) at) }
{
    match fetch(at, code) {
        Ok(found) => matches!(found.instr, Instr::Pchl),
        Err(_) => false,
    }
}

/// The word that the LXI at an address loads; `None` if there is no LXI.
pub(crate) fn loaded_word(code: &ImageCode<'_>, at: u16) -> Option<u16>
    ensures { result ≡ loaded_word (fetch_at code.now.regions (memory_of code.now.chunks) at) }
{
    match fetch(at, code) {
        Ok(found) => match found.instr {
            Instr::Lxi(_, word) => Some(word),
            _ => None,
        },
        Err(_) => None,
    }
}

/// The byte that the CPI at an address compares A with; `None` if there is no CPI.
fn compared_byte(code: &ImageCode<'_>, at: u16) -> Option<u8>
    ensures { result ≡ compared_byte (fetch_at code.now.regions (memory_of code.now.chunks) at) }
{
    match fetch(at, code) {
        Ok(found) => match found.instr {
            Instr::Operate(Operation::Compare, Operand::Immediate(byte)) => Some(byte),
            _ => None,
        },
        Err(_) => None,
    }
}

/// How many entries a table has at most: the operand of the CPI at `comparison`, or `NO_LIMIT` if
/// there is none.
fn limit_of(code: &ImageCode<'_>, comparison: Option<u16>) -> usize
    ensures is { IsLimitOf code.now comparison result }
    ensures small { result ≤ 65536 }
{
    let Some(at) = comparison else {
        return NO_LIMIT;
    };
    match compared_byte(code, at) {
        Some(byte) => usize::from(byte),
        None => NO_LIMIT,
    }
}

/// The entries of a table; `None` if there is no LXI at the address that should load the table's.
pub(crate) fn run_of(code: &ImageCode<'_>, table: Table) -> Option<EntryRun>
    ensures is { IfSome result (IsRunOf code.now table) }
    ensures small { IfSome result (λ run. run.limit ≤ 65536) }
{
    let first = loaded_word(code, table.lxi)?;
    Some(EntryRun {
        kind: table.kind,
        first,
        limit: limit_of(code, table.comparison),
    })
}

/// The address of the entry with this number, counted from 0, of a table that begins at `first`.
/// `number` must be at most 65,536. The result may be past FFFF, but is below 262,144.
pub(crate) fn address_of(kind: TableKind, first: u16, number: usize) -> usize
    requires { number ≤ 65536 }
    ensures is { result ≡ first + stride kind * number }
    ensures small { result ≤ 262143 }
{
    match kind {
        TableKind::Words => usize::from(first) + 2 * number,
        TableKind::Jumps | TableKind::Keys { .. } => usize::from(first) + 3 * number,
    }
}

/// How many bytes an entry of a table of this kind has.
pub(crate) fn stride(kind: TableKind) -> usize
    ensures { result ≡ stride kind }
{
    match kind {
        TableKind::Words => 2,
        TableKind::Jumps | TableKind::Keys { .. } => 3,
    }
}

/// Whether an address is code and not marked as taken by an instruction.
pub(crate) fn is_free(code: &ImageCode<'_>, taken: &[bool], address: u16) -> bool
    ensures { result ≡ is_free code.now taken.now address }
{
    code.is_code(address) && !is_marked(taken, address)
}

/// Whether a whole instruction in CODE begins at an address.
fn is_target(code: &ImageCode<'_>, address: u16) -> bool
    ensures { result ≡ is_target code.now address }
{
    code.is_code(address) && fetch(address, code).is_ok()
}

/// The word in the two bytes from an address on, low byte first. `address` must be at most FFFE.
fn word_at(code: &ImageCode<'_>, address: u16) -> u16
    requires { address + 2 ≤ 65536 }
    ensures { result ≡ word_in (memory_of code.now.chunks) address }
{
    u16::from_le_bytes([code.byte(address), code.byte(address + 1)])
}

/// The address to which the PCHL goes by the entry at `address`; `None` if the table can't have an
/// entry there.
pub(crate) fn target_at(
    code: &ImageCode<'_>,
    reached: &[bool],
    taken: &[bool],
    kind: TableKind,
    address: usize,
) -> Option<u16>
    ensures { result ≡ (if is_entry kind code.now reached.now taken.now address then Some (goal_of kind (memory_of code.now.chunks) address) else None) }
{
    if address > 65_535 {
        return None;
    }
    let at = address as u16;
    match kind {
        TableKind::Words if is_word(code, taken, at) => Some(word_at(code, at)),
        TableKind::Jumps if is_jump(code, reached, taken, at) => Some(at),
        TableKind::Keys { order, last } if is_keyed(code, taken, order, last, at) => Some(
            word_beside(code, order, at),
        ),
        _ => None,
    }
}

/// Whether a table may have a word at an address: its two bytes are free, and an instruction begins
/// at the address that they spell.
fn is_word(code: &ImageCode<'_>, taken: &[bool], address: u16) -> bool
    ensures { result ≡ is_word code.now taken.now address }
{
    address <= 65_534
        && is_free(code, taken, address)
        && is_free(code, taken, address + 1)
        && is_target(code, word_at(code, address))
}

/// Whether a table may have a JMP at an address: a whole JMP in CODE is there, and it is reached or
/// its three bytes are free.
fn is_jump(code: &ImageCode<'_>, reached: &[bool], taken: &[bool], address: u16) -> bool
    ensures { result ≡ is_jump code.now reached.now taken.now address }
{
    address <= 65_533
        && code.byte(address) == JMP
        && is_target(code, address)
        && (is_marked(reached, address) || are_free(code, taken, address))
}

/// Whether the three bytes from an address on are code and not marked as taken by an instruction.
/// `address` must be at most FFFD.
fn are_free(code: &ImageCode<'_>, taken: &[bool], address: u16) -> bool
    requires inside { address + 3 ≤ 65536 }
    ensures { result ≡ (is_free code.now taken.now address && (is_free code.now taken.now (address + 1) && is_free code.now taken.now (address + 2))) }
{
    is_free(code, taken, address)
        && is_free(code, taken, address + 1)
        && is_free(code, taken, address + 2)
}

/// Whether a table may have a key and an address in the three bytes from `address` on: they are
/// free, an instruction begins at the address that they have, and the key isn't the one that ends
/// the table.
fn is_keyed(
    code: &ImageCode<'_>,
    taken: &[bool],
    order: KeyOrder,
    last: Option<u8>,
    address: u16,
) -> bool
    ensures { result ≡ is_keyed code.now taken.now order last address }
{
    address <= 65_533
        && are_free(code, taken, address)
        && is_target(code, word_beside(code, order, address))
        && !is_last(code, order, last, address)
}

/// The address that the entry of three bytes at `address` has beside its key. `address` must be at
/// most FFFD.
fn word_beside(code: &ImageCode<'_>, order: KeyOrder, address: u16) -> u16
    requires { address + 3 ≤ 65536 }
    ensures { result ≡ word_in (memory_of code.now.chunks) (word_place order address) }
{
    match order {
        KeyOrder::KeyFirst => word_at(code, address + 1),
        KeyOrder::KeyLast => word_at(code, address),
    }
}

/// Whether the key of the entry of three bytes at `address` is the one that ends the table.
/// `address` must be at most FFFD.
fn is_last(code: &ImageCode<'_>, order: KeyOrder, last: Option<u8>, address: u16) -> bool
    requires { address + 3 ≤ 65536 }
    ensures { result ≡ is_last order last (memory_of code.now.chunks) address }
{
    let key = match order {
        KeyOrder::KeyFirst => code.byte(address),
        KeyOrder::KeyLast => code.byte(address + 2),
    };
    match last {
        Some(last) => key == last,
        None => false,
    }
}

/// Whether the key that ends a table of this kind is in the place of an entry at `address`.
pub(crate) fn is_ended(code: &ImageCode<'_>, kind: TableKind, address: u16) -> bool
    ensures { result ≡ is_ended kind (memory_of code.now.chunks) address }
{
    match kind {
        TableKind::Keys { order, last } => address <= 65_533 && is_last(code, order, last, address),
        TableKind::Words | TableKind::Jumps => false,
    }
}

/// The addresses to which a PCHL goes by the entries of a table, in their order, up to the limit or
/// to the first address that can't be an entry. `table.limit` must be at most 65,536. `AllocError`
/// if memory runs out.
pub(crate) fn goals_of(
    alloc: Global,
    code: &ImageCode<'_>,
    reached: &[bool],
    taken: &[bool],
    table: EntryRun,
) -> Result<Vec<u16>, AllocError>
    requires { table.limit ≤ 65536 }
    ensures entries { IfOk result (λ goals. AreEntries code.now reached.now taken.now table.kind table.first table.limit goals.items) }
    ensures few { IfOk result (λ goals. length goals.items ≤ table.limit) }
    ensures words { IfOk result (λ goals. All (λ goal. goal < 65536) goals.items) }
{
    let mut goals = Vec::new(alloc);
    for number in 0..table.limit {
        let address = address_of(table.kind, table.first, number);
        let Some(goal) = target_at(code, reached, taken, table.kind, address) else {
            return Ok(goals);
        };
        goals.push(goal)?;
    }
    Ok(goals)
}
