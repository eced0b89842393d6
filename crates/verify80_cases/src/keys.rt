//! The table of keys by which a PCHL goes, as the loop shows that searches it.

ghost use Rattle.std.specs.Prelude.{◌≡◌, ◌≤◌, ◌==◌, IfSome, if◌then◌else◌};
ghost use Rattle.image80.specs.Image.{memory_of};
ghost use Rattle.verify80.specs.LookLaws.{fetch_at};
ghost use Rattle.verify80_cases.specs.Suggested.{IsBegun, IsCount, IsTested, loaded_count, tested_key};

use crate::leading::{leads_to, stands_before};
use crate::lookup::find_table;
use crate::table::{EntryRun, KeyOrder, NO_LIMIT, TableKind, loaded_word};
use decode80::{Instr, Operand, Operation, Register, fetch};
use verify80::ImageCode;

/// A table of keys by which a PCHL goes, as a search shows it.
#[derive(Clone, Copy)]
pub(crate) struct KeyTable {
    /// The address of the LXI that loads the table's address.
    pub(crate) lxi: u16,
    /// Where the key of an entry is.
    pub(crate) order: KeyOrder,
    /// The address of the test for the key that ends the table, if there is one.
    pub(crate) test: Option<u16>,
    /// The address of the MVI that loads the count of the entries, if there is one.
    pub(crate) count: Option<u16>,
    /// The address of the jump from the search to where the address is loaded, if there is one.
    pub(crate) jump: Option<u16>,
}

/// The entries of the table of keys by which the PCHL at an address goes, if a search before it shows one; else `None`. `reached` has a mark
/// for each address that is reached.
pub(crate) fn run_of_keys(code: &ImageCode<'_>, reached: &[bool], at: u16) -> Option<EntryRun>
    ensures begun { IfSome result (λ run. IsBegun code.now reached.now at run.kind run.first run.limit) }
    ensures small { IfSome result (λ run. run.limit ≤ 65536) }
{
    let table = find_table(code, reached, at)?;
    run_of_table(code, reached, at, table)
}

/// The entries of a table of keys; `None` if the LXI that should load its address isn't there, or doesn't lead to the PCHL at `at`.
fn run_of_table(
    code: &ImageCode<'_>,
    reached: &[bool],
    at: u16,
    table: KeyTable,
) -> Option<EntryRun>
    ensures begun { IfSome result (λ run. IsBegun code.now reached.now at run.kind run.first run.limit) }
    ensures small { IfSome result (λ run. run.limit ≤ 65536) }
{
    if !leads_to(code, reached, table.lxi, table.jump, at) {
        return None;
    }
    let first = loaded_word(code, table.lxi)?;
    Some(EntryRun {
        kind: TableKind::Keys {
            order: table.order,
            last: last_key(code, reached, table.lxi, table.test),
        },
        first,
        limit: limit_of(code, reached, table, at),
    })
}

/// The key that ends a table, if there is a test for one before which the LXI stands.
fn last_key(code: &ImageCode<'_>, reached: &[bool], lxi: u16, test: Option<u16>) -> Option<u8>
    ensures { IfSome result (IsTested code.now reached.now lxi) }
{
    let test = test?;
    if !stands_before(code, reached, lxi, test) {
        return None;
    }
    tested_key(code, test)
}

/// The key for which the instruction at an address tests A: that of a CPI, or 0 of ORA A and ANA A; `None` for other instructions.
fn tested_key(code: &ImageCode<'_>, at: u16) -> Option<u8>
    ensures { result ≡ tested_key (fetch_at code.now.regions (memory_of code.now.chunks) at) }
{
    match fetch(at, code) {
        Ok(found) => match found.instr {
            Instr::Operate(Operation::Compare, Operand::Immediate(byte)) => Some(byte),
            Instr::Operate(Operation::And | Operation::Or, Operand::Register(Register::A)) => Some(
                0,
            ),
            _ => None,
        },
        Err(_) => None,
    }
}

/// How many entries a table of keys has at most: as many as the MVI says that loads the count, or `NO_LIMIT` if there is none.
fn limit_of(code: &ImageCode<'_>, reached: &[bool], table: KeyTable, at: u16) -> usize
    ensures is { IsCount code.now reached.now at result }
    ensures small { result ≤ 65536 }
{
    let Some(mvi) = table.count else {
        return NO_LIMIT;
    };
    if !leads_to(code, reached, mvi, table.jump, at) {
        return NO_LIMIT;
    }
    match loaded_count(code, mvi) {
        Some(count) => count,
        None => NO_LIMIT,
    }
}

/// The count that the MVI at an address loads, 256 for 0; `None` if there is no MVI.
fn loaded_count(code: &ImageCode<'_>, at: u16) -> Option<usize>
    ensures is { result ≡ loaded_count (fetch_at code.now.regions (memory_of code.now.chunks) at) }
    ensures few { IfSome result (λ count. count ≤ 256) }
{
    match fetch(at, code) {
        Ok(found) => match found.instr {
            Instr::Mvi(_, 0) => Some(256),
            Instr::Mvi(_, byte) => Some(usize::from(byte)),
            _ => None,
        },
        Err(_) => None,
    }
}
