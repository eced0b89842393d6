//! The addresses at which a dump has the bytes of a module's code that can be compared for 64 addresses at once.

ghost use Rattle.std.specs.Prelude.{◌≡◌, ℕ, ◌+◌, ◌*◌, ◌<◌, ◌&&◌, true, false, length, IfOk};
ghost use Rattle.std.specs.List.{list_all};
ghost use Rattle.rom80_find.specs.Marks.{AreSieved, bit_in, passes, row_of};

use crate::indexed_dump::IndexedDump;
use crate::marks::{ANY, bits_from};
use rom80_pattern::CodeByte;
use rom80_pattern::table::table;
use std::alloc::{AllocError, Global};

/// The number of 64-bit words that have a bit for each address.
const WORDS: usize = 1024;

/// Returns a bit for each address, set if with CODE there the dump has the code's bytes outside fixups, and has any bytes in place of the
/// others.
pub(crate) fn sieve(
    alloc: Global,
    dump: &IndexedDump<'_>,
    code: &[CodeByte],
) -> Result<Vec<u64>, AllocError>
    ensures { IfOk result (λ alive. AreSieved dump.now code.now alive.items) }
{
    let mut alive = all_addresses(alloc, WORDS)?;
    sieve_by_bytes(&mut alive, dump, code);
    Ok(alive)
}

/// Returns `count` 64-bit words with all bits set.
fn all_addresses(alloc: Global, count: usize) -> Result<Vec<u64>, AllocError>
    ensures whole { IfOk result (λ alive. length alive.items ≡ count) }
    ensures each { IfOk result (λ alive. (a : ℕ) → a < 64 * count → bit_in alive.items a ≡ true) }
{
    let alive = table(alloc, u64::MAX, count)?;
    Ok(alive)
}

/// Clears the bit in `alive` of each address at which, with CODE there, the dump lacks a byte outside fixups or has no byte in place of
/// another one.
fn sieve_by_bytes(alive: &mut [u64], dump: &IndexedDump<'_>, code: &[CodeByte])
    requires all { length alive.old ≡ 1024 }
    ensures whole { length alive.new ≡ 1024 }
    ensures each { (a : ℕ) → a < 65536 → bit_in alive.new a ≡ (bit_in alive.old a && list_all (passes dump.now a) code.now) }
{
    for byte in code {
        if !sieve_by_byte(alive, dump, *byte) {
            return;
        }
    }
}

/// Clears the bit in `alive` of each address at which, with CODE there, the dump lacks `byte`, if it is outside fixups, or has no byte in
/// its place otherwise. Answers false only if no bit is left.
fn sieve_by_byte(alive: &mut [u64], dump: &IndexedDump<'_>, byte: CodeByte) -> bool
    requires all { length alive.old ≡ 1024 }
    ensures whole { length alive.new ≡ 1024 }
    ensures each { (a : ℕ) → a < 65536 → bit_in alive.new a ≡ (bit_in alive.old a && passes dump.now a byte) }
    ensures none { result ≡ false → (a : ℕ) → a < 65536 → bit_in alive.new a ≡ false }
{
    keep_in_row(alive, dump.row(row_of(&byte)), usize::from(byte.offset))
}

/// The number of the row of a dump in which `byte` is looked up: its own row if it is outside fixups, otherwise the row of any byte.
fn row_of(byte: &CodeByte) -> usize
    ensures row { result ≡ row_of byte.now }
    ensures few { result < 257 }
{
    if byte.is_plain() {
        usize::from(byte.addend % 256)
    } else {
        ANY
    }
}

/// Clears the bit in `alive` of each address `offset` before one whose bit in `row` is clear, and answers whether any bit is left.
fn keep_in_row(alive: &mut [u64], row: &[u64], offset: usize) -> bool
    requires all { length alive.old ≡ 1024 }
    requires row { length row.now ≡ 2048 }
    requires near { offset < 65536 }
    ensures whole { length alive.new ≡ 1024 }
    ensures each { (a : ℕ) → a < 65536 → bit_in alive.new a ≡ (bit_in alive.old a && bit_in row.now (a + offset)) }
    ensures none { result ≡ false → (a : ℕ) → a < 65536 → bit_in alive.new a ≡ false }
{
    let mut any = false;
    for word in 0..WORDS {
        let left = alive[word] & bits_from(row, 64 * word + offset);
        alive[word] = left;
        any = any | (left != 0);
    }
    any
}
