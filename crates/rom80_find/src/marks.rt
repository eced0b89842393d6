//! The addresses at which a dump has each byte, as bits.

ghost use Rattle.std.specs.Prelude.{◌≡◌, ℕ, ◌*◌, ◌/◌, ◌+◌, ◌<◌, ◌==◌, ◌||◌, length, slice_index_or, IfOk};
ghost use Rattle.rom80_find.specs.Dump.{DumpValue, dump_of};
ghost use Rattle.rom80_find.specs.Marks.{AreMarks, IsRow, bit_in, has_bit, is_mark};

use crate::dump::Dump;
use crate::indexed_dump::ADDRESSES;
use rom80_pattern::table::table;
use std::alloc::{AllocError, Global};

/// The number of bits in a row. A row has a bit for each address, and then the same bits again, so that the bit of an address plus an
/// offset is in it.
const ROW: usize = 2 * ADDRESSES;

/// The number of 64-bit words in a row.
const WORDS: usize = ROW / 64;

/// The number of the last row, of the addresses at which the dump has any byte; rows 0 to 255 are of one byte each.
pub(crate) const ANY: usize = 256;

/// Returns the 257 rows of a dump, one after another: for each byte the addresses at which the dump has it, and last those at which it has
/// any.
pub(crate) fn marks_of(alloc: Global, dump: Dump<'_>) -> Result<Vec<u64>, AllocError>
    ensures { IfOk result (λ marks. AreMarks (dump_of dump.entry) 131072 marks.items) }
{
    let mut marks = table(alloc, 0, (ANY + 1) * WORDS)?;
    mark_all(&mut marks, dump);
    Ok(marks)
}

/// Sets in 257 empty rows the bits of all addresses at which a dump has a byte.
fn mark_all(marks: &mut [u64], dump: Dump<'_>)
    requires whole { length marks.old ≡ 526336 }
    requires none { (k : ℕ) → slice_index_or marks.old k 0 ≡ 0 }
    ensures { AreMarks (dump_of dump.entry) 131072 marks.new }
{
    for at in 0..2 * ADDRESSES {
        mark_address(marks, dump.byte_at((at % ADDRESSES) as u16), at);
    }
}

/// Sets in the rows the bits for the byte `found` at position `at` of a row: one in the byte's row and one in the last row. Without a byte
/// no bit is set.
fn mark_address(marks: &mut [u64], found: Option<u8>, at: usize)
    requires whole { length marks.old ≡ 526336 }
    requires below { at < 131072 }
    ensures whole { length marks.new ≡ length marks.old }
    ensures each { (k : ℕ) → bit_in marks.new k ≡ (bit_in marks.old k || is_mark found at k) }
{
    if let Some(byte) = found {
        set_bit(marks, usize::from(byte) * ROW + at);
        set_bit(marks, ANY * ROW + at);
    }
}

/// Sets the bit with a number in a list of 64-bit words; the lowest bit of the first word is number 0.
fn set_bit(words: &mut [u64], bit: usize)
    requires { bit < 64 * length words.old }
    ensures whole { length words.new ≡ length words.old }
    ensures each { (k : ℕ) → bit_in words.new k ≡ (bit_in words.old k || k == bit) }
{
    words[bit / 64] = words[bit / 64] | (1 << (bit % 64) as u32);
}

/// Returns the row with this number among the 257 rows of a dump.
pub(crate) fn row_of_marks(marks: &[u64], row: usize) -> &[u64]
    requires whole { length marks.now ≡ 526336 }
    requires row { row < 257 }
    ensures { (dump : DumpValue) → AreMarks dump 131072 marks.now → IsRow dump row result.now }
{
    &marks[row * WORDS..(row + 1) * WORDS]
}

/// Returns the 64 bits from number `first` on of a list of 64-bit words.
pub(crate) fn bits_from(words: &[u64], first: usize) -> u64
    requires { first / 64 + 1 < length words.now }
    ensures { (i : ℕ) → i < 64 → has_bit result i ≡ bit_in words.now (first + i) }
{
    let shift = (first % 64) as u32;
    (words[first / 64] >> shift) | (words[first / 64 + 1] << 1 << (63 - shift))
}
