//! The values that a module's targets may have if its code lies at an address.

ghost use Rattle.std.specs.Prelude.{◌≡◌, ℕ, ◌<◌, ◌≤◌, ◌&&◌, true, false, [], length, IfSome, IfNone};
ghost use Rattle.rom80_find.specs.Dump.{DumpValue, dump_of};
ghost use Rattle.rom80_pattern.specs.CodeBytes.{number_of};
ghost use Rattle.rom80_find.specs.Candidates.{is_candidate};
ghost use Rattle.rom80_find.specs.Places.{Describes, IsClearBut, HasNone, AreBelow, in_table, fits, fits_for};

use crate::candidates::Candidates;
use crate::dump::Dump;
use rom80_pattern::{CodeByte, number_of};

/// Narrows a table, in which each target's value may be every word, to the words with which the dump has the code's bytes if CODE begins
/// at `address`. Returns how many bytes were read before one left a value no word: all of them exactly if the code lies there.
pub(crate) fn solve(
    dump: Dump<'_>,
    address: u16,
    code: &[CodeByte],
    table: &mut [Candidates],
) -> usize
    requires two { 2 ≤ length table.old }
    requires below { AreBelow (length table.old) code.now }
    requires clear { IsClearBut [] table.old }
    ensures whole { length table.new ≡ length table.old }
    ensures within { result ≤ length code.now }
    ensures yes { result ≡ length code.now → Describes (dump_of dump.entry) code.now address table.new }
    ensures no { result < length code.now → HasNone (dump_of dump.entry) code.now address }
{
    set_known_values(address, table);
    for (index, byte) in code.iter().enumerate() {
        if !narrow_to_byte(dump, address, *byte, table) {
            return index;
        }
    }
    code.len()
}

/// Sets in a table of candidates the two values that are known if CODE begins at `address`: absolute 0 is 0, and CODE's base is the
/// address.
fn set_known_values(address: u16, table: &mut [Candidates])
    requires two { 2 ≤ length table.old }
    requires clear { IsClearBut [] table.old }
    ensures whole { length table.new ≡ length table.old }
    ensures known { (dump : DumpValue) → Describes dump [] address table.new }
{
    table[0] = Candidates::Window(0, 0);
    table[1] = Candidates::Window(address, 0);
}

/// Narrows in a table the candidates of a byte's target to those with which the dump has the byte if CODE begins at `address`, and answers
/// true; answers false and leaves the table unchanged if there are none.
fn narrow_to_byte(dump: Dump<'_>, address: u16, byte: CodeByte, table: &mut [Candidates]) -> bool
    requires { number_of byte.target < length table.old }
    ensures whole { length table.new ≡ length table.old }
    ensures yes { result ≡ true → (number word : ℕ) → number < length table.old → word < 65536 →
        in_table table.new number word ≡ (in_table table.old number word && fits_for (dump_of dump.entry) address number word byte) }
    ensures no { result ≡ false → (word : ℕ) → word < 65536 →
        (in_table table.old (number_of byte.target) word && fits (dump_of dump.entry) address byte word) ≡ false }
    ensures unchanged { result ≡ false → table.new ≡ table.old }
{
    let number = number_of(byte.target);
    match narrowed_candidates(dump, address, byte, table[number]) {
        Some(candidates) => {
            table[number] = candidates;
            true
        }
        None => false,
    }
}

/// Returns the candidates with which the dump has a byte of code if CODE begins at `address`; `None` if there are none.
fn narrowed_candidates(
    dump: Dump<'_>,
    address: u16,
    byte: CodeByte,
    candidates: Candidates,
) -> Option<Candidates>
    ensures some { IfSome result (λ narrowed. (word : ℕ) → word < 65536 →
        is_candidate narrowed word ≡ (is_candidate candidates word && fits (dump_of dump.entry) address byte word)) }
    ensures none { IfNone result ((word : ℕ) → word < 65536 →
        (is_candidate candidates word && fits (dump_of dump.entry) address byte word) ≡ false) }
{
    match dump.byte_at(address.wrapping_add(byte.offset)) {
        Some(found) => candidates.narrow(byte.half, byte.addend, found),
        None => None,
    }
}
