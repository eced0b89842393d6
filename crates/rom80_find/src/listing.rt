//! The addresses at which a module's code lies in a dump.

ghost use Rattle.std.specs.Prelude.{◌≡◌, ℕ, ◌<◌, ◌≤◌, ◌+◌, ◌*◌, ◌==◌, ◌&&◌, List, length, slice_index_or, true, false, IfOk, OnOk};
ghost use Rattle.rom80_find.specs.Dump.{DumpValue};
ghost use Rattle.rom80_pattern.specs.declared.code_byte.CodeByte.{CodeByte};
ghost use Rattle.rom80_find.specs.Blocks.{AreFitted, IsFitted};
ghost use Rattle.rom80_find.specs.Fixups.{AreFixupsOf, AreSorted, are_there};
ghost use Rattle.rom80_find.specs.Listed.{Lists};
ghost use Rattle.rom80_find.specs.Marks.{AreSieved, bit_in, has_bit};
ghost use Rattle.rom80_find.specs.Places.{AreBelow, ArePlaces};

use crate::bytes::BLOCK;
use crate::fitting::fit_fixups;
use crate::fixups::fixups_of;
use crate::indexed_dump::{ADDRESSES, IndexedDump};
use crate::places::Places;
use crate::sieve::sieve;
use rom80_pattern::{CodeByte, number_of};
use std::alloc::{AllocError, Global};

/// Returns the addresses at which a module's code lies in a dump: those for which there are values of its targets with which the dump has
/// all its bytes.
///
/// The bytes of the code outside fixups are compared at 64 addresses at once, and at all until none is left. Those in fixups are compared
/// at each 4,096 addresses of which one is left, some sixteen at once.
///
/// # Errors
/// `AllocError` only if memory ran out.
pub(crate) fn places(
    alloc: Global,
    dump: &IndexedDump<'_>,
    code: &[CodeByte],
) -> Result<Places, AllocError>
    ensures { IfOk result (λ places. Lists (ArePlaces dump.now code.now 65536) places) }
{
    let alive = sieve(alloc, dump, code)?;
    let fixups = fixups_of(alloc, code)?;
    fitting_places(alloc, dump, &alive, &fixups)
}

/// Returns the addresses whose bits in `alive` are set and at which there are values of targets with which the dump has all `fixups` with
/// CODE there.
fn fitting_places(
    alloc: Global,
    dump: &IndexedDump<'_>,
    alive: &[u64],
    fixups: &[CodeByte],
) -> Result<Places, AllocError>
    requires whole { length alive.now ≡ 1024 }
    requires sorted { AreSorted fixups.now }
    ensures { IfOk result (λ places. (code : List CodeByte) → AreSieved dump.now code alive.now → AreFixupsOf code fixups.now
        → Lists (ArePlaces dump.now code 65536) places) }
{
    let mut places = Places::new(alloc);
    for block in 0..ADDRESSES / BLOCK {
        let wrong = wrong_addresses(dump, alive, fixups, block);
        push_places_of_block(alive, &wrong, block, &mut places)?;
    }
    Ok(places)
}

/// Returns a number for each address of a block: 0 if there are values of targets with which the dump has all `fixups` with CODE there.
/// `alive` has a bit for each address, set if the dump has any bytes in their place; where it is clear, the number can be any.
fn wrong_addresses(
    dump: &IndexedDump<'_>,
    alive: &[u64],
    fixups: &[CodeByte],
    block: usize,
) -> [u8; BLOCK]
    requires whole { length alive.now ≡ 1024 }
    requires sorted { AreSorted fixups.now }
    requires block { block < 16 }
    ensures whole { length result ≡ 4096 }
    ensures each { (k : ℕ) → k < 4096 → bit_in alive.now (4096 * block + k) ≡ true → are_there dump.now (4096 * block + k) fixups.now ≡ true
        → IsFitted dump.now fixups.now (4096 * block + k) 0 (slice_index_or result k 0) }
{
    let mut wrong = [0; BLOCK];
    if is_any_left(alive, block) {
        fit_fixups(&mut wrong, dump, BLOCK * block, fixups);
    }
    wrong
}

/// Whether the bit of any address of a block is set.
fn is_any_left(alive: &[u64], block: usize) -> bool
    requires whole { length alive.now ≡ 1024 }
    requires block { block < 16 }
    ensures { result ≡ false → (k : ℕ) → k < 4096 → bit_in alive.now (4096 * block + k) ≡ false }
{
    for word in 0..BLOCK / 64 {
        if alive[64 * block + word] != 0 {
            return true;
        }
    }
    false
}

/// Appends the addresses of a block whose bits in `alive` are set and whose numbers in `wrong` are 0.
fn push_places_of_block(
    alive: &[u64],
    wrong: &[u8; BLOCK],
    block: usize,
    places: &mut Places,
) -> Result<(), AllocError>
    requires whole { length alive.now ≡ 1024 }
    requires block { block < 16 }
    requires count { places.old.count ≤ 4096 * block }
    ensures count { OnOk result (places.new.count ≤ 4096 * (block + 1)) }
    ensures places { OnOk result ((dump : DumpValue) (code fixups : List CodeByte)
        → AreFitted dump code fixups (4096 * block) 4096 (λ k. bit_in alive.now (4096 * block + k)) wrong.now
        → Lists (ArePlaces dump code (4096 * block)) places.old → Lists (ArePlaces dump code (4096 * (block + 1))) places.new) }
{
    for word in 0..BLOCK / 64 {
        let marks = &wrong[64 * word..64 * word + 64];
        push_places_of_word(
            alive[64 * block + word],
            marks,
            BLOCK * block + 64 * word,
            places,
        )?;
    }
    Ok(())
}

/// Appends those of the 64 addresses from `first` on whose bits in `alive` are set and whose numbers in `wrong` are 0.
fn push_places_of_word(
    alive: u64,
    wrong: &[u8],
    first: usize,
    places: &mut Places,
) -> Result<(), AllocError>
    requires whole { length wrong.now ≡ 64 }
    requires few { first + 64 ≤ 65536 }
    requires count { places.old.count ≤ first }
    ensures count { OnOk result (places.new.count ≤ first + 64) }
    ensures places { OnOk result ((dump : DumpValue) (code fixups : List CodeByte) → AreFitted dump code fixups first 64 (has_bit alive) wrong.now
        → Lists (ArePlaces dump code first) places.old → Lists (ArePlaces dump code (first + 64)) places.new) }
{
    if alive == 0 {
        return Ok(());
    }
    for index in 0..64 {
        let lies = is_place(alive, index, wrong[index]);
        places.push_if(lies, (first + index) as u16)?;
    }
    Ok(())
}

/// Whether the bit with this number in `alive` is set and the number in `wrong` is 0.
fn is_place(alive: u64, index: usize, wrong: u8) -> bool
    requires { index < 64 }
    ensures { result ≡ (has_bit alive index && wrong == 0) }
{
    (alive >> index as u32 & 1 == 1) && wrong == 0
}

/// Returns the length of a table that has an entry for each number of a target in the code, and for absolute 0 and CODE, the numbers 0 and
/// 1.
pub(crate) fn count_of_values(code: &[CodeByte]) -> usize
    ensures two { 2 ≤ result }
    ensures few { result ≤ 65792 }
    ensures below { AreBelow result code.now }
{
    let mut count = 2;
    for byte in code {
        count = count.max(number_of(byte.target) + 1);
    }
    count
}
