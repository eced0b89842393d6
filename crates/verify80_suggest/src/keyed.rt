//! The tables whose addresses have keys.

ghost use Rattle.std.specs.Prelude.{◌≡◌, ◌+◌, ◌≤◌, ◌&&◌, not, length, IfOk};
ghost use Rattle.image80.specs.Image.{memory_of};
ghost use Rattle.verify80_cases.specs.Suggested.{is_free, word_in, word_place};
ghost use Rattle.verify80_cases.specs.declared.table.KeyOrder.TheVariants.{KeyLast};
ghost use Rattle.verify80_suggest.specs.Tables.{AreKeyedBelow, begins_keyed, is_keyed, may_be_keyed, may_be_word};

use crate::tables::{is_free, may_be_word, word_at};
use std::alloc::{AllocError, Global};
use verify80::ImageCode;
use verify80_cases::KeyOrder;

/// For each address whether a table with keys has an entry there. The tables must have an entry for
/// each address: which are in a reached instruction, which an LXI loads, and which are declared
/// targets.
///
/// # Errors
/// `AllocError` only if memory runs out.
pub(crate) fn find_keyed(
    alloc: Global,
    code: &ImageCode<'_>,
    order: KeyOrder,
    covered: &[bool],
    loaded: &[bool],
    goals: &[bool],
) -> Result<Vec<bool>, AllocError>
    requires covered { length covered.now ≡ 65536 }
    requires loaded { length loaded.now ≡ 65536 }
    requires goals { length goals.now ≡ 65536 }
    ensures { IfOk result (λ marks. AreKeyedBelow code.now order covered.now loaded.now goals.now 65536 marks.items) }
{
    let mut marks = Vec::new(alloc);
    for address in 0..65_536_u32 {
        let is_keyed = is_keyed(code, order, covered, loaded, goals, &marks, address as u16);
        marks.push(is_keyed)?;
    }
    Ok(marks)
}

/// Whether a table with keys has an entry at an address: there may be one, and the table begins there
/// or goes on behind the entry before. `marks` must have an entry for each address below, the other
/// tables for each address.
fn is_keyed(
    code: &ImageCode<'_>,
    order: KeyOrder,
    covered: &[bool],
    loaded: &[bool],
    goals: &[bool],
    marks: &[bool],
    address: u16,
) -> bool
    requires covered { length covered.now ≡ 65536 }
    requires loaded { length loaded.now ≡ 65536 }
    requires goals { length goals.now ≡ 65536 }
    requires marks { length marks.now ≡ address }
    ensures { result ≡ is_keyed code.now order covered.now loaded.now goals.now marks.now address }
{
    let index = usize::from(address);
    (begins_keyed(code, order, covered, loaded, goals, address) || (index >= 3 && marks[index - 3]))
        && may_be_keyed(code, order, covered, goals, address)
}

/// Whether a table with keys begins at an address: an LXI loads it, and no table of words begins there.
/// If the key is last, another entry is behind the first, and no word. The tables must have an entry
/// for each address.
fn begins_keyed(
    code: &ImageCode<'_>,
    order: KeyOrder,
    covered: &[bool],
    loaded: &[bool],
    goals: &[bool],
    address: u16,
) -> bool
    requires covered { length covered.now ≡ 65536 }
    requires loaded { length loaded.now ≡ 65536 }
    requires goals { length goals.now ≡ 65536 }
    ensures { result ≡ begins_keyed code.now order covered.now loaded.now goals.now address }
{
    loaded[usize::from(address)]
        && match order {
            KeyOrder::KeyFirst => !may_be_word(code, covered, goals, address),
            KeyOrder::KeyLast => goes_on_keyed(code, covered, goals, address),
        }
}

/// Whether another entry is behind one at an address that has its key last, and no word. `covered` and
/// `goals` must have an entry for each address.
fn goes_on_keyed(code: &ImageCode<'_>, covered: &[bool], goals: &[bool], address: u16) -> bool
    requires covered { length covered.now ≡ 65536 }
    requires goals { length goals.now ≡ 65536 }
    ensures { result ≡ (not (may_be_word code.now covered.now goals.now (address + 2)) && may_be_keyed code.now KeyLast covered.now goals.now (address + 3)) }
{
    address <= 65_530
        && !may_be_word(code, covered, goals, address + 2)
        && may_be_keyed(code, KeyOrder::KeyLast, covered, goals, address + 3)
}

/// Whether a table may have an entry with a key at an address: its three bytes are in CODE and in no
/// reached instruction, and the word beside the key is a declared target. `covered` and `goals` must
/// have an entry for each address.
fn may_be_keyed(
    code: &ImageCode<'_>,
    order: KeyOrder,
    covered: &[bool],
    goals: &[bool],
    address: u16,
) -> bool
    requires covered { length covered.now ≡ 65536 }
    requires goals { length goals.now ≡ 65536 }
    ensures { result ≡ may_be_keyed code.now order covered.now goals.now address }
{
    address <= 65_533
        && are_free(code, covered, address)
        && goals[usize::from(word_beside(code, order, address))]
}

/// Whether the three bytes from an address on are in CODE and in no reached instruction. `address` must
/// be at most FFFD, and `covered` must have an entry for each address.
fn are_free(code: &ImageCode<'_>, covered: &[bool], address: u16) -> bool
    requires inside { address + 3 ≤ 65536 }
    requires covered { length covered.now ≡ 65536 }
    ensures { result ≡ (is_free code.now covered.now address && (is_free code.now covered.now (address + 1) && is_free code.now covered.now (address + 2))) }
{
    is_free(code, covered, address)
        && is_free(code, covered, address + 1)
        && is_free(code, covered, address + 2)
}

/// The address that the entry of three bytes at `address` has beside its key. `address` must be at most
/// FFFD.
fn word_beside(code: &ImageCode<'_>, order: KeyOrder, address: u16) -> u16
    requires { address + 3 ≤ 65536 }
    ensures { result ≡ word_in (memory_of code.now.chunks) (word_place order address) }
{
    match order {
        KeyOrder::KeyFirst => word_at(code, address + 1),
        KeyOrder::KeyLast => word_at(code, address),
    }
}
