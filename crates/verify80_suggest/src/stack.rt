//! Where the stack lies.

ghost use Rattle.std.specs.Prelude.{◌≡◌, ◌-◌, ◌<◌, ◌≤◌, ℕ, true, false, length};
ghost use Rattle.verify80_cases.specs.Marks.{marked};
ghost use Rattle.verify80_suggest.specs.Stack.{IsBelow, end_of};

use image80::Range;

/// The stack that ends below `word`, the word of an LXI SP, where 0 means the end of memory:
/// `wanted` bytes, or fewer if the next one down is taken. `taken` must have an entry for each
/// address.
pub(crate) fn stack_below(word: u16, wanted: u64, taken: &[bool]) -> Range
    requires { length taken.now ≡ 65536 }
    ensures { IsBelow (marked taken.now) (end_of word) wanted result }
{
    let end = end_of(word);
    let length = count_free(end, wanted, taken);
    Range {
        first: ((end - length) % 65_536) as u16,
        length: length as u16,
    }
}

/// The address just above a stack whose top is `word`: 65,536 for 0.
fn end_of(word: u16) -> u32
    ensures value { result ≡ end_of word }
    ensures inside { result ≤ 65536 }
{
    if word == 0 { 65_536 } else { u32::from(word) }
}

/// How many bytes in a row below address `end` aren't marked as taken, up to `wanted` and to
/// 65,535. `taken` must have an entry for each address, and `end` must be at most 65,536.
fn count_free(end: u32, wanted: u64, taken: &[bool]) -> u32
    requires size { length taken.now ≡ 65536 }
    requires inside { end ≤ 65536 }
    ensures inside { result ≤ end }
    ensures some { result ≤ 65535 }
    ensures few { result ≤ wanted }
    ensures free { (k : ℕ) → k < result → marked taken.now (end - 1 - k) ≡ false }
    ensures cut { result < wanted → result < end → result < 65535 → marked taken.now (end - 1 - result) ≡ true }
{
    let mut free = 0_u32;
    while free < 65_535
        && free < end
        && u64::from(free) < wanted
        && !taken[(end - 1 - free) as usize]
    {
        free += 1;
    }
    free
}
