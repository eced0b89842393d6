//! The ranges of the addresses that are marked in a table.

ghost use Rattle.std.specs.Prelude.{◌≡◌, ◌+◌, ◌≤◌, ◌<◌, ℕ, true, false, length, IfOk};
ghost use Rattle.verify80_cases.specs.Marks.{marked};
ghost use Rattle.verify80_suggest.specs.Ranges.{CoversBelow};

use image80::Range;
use std::alloc::{AllocError, Global};

/// The ranges of the marked addresses, by address. Marked addresses in a row are one range, of up
/// to 65,535. `marks` must have an entry for each address.
///
/// # Errors
/// `AllocError` only if memory runs out.
pub(crate) fn ranges_of(alloc: Global, marks: &[bool]) -> Result<Vec<Range>, AllocError>
    requires size { length marks.now ≡ 65536 }
    ensures { IfOk result (λ ranges. CoversBelow (marked marks.now) 65536 ranges.items) }
{
    let mut ranges = Vec::new(alloc);
    let mut at = 0_u32;
    while at < 65_536 {
        let run = run_from(marks, at);
        if run > 0 {
            ranges.push(Range {
                first: at as u16,
                length: run as u16,
            })?;
            at += run;
        } else {
            at += 1;
        }
    }
    Ok(ranges)
}

/// How many addresses in a row are marked from address `at` on, up to 65,535; 0 if `at` isn't.
/// `marks` must have an entry for each address, and `at` must be below 65,536.
fn run_from(marks: &[bool], at: u32) -> u32
    requires size { length marks.now ≡ 65536 }
    requires inside { at < 65536 }
    ensures inside { at + result ≤ 65536 }
    ensures few { result ≤ 65535 }
    ensures all { (address : ℕ) → at ≤ address → address < at + result → marked marks.now address ≡ true }
    ensures ends { result < 65535 → at + result < 65536 → marked marks.now (at + result) ≡ false }
{
    let mut run = 0;
    while run < 65_535 && at + run < 65_536 && marks[(at + run) as usize] {
        run += 1;
    }
    run
}
