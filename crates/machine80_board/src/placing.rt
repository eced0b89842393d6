//! Whether a board's devices lie in a program's data.

ghost use Rattle.std.specs.Prelude.{◌≡◌, ℕ, true, false, IfNone, IfSome};
ghost use Rattle.image80.specs.Range.{IsInMemory, in_range};
ghost use Rattle.image80.specs.Regions.{in_data};
ghost use Rattle.machine80_board.specs.BoardRun.{DevicesAreData, IsMisplaced};

use board80::{Board, Kind, Line};
use image80::{Range, Regions};

/// The number of the first line of a board's text, counted from 1, whose DEVICE range has an address that is no data,
/// but code, stack, or in no region; `None` if all devices lie in data.
pub fn misplaced_device(board: &Board, regions: &Regions) -> Option<usize>
    ensures none { IfNone result (DevicesAreData board.now regions.now) }
    ensures found { IfSome result (IsMisplaced board.now regions.now) }
{
    let lines = board.lines();
    for index in 0..lines.len() {
        if let Line::Memory(Kind::Device, range) = &lines[index] {
            if !is_in_data(*range, regions) {
                return Some(index + 2);
            }
        }
    }
    None
}

/// Whether each address of a range, which must lie in memory, is data.
fn is_in_data(range: Range, regions: &Regions) -> bool
    requires { IsInMemory range }
    ensures inside { result ≡ true → (address : ℕ) → in_range range address ≡ true → in_data regions.now address ≡ true }
    ensures outside { result ≡ false → (address : ℕ) × ((in_range range address ≡ true) × (in_data regions.now address ≡ false)) }
{
    for offset in 0..range.length {
        if !regions.in_data(range.first + offset) {
            return false;
        }
    }
    true
}
