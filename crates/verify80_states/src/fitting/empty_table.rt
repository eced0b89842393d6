//! A table that says nothing.

ghost use Rattle.std.specs.Prelude.{◌≡◌, ℕ, Bool, IfOk, length, map};
ghost use Rattle.std.specs.List.{range_with_len};
ghost use Rattle.image80.specs.Regions.{AreRegions};
ghost use Rattle.verify80.specs.{Looking.code_of, Reached.AreReached};
ghost use Rattle.verify80_states.specs.{FittingTable.nothing_at, Runs.IsKept};

use crate::bytes::bytes_stay_bytes;
use crate::fitting::fitting::Placed;
use crate::states::State;
use decode80::Fetched;
use image80::Image;
use image80::laws::code_data_and_stack_are_apart;
use std::alloc::{AllocError, Global};

/// A table that fits each image: its state at each address says nothing.
///
/// # Errors
/// `AllocError` if memory runs out.
pub fn anything(
    alloc: Global,
    image: &Image,
    reached: &[Option<Fetched>],
) -> Result<Vec<Placed>, AllocError>
    requires reached { AreReached (code_of image.now) reached.now }
    requires whole { length reached.now ≡ 65536 }
    requires rules { AreRegions image.now.regions }
    ensures { IfOk result (λ table. (is_quiet : ℕ → Bool) → IsKept image.now is_quiet table.items) }
{
    bytes_stay_bytes();
    code_data_and_stack_are_apart();
    let table = nothing_everywhere(alloc)?;
    Ok(table)
}

/// A state at each address that says nothing.
fn nothing_everywhere(alloc: Global) -> Result<Vec<Placed>, AllocError>
    ensures { IfOk result (λ table. table.items ≡ map nothing_at (range_with_len 0 65536)) }
{
    (0..65_536_u32)
        .map(|at| Placed {
            at: at as u16,
            state: State::ANY,
            hint: 0,
        })
        .collect(alloc)
}
