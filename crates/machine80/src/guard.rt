//! Checks of the bytes that an instruction touches: the end at the first that it may not.

ghost use Rattle.std.specs.Prelude.{◌≡◌, [], ◌∷◌, None};
ghost use Rattle.std.specs.Result.{result_err};
ghost use Rattle.image80.specs.Range.{in_range};
ghost use Rattle.image80.specs.Regions.{in_data};
ghost use Rattle.machine80.specs.Effects.{pushed_bytes, popped_bytes};
ghost use Rattle.machine80.specs.Step.{first_outside, ends_at};
ghost use Rattle.machine80.specs.declared.end.End.TheVariants.{Stack, Direct, StoreOutside};

use crate::end::End;
use decode80::{ahead, behind};
use image80::Regions;

/// Checks that the two bytes below the stack pointer, which a push writes, are bytes of the stack; `Err` is
/// `End::Stack` with the first that isn't, the higher one first.
#[inline]
pub(crate) fn guard_push(sp: u16, regions: &Regions) -> Result<(), End>
    ensures { result_err result ≡ ends_at (first_outside (in_range regions.now.stack) (pushed_bytes sp)) Stack None }
{
    guard_stack(behind(sp, 1), regions)?;
    guard_stack(behind(sp, 2), regions)
}

/// Checks that the byte at the stack pointer and the one above it, which a pop reads, are bytes of the stack; `Err`
/// is `End::Stack` with the first that isn't.
#[inline]
pub(crate) fn guard_pop(sp: u16, regions: &Regions) -> Result<(), End>
    ensures { result_err result ≡ ends_at (first_outside (in_range regions.now.stack) (popped_bytes sp)) Stack None }
{
    guard_stack(sp, regions)?;
    guard_stack(ahead(sp, 1), regions)
}

/// Checks that a byte that is pushed or popped is a byte of the stack; `Err` is `End::Stack` with its address if it
/// isn't.
#[inline]
fn guard_stack(address: u16, regions: &Regions) -> Result<(), End>
    ensures { result_err result ≡ ends_at (first_outside (in_range regions.now.stack) (address ∷ [])) Stack None }
{
    if regions.stack().contains(address) {
        Ok(())
    } else {
        Err(End::Stack(address))
    }
}

/// Checks that a byte that STA or SHLD stores to is data; `Err` is `End::Direct` with its address if it isn't.
#[inline]
pub(crate) fn guard_direct(address: u16, regions: &Regions) -> Result<(), End>
    ensures { result_err result ≡ ends_at (first_outside (in_data regions.now) (address ∷ [])) Direct None }
{
    if regions.in_data(address) {
        Ok(())
    } else {
        Err(End::Direct(address))
    }
}

/// Checks that a byte that is stored to through a register pair is data; `Err` is `End::StoreOutside` with its
/// address if it isn't.
#[inline]
pub(crate) fn guard_store(address: u16, regions: &Regions) -> Result<(), End>
    ensures { result_err result ≡ ends_at (first_outside (in_data regions.now) (address ∷ [])) StoreOutside None }
{
    if regions.in_data(address) {
        Ok(())
    } else {
        Err(End::StoreOutside(address))
    }
}
