//! Stores to data. If a byte that is stored is no data, nothing changes.

ghost use Rattle.std.specs.Prelude.{◌≡◌, ◌∷◌, [], None, OnOk, OnErr};
ghost use Rattle.std.specs.Result.{result_err};
ghost use Rattle.decode80.specs.Fetch.{ahead};
ghost use Rattle.image80.specs.Regions.{in_data};
ghost use Rattle.machine80.specs.declared.end.End.TheVariants.{Direct, StoreOutside};
ghost use Rattle.machine80.specs.Effects.{stored};
ghost use Rattle.machine80.specs.Step.{first_outside, ends_at};

use crate::bus::Bus;
use crate::end::End;
use crate::guard::{guard_direct, guard_store};
use decode80::ahead;
use image80::Regions;

/// Stores a byte at the address that STA names. `Err` is `End::Direct` if that isn't data; then nothing has changed.
#[inline]
pub(crate) fn store_direct<B: Bus>(
    address: u16,
    byte: u8,
    bus: &mut B,
    regions: &Regions,
) -> Result<(), End>
    ensures end { result_err result ≡ ends_at (first_outside (in_data regions.now) (address ∷ [])) Direct None }
    ensures kept { OnErr result (B.memory bus.new ≡ B.memory bus.old) }
    ensures memory { OnOk result (B.memory bus.new ≡ stored (B.memory bus.old) ((address, byte) ∷ [])) }
{
    guard_direct(address, regions)?;
    bus.store(address, byte);
    Ok(())
}

/// Stores a low byte at the address that SHLD names and a high byte at the next one. `Err` is `End::Direct` with the
/// first of them that isn't data; then nothing has changed.
#[inline]
pub(crate) fn store_word<B: Bus>(
    address: u16,
    low: u8,
    high: u8,
    bus: &mut B,
    regions: &Regions,
) -> Result<(), End>
    ensures end { result_err result ≡ ends_at (first_outside (in_data regions.now) (address ∷ ahead address 1 ∷ [])) Direct None }
    ensures kept { OnErr result (B.memory bus.new ≡ B.memory bus.old) }
    ensures memory { OnOk result (B.memory bus.new ≡ stored (B.memory bus.old) ((address, low) ∷ (ahead address 1, high) ∷ [])) }
{
    let second = ahead(address, 1);
    guard_direct(address, regions)?;
    guard_direct(second, regions)?;
    bus.store(address, low);
    bus.store(second, high);
    Ok(())
}

/// Stores a byte where a register pair points to, as MOV M, MVI M, STAX, INR M and DCR M do. `Err` is
/// `End::StoreOutside` if that isn't data; then nothing has changed.
#[inline]
pub(crate) fn store_byte<B: Bus>(
    address: u16,
    byte: u8,
    bus: &mut B,
    regions: &Regions,
) -> Result<(), End>
    ensures end { result_err result ≡ ends_at (first_outside (in_data regions.now) (address ∷ [])) StoreOutside None }
    ensures kept { OnErr result (B.memory bus.new ≡ B.memory bus.old) }
    ensures memory { OnOk result (B.memory bus.new ≡ stored (B.memory bus.old) ((address, byte) ∷ [])) }
{
    guard_store(address, regions)?;
    bus.store(address, byte);
    Ok(())
}
