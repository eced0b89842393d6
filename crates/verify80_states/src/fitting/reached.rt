//! Where a PCHL goes.

ghost use Rattle.std.specs.Prelude.{◌≡◌};
ghost use Rattle.verify80.specs.Looking.{declared_targets};

use image80::Regions;

/// The targets that are declared for a PCHL at an address: an empty slice, if none are.
pub fn targets_at(regions: &Regions, at: u16) -> &[u16]
    ensures { result.now ≡ declared_targets regions.now at }
{
    regions.targets(at).unwrap_or(&[])
}
