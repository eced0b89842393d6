//! Regions with cases.

ghost use Rattle.std.specs.Prelude.{◌≡◌, [], All, IfOk};
ghost use Rattle.image80.specs.Case.{AreByAddress, IsCase};

use image80::laws::text_of_regions_is_read_as_itself;
use image80::{Case, Regions, RegionsFault, read_regions};
use std::alloc::{AllocError, Global};
use verify80_cases::regions_with_cases;

/// Regions of the same ranges with these cases, which must be by address, one for an address at
/// most, each with ascending targets, at least one. `regions` must have no cases. The result is
/// made by reading the text of such regions.
///
/// # Errors
/// `AllocError` only if memory runs out.
pub(crate) fn with_cases(
    alloc: Global,
    regions: &Regions,
    cases: &[Case],
) -> Result<Regions, AllocError>
    requires none { regions.now.cases ≡ [] }
    requires by_address { AreByAddress cases.now }
    requires each { All IsCase cases.now }
    ensures { IfOk result (λ made. made ≡ record regions.now { cases = cases.now }) }
{
    text_of_regions_is_read_as_itself();
    let text = regions_with_cases(alloc, regions, cases)?;
    match read_regions(alloc, &text) {
        Ok(made) => Ok(made),
        Err(fault) => match fault {
            RegionsFault::Memory => Err(AllocError),
            // The text is one of regions.
            _ => unreachable!(),
        },
    }
}
