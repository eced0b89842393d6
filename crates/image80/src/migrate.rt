//! The migration of regions texts to version 2.

ghost use Rattle.std.specs.Prelude.{◌≡◌, IfErr, OnOk, OnErr};
ghost use Rattle.image80.specs.RegionsText.{Migrates, Refuses};
ghost use Rattle.image80.specs.declared.fault.RegionsFault.TheVariants.{BadVersion};

use crate::fault::RegionsFault;
use crate::laws::text_of_regions_is_read_as_itself;
use crate::read::read_regions;
use crate::write::write_regions2;
use std::alloc::Global;

/// Reads a regions text of either version and appends to `out` the text of version 2 of the same regions; migrating
/// that text again gives the same text. The faults are those of [`read_regions`]; after one, `out` is unchanged.
pub fn migrate_regions(alloc: Global, bytes: &[u8], out: &mut Vec<u8>) -> Result<(), RegionsFault>
    ensures migrated { OnOk result (Migrates bytes.now out.old.items out.new.items) }
    ensures refused { IfErr result (Refuses bytes.now) }
    ensures version { IfErr result (λ fault. Refuses bytes.now BadVersion → fault ≡ BadVersion) }
    ensures err { OnErr result (out.new.items ≡ out.old.items) }
{
    text_of_regions_is_read_as_itself();
    let regions = read_regions(alloc, bytes)?;
    Ok(write_regions2(alloc, &regions, out)?)
}
