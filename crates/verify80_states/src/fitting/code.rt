//! The bytes of a program's code, by address.

ghost use Rattle.std.specs.Prelude.{◌≡◌, IfOk, length, map};
ghost use Rattle.std.specs.List.{range_with_len};
ghost use Rattle.image80.specs.RegionMap.{Maps};
ghost use Rattle.verify80_states.specs.Steps.{AreCodeBytes, code_in};

use image80::{Image, RegionMap, Regions};
use std::alloc::{AllocError, Global};

/// For each address the byte that the image has there, if code is there.
///
/// # Errors
/// `AllocError` if memory runs out.
pub fn code_bytes(alloc: Global, image: &Image) -> Result<Vec<Option<u8>>, AllocError>
    ensures { IfOk result (λ code. AreCodeBytes image.now code.items) }
{
    let map = RegionMap::new(alloc, &image.regions)?;
    let memory = image.memory(alloc)?;
    let code = bytes_of(alloc, &image.regions, &map, &memory)?;
    Ok(code)
}

/// For each address the byte of a memory, if code is there.
fn bytes_of(
    alloc: Global,
    regions: &Regions,
    areas: &RegionMap,
    memory: &[u8],
) -> Result<Vec<Option<u8>>, AllocError>
    requires maps { Maps regions.now areas.now }
    requires whole { length memory.now ≡ 65536 }
    ensures { IfOk result (λ code. code.items ≡ map (code_in regions.now memory.now) (range_with_len 0 65536)) }
{
    (0..65_536_u32)
        .map(|at| areas.is_code(at as u16).then_some(memory[at as usize]))
        .collect(alloc)
}
