//! The publics of an image's file.

ghost use Rattle.std.specs.Prelude.{◌≡◌, ◌++◌, ◌⊎◌, IfOk, IfErr, OnOk};
ghost use Rattle.std.specs.List.{flat_map};
ghost use Rattle.omf_module.specs.Fault.{no_memory};
ghost use Rattle.omf_module.specs.Spelled.{FaultsFile};
ghost use Rattle.place80_text.specs.ImagePublics.{HasPublics};

use omf_model::copy_publics;
use omf_module::{Module, ModuleFault, Public, read_file};
use std::alloc::{AllocError, Global};

/// The publics in the object file of an image, in the order of their records; if it has several modules, those of
/// each module in turn.
///
/// # Errors
/// The file's first fault if the bytes are no object file; or `Memory`, only if memory runs out.
pub fn read_publics(alloc: Global, bytes: &[u8]) -> Result<Vec<Public>, ModuleFault>
    ensures read { IfOk result (λ publics. HasPublics bytes.now publics.items) }
    ensures fault { IfErr result (λ fault. (fault ≡ no_memory) ⊎ FaultsFile bytes.now fault) }
{
    let modules = read_file(alloc, bytes)?;
    Ok(publics_of(alloc, &modules)?)
}

/// A copy of the publics of all modules, in order.
fn publics_of(alloc: Global, modules: &[Module]) -> Result<Vec<Public>, AllocError>
    ensures { IfOk result (λ publics. publics.items ≡ flat_map (λ m. m.publics) modules.now) }
{
    let mut publics = Vec::new(alloc);
    append_publics(alloc, modules, &mut publics)?;
    Ok(publics)
}

/// Appends a copy of the publics of each module, in order.
fn append_publics(
    alloc: Global,
    modules: &[Module],
    publics: &mut Vec<Public>,
) -> Result<(), AllocError>
    ensures { OnOk result (publics.new.items ≡ publics.old.items ++ flat_map (λ m. m.publics) modules.now) }
{
    for from in modules {
        publics.append(&mut copy_publics(alloc, from.publics())?)?;
    }
    Ok(())
}
