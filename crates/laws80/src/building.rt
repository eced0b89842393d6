//! Modules are linked, and the linked module is located.

ghost use Rattle.std.specs.Prelude.{◌≢◌, IfOk, IfErr};
ghost use Rattle.link80.specs.declared.fault.LinkFault.TheVariants as linking;
ghost use Rattle.place80.specs.declared.place_fault.PlaceFault.TheVariants as locating;
ghost use Rattle.link80.specs.Selection.{IsSelection, modules_with};
ghost use Rattle.laws80.specs.Built.{HasTheirContents, HoldsModules, HasNoFault, CannotBeBuilt};

use crate::fault::BuildFault;
use link80::laws::linking_keeps_bytes;
use link80::{Chosen, link};
use omf_core::Name;
use omf_library::Library;
use omf_module::Module;
use place80::{Image, Options, locate};
use std::alloc::Global;

/// What [`build`] makes.
#[derive(Drop)]
pub struct Built {
    /// The image of the linked and located modules.
    pub image: Image,
    /// The modules that were taken from libraries, by library and, in each, by module.
    pub taken: Vec<Chosen>,
}

/// Links modules, and the modules that they need from libraries, into one of the given name, and
/// locates it.
///
/// The image has at each address the byte that these modules define, each content at the address of
/// its part in the linked segments, with all its references resolved, and 0 if none covers the
/// address. Its regions are the linked segments at their addresses. (ISIS-II User's Guide, LINK and
/// LOCATE.)
///
/// # Example
/// ```
/// let roots = read_file(rt.alloc(), &CALLER_AND_CALLEE)?;
/// let name = Name::new(rt.alloc(), b"PROGRAM")?;
/// let built = build(rt.alloc(), &name, &roots, &[], &Options::default())?;
/// assert_eq!(rt; built.image.start, 0x3000);
/// assert_eq!(rt; built.image.byte(0x3000), 0xCD);
/// ```
///
/// # Errors
/// `Link` with the fault of [`link`](link80::link), which comes first, or `Place` with that of
/// [`locate`](place80::locate); `Memory` only if memory runs out.
pub fn build(
    alloc: Global,
    name: &Name,
    roots: &[Module],
    libraries: &[Library],
    options: &Options,
) -> Result<Built, BuildFault>
    ensures taken { IfOk result (λ built. IsSelection roots.now libraries.now built.taken.items) }
    ensures image { IfOk result (λ built. HoldsModules options.now name.now
        (modules_with roots.now libraries.now built.taken.items) built.image) }
    ensures no_fault { IfOk result (λ built. HasNoFault options.now name.now
        (modules_with roots.now libraries.now built.taken.items)) }
    ensures chunks { IfOk result (λ built. HasTheirContents options.now name.now
        (modules_with roots.now libraries.now built.taken.items) built.image) }
    ensures own_memory { IfErr result (λ fault. (fault ≢ BuildFault.Link linking.Memory) × (fault ≢ BuildFault.Place locating.Memory)) }
    ensures fault { IfErr result (λ fault. fault ≢ BuildFault.Memory
        → CannotBeBuilt options.now name.now roots.now libraries.now fault) }
{
    linking_keeps_bytes();
    let linked = link(alloc, name, roots, libraries)?;
    let image = locate(alloc, &linked.module, options)?;
    Ok(Built {
        image,
        taken: linked.taken,
    })
}
