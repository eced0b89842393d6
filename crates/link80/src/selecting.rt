//! Which modules of its libraries a link takes.

ghost use Rattle.std.specs.Prelude.{◌≡◌, ◌↔◌, Contains, IfOk, IfErr};
ghost use Rattle.link80_select.specs.Selected.{IsChosen, AreAscending};

use crate::fault::LinkFault;
use link80_select::Chosen;
use omf_library::Library;
use omf_model::Module;
use std::alloc::Global;

/// The modules that a link of these roots takes from these libraries: for each external of a root
/// that no root declares, the first module that declares it, and so on for the modules taken. They
/// are sorted by library and, in each, by module. (ISIS-II User's Guide, LINK.)
///
/// # Errors
/// [`LinkFault::Memory`] only, if memory runs out.
pub fn select(
    alloc: Global,
    roots: &[Module],
    libraries: &[Library],
) -> Result<Vec<Chosen>, LinkFault>
    ensures chosen { IfOk result (λ taken.
        (place : Chosen) → Contains taken.items place ↔ IsChosen roots.now libraries.now place) }
    ensures ascending { IfOk result (λ taken. AreAscending taken.items) }
    ensures fault { IfErr result (λ fault. fault ≡ LinkFault.Memory) }
{
    Ok(link80_select::select(alloc, roots, libraries)?)
}
