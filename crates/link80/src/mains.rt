//! The main program among modules that are linked.

ghost use Rattle.std.specs.Prelude.{◌≡◌, ◌<◌, [], length, IfOk, IfErr};
ghost use Rattle.std.specs.List.{cons_option};
ghost use Rattle.link80.specs.Gathered.{mains_from};

use crate::fault::LinkFault;
use crate::starts::LaidModules;

/// The index of the main program, which is the module that has a start; `None` if there is none.
///
/// # Errors
/// `TwoMains` exactly if two or more modules have a start.
pub(crate) fn main_of(modules: &LaidModules) -> Result<Option<usize>, LinkFault>
    ensures main { IfOk result (λ main. cons_option main [] ≡ mains_from 0 modules.now) }
    ensures fault { IfErr result (λ fault. (fault ≡ LinkFault.TwoMains) × (1 < length (mains_from 0 modules.now))) }
{
    let mut main = None;
    for number in 0..modules.len() {
        if modules.get(number).start().is_some() {
            if main.is_some() {
                return Err(LinkFault::TwoMains);
            }
            main = Some(number);
        }
    }
    Ok(main)
}
