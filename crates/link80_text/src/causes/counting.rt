//! The modules that declare a name, and those that are main programs.

ghost use Rattle.std.specs.Prelude.{◌≡◌, ◌++◌, map, IfOk, OnOk};
ghost use Rattle.link80_text.specs.Causes.{declarations_in, declarations, mains};

use omf_core::Name;
use omf_model::Module;
use std::alloc::{AllocError, Global};

/// The index of each module that declares the name, once for each of its publics that has it. `Err`
/// only if memory runs out.
pub(crate) fn declarations(
    alloc: Global,
    modules: &[&Module],
    name: &Name,
) -> Result<Vec<usize>, AllocError>
    ensures { IfOk result (λ numbers. numbers.items ≡ declarations (map (λ m. m.now) modules.now) name.now) }
{
    let mut numbers = Vec::new(alloc);
    for (number, source) in modules.iter().enumerate() {
        append_declarations(&mut numbers, number, source, name)?;
    }
    Ok(numbers)
}

/// Appends `number`, the index of the module, once for each of its publics that has the name. `Err`
/// only if memory runs out.
fn append_declarations(
    numbers: &mut Vec<usize>,
    number: usize,
    source: &Module,
    name: &Name,
) -> Result<(), AllocError>
    ensures { OnOk result (numbers.new.items ≡ numbers.old.items ++ declarations_in name.now (number, source.now)) }
{
    for public in source.publics() {
        if public.name == *name {
            numbers.push(number)?;
        }
    }
    Ok(())
}

/// The indices of the modules that have a start. `Err` only if memory runs out.
pub(crate) fn mains(alloc: Global, modules: &[&Module]) -> Result<Vec<usize>, AllocError>
    ensures { IfOk result (λ numbers. numbers.items ≡ mains (map (λ m. m.now) modules.now)) }
{
    let mut numbers = Vec::new(alloc);
    for (number, source) in modules.iter().enumerate() {
        if source.start().is_some() {
            numbers.push(number)?;
        }
    }
    Ok(numbers)
}
