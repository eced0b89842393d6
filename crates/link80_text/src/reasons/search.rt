//! A search for the nearest module that needs each one that was taken, from the roots on: each need is followed once. Nothing rests on
//! it: what it finds is checked (`checked`).

use crate::reasons::linked::LinkedModules;
use std::alloc::{AllocError, Global};
use std::mem;

/// Why a module was taken: another module has an external that it declares.
#[derive(Clone, Copy)]
pub(crate) struct Need {
    /// The index of the module that has the external, among those that are linked.
    pub by: usize,
    /// The index of the external in that module.
    pub name: usize,
    /// The number of steps from a root to the module taken, each from a module to one that it
    /// needs.
    pub steps: usize,
}

impl Need {
    /// Whether this need is to be preferred to the known one: there is none, or it has the same
    /// number of steps and an earlier module, or the same module and an earlier name.
    fn is_better(self, known: Option<Need>) -> bool {
        match known {
            None => true,
            Some(known) => {
                known.steps == self.steps && (self.by, self.name) < (known.by, known.name)
            }
        }
    }
}

/// For each of the `count` modules that were taken, the need with the fewest steps, of several the
/// first by module and then by name. The list ends before the first module that the search doesn't
/// reach. `Err` only if memory runs out.
pub(crate) fn nearest_needs(
    alloc: Global,
    linked: &LinkedModules<'_>,
    count: usize,
) -> Result<Vec<Need>, AllocError> {
    let mut found: Vec<Option<Need>> = vec![in alloc; None; count]?;
    let mut next = numbers_below(alloc, linked.roots())?;
    for steps in 1..usize::MAX {
        if next.is_empty() {
            break;
        }
        let reached = mem::replace(&mut next, Vec::new(alloc));
        for number in &reached {
            follow(linked, *number, steps, &mut found, &mut next)?;
        }
    }
    let mut needs = Vec::new(alloc);
    for need in found {
        match need {
            Some(need) => needs.push(need)?,
            None => return Ok(needs),
        }
    }
    Ok(needs)
}

/// The numbers from 0 to `count` - 1. `Err` only if memory runs out.
fn numbers_below(alloc: Global, count: usize) -> Result<Vec<usize>, AllocError> {
    let mut numbers = Vec::new(alloc);
    for number in 0..count {
        numbers.push(number)?;
    }
    Ok(numbers)
}

/// Notes in `found` the needs of the linked module with index `number`, each of this number of
/// steps, and appends to `next` the modules that are found for the first time. `Err` only if memory
/// runs out.
fn follow(
    linked: &LinkedModules<'_>,
    number: usize,
    steps: usize,
    found: &mut [Option<Need>],
    next: &mut Vec<usize>,
) -> Result<(), AllocError> {
    let Some(module) = linked.module(number) else {
        return Ok(());
    };
    for (name, external) in module.externals().iter().enumerate() {
        if let Some(to) = linked.target(external.bytes()) {
            let need = Need {
                by: number,
                name,
                steps,
            };
            if let Some(known) = found.get_mut(to) {
                if known.is_none() {
                    next.push(linked.roots().saturating_add(to))?;
                }
                if need.is_better(*known) {
                    *known = Some(need);
                }
            }
        }
    }
    Ok(())
}
