//! The targets of a module's fixups with what they stand for.

ghost use Rattle.std.specs.Prelude.{◌≡◌, length, IsTrue, IfOk};
ghost use Rattle.omf_model.specs.Rules.{has_target, IsModule};
ghost use Rattle.rom80_pattern.specs.Modules.{resolved};
ghost use Rattle.rom80_pattern.specs.Names.{AreExternals};

use crate::names::Names;
use omf_model::{Module, Target};
use std::alloc::{AllocError, Global};
use std::marker::Model;

/// A value of a target plus an addend: what a fixup's target stands for once the names of the module's own publics are looked up.
#[derive(Clone, Copy)]
pub struct Resolved {
    /// A segment, or an external that the module doesn't declare.
    pub target: Target,
    /// The number to be added to the target's value, modulo 65536.
    pub addend: u16,
}

/// A module with what each of its externals stands for. A contract sees the module.
#[derive(Drop)]
pub(crate) struct ResolvedModule<'a> {
    source: &'a Module,
    externals: Vec<Resolved>,
}

impl<'a> Model for ResolvedModule<'a> {
    ghost use Rattle.omf_model.specs.Modules.{ModuleValue};
    ghost use Rattle.rom80_pattern.specs.Names.{AreExternals};

    ghost Value = { ModuleValue };

    ghost view = { λ r. r.source.now };

    ghost invariant = { λ r. AreExternals r.source.now r.externals.items };
}

impl<'a> ResolvedModule<'a> {
    /// Looks up each external's name among a module's publics, and the other externals by their names.
    pub(crate) fn of(alloc: Global, source: &'a Module) -> Result<ResolvedModule<'a>, AllocError>
        ensures { IfOk result (λ resolved. resolved ≡ source.now) }
    {
        let externals = resolve_externals(alloc, source)?;
        Ok(ResolvedModule { source, externals })
    }

    /// Returns the module whose targets are resolved.
    pub(crate) fn source(&self) -> &'a Module
        ensures { result.now ≡ self.now }
    {
        self.source
    }

    /// Returns what the target of a fixup in the module stands for. A segment stands for its base; an external that the module itself
    /// declares stands for the public's place, and another one for the word of the first external with its name.
    pub(crate) fn resolve(&self, target: Target) -> Resolved
        requires { IsTrue (has_target self.now.commons (length self.now.externals) target) }
        ensures { result ≡ resolved self.now target }
    {
        match target {
            Target::Segment(_) => Resolved { target, addend: 0 },
            Target::External(index) => self.externals[usize::from(index)],
        }
    }
}

/// Returns what each external of a module stands for, up to the greatest index that a fixup can have.
fn resolve_externals(alloc: Global, source: &Module) -> Result<Vec<Resolved>, AllocError>
    ensures { IfOk result (λ externals. AreExternals source.now externals.items) }
{
    let mut names = Names::of_publics(alloc, source)?;
    let names_of_externals = source.externals();
    let mut externals = Vec::new(alloc);
    for index in 0..names_of_externals.len().min(65536) {
        let resolved = names.resolve_external(&names_of_externals[index], index as u16)?;
        externals.push(resolved)?;
    }
    Ok(externals)
}
