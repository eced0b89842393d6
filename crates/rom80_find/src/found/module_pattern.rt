//! Modules to look for in dumps.

ghost use Rattle.std.specs.Prelude.{◌≡◌, ◌≤◌, IfOk, IfSome, IfNone};
ghost use Rattle.std.specs.List.{AllByRecursion};
ghost use Rattle.omf_model.specs.Rules.{IsModule};
ghost use Rattle.rom80_find.specs.Dump.{dump_of};
ghost use Rattle.rom80_find.specs.Listed.{Lists};
ghost use Rattle.rom80_pattern.specs.Modules.{code_bytes, code_length};
ghost use Rattle.rom80_find.specs.Words.{AreAscending};
ghost use Rattle.rom80_find.specs.Lies.{HasModule, AreModulePlaces, AreModuleWords, MayBeListed};

use crate::dump::Dump;
use crate::found::laws::{
    pattern_places_are_module_places, pattern_words_are_module_words, pattern_words_may_be_listed,
    patterns_lie_as_modules,
};
use crate::indexed_dump::IndexedDump;
use crate::listing::{count_of_values, places};
use crate::places::Places;
use crate::words::{Word, words_at};
use omf_model::Module;
use rom80_pattern::{CodeByte, code_bytes};
use std::alloc::{AllocError, Global};
use std::marker::Model;

/// A module with the bytes of its code, which are read from its contents once, however often it is looked for. A contract sees the module.
#[derive(Drop)]
pub(crate) struct ModulePattern<'a> {
    source: &'a Module,
    code: Vec<CodeByte>,
}

impl<'a> Model for ModulePattern<'a> {
    ghost use Rattle.omf_model.specs.Modules.{ModuleValue};
    ghost use Rattle.rom80_find.specs.Patterns.{IsCodeOf};

    ghost Value = { ModuleValue };

    ghost view = { λ p. p.source.now };

    ghost invariant = { λ p. IsCodeOf p.source.now p.code.items };
}

impl<'a> ModulePattern<'a> {
    /// Reads the code of a module.
    ///
    /// # Errors
    /// `AllocError` only if memory ran out.
    pub(crate) fn of(alloc: Global, source: &'a Module) -> Result<ModulePattern<'a>, AllocError>
        ensures { IfOk result (λ pattern. pattern ≡ source.now) }
    {
        let code = code_bytes(alloc, source)?;
        Ok(ModulePattern { source, code })
    }

    /// Returns the module that is looked for.
    pub(crate) fn source(&self) -> &'a Module
        ensures { result.now ≡ self.now }
    {
        self.source
    }

    /// Returns the bytes that the module's contents define in CODE, in ascending order of their offsets.
    pub(crate) fn code(&self) -> &[CodeByte]
        ensures bytes { result.now ≡ code_bytes self.now }
        ensures short { code_length self.now ≤ 65535 }
        ensures rules { IsModule self.now }
    {
        &self.code
    }

    /// Returns the addresses at which the module lies in a dump: those for which there are bases such that the dump has, at each address
    /// that the module's contents in CODE cover, the byte of the last of them, relocated by the bases. CODE's own base is the address. A
    /// module without a byte in CODE lies nowhere.
    ///
    /// # Errors
    /// `AllocError` only if memory ran out.
    pub(crate) fn places(&self, alloc: Global, dump: &IndexedDump<'_>) -> Result<Places, AllocError>
        ensures { IfOk result (λ places. Lists (AreModulePlaces dump.now self.now) places) }
    {
        patterns_lie_as_modules();
        pattern_places_are_module_places();
        let code = self.code();
        if code.is_empty() {
            return Ok(Places::new(alloc));
        }
        let found = places(alloc, dump, code)?;
        Ok(found)
    }

    /// Returns the words of the module's targets if it lies at `address`, by ascending numbers: of a segment its base, of STACK its top,
    /// of an external what its name stands for. A target is listed exactly if all bases with which the module lies there give it the
    /// same word; absolute 0 and CODE aren't listed, and of externals with one name only the first is. `None` exactly if the module
    /// doesn't lie there.
    ///
    /// # Errors
    /// `AllocError` only if memory ran out.
    pub(crate) fn words_at(
        &self,
        alloc: Global,
        dump: Dump<'_>,
        address: u16,
    ) -> Result<Option<Vec<Word>>, AllocError>
        ensures some { IfOk result (λ found. IfSome found (λ words. AreModuleWords (dump_of dump.entry) self.now address words.items)) }
        ensures ascending { IfOk result (λ found. IfSome found (λ words. AreAscending words.items)) }
        ensures listed { IfOk result (λ found. IfSome found (λ words. AllByRecursion (λ w. MayBeListed self.now w.target) words.items)) }
        ensures none { IfOk result (λ found. IfNone found (HasModule (dump_of dump.entry) self.now address → ⊥)) }
    {
        patterns_lie_as_modules();
        pattern_words_are_module_words();
        pattern_words_may_be_listed();
        let code = self.code();
        if code.is_empty() {
            return Ok(None);
        }
        let found = words_at(alloc, dump, code, count_of_values(code), address)?;
        match found {
            Some(words) => Ok(Some(words)),
            None => Ok(None),
        }
    }
}
