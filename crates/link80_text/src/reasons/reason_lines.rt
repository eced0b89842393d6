//! The lines of the modules that were taken, with their reasons.

ghost use Rattle.std.specs.Prelude.{◌≡◌, ◌++◌, true, false, length, map, slice_get, Some, IfOk, IfSome, OnOk};
ghost use Rattle.link80.specs.Selection.{IsSelection};
ghost use Rattle.link80_text.specs.Found.{AreReasonsFor, PrintsLine, PrintsLines};
ghost use Rattle.link80_text.specs.Reasons.{PrintsReasons, reason_line};

use crate::modules::{linked_modules, module_at};
use crate::reasons::checked::checked_needs;
use crate::reasons::search::Need;
use crate::shown::append_path;
use crate::words::{append_word, path_of};
use link80::Chosen;
use omf_core::Name;
use omf_library::Library;
use omf_model::Module;
use std::alloc::{AllocError, Global};
use std::marker::Model;

/// Appends a line for each module that was taken, in order: its name, a name for which it was
/// taken, a module that needs that name, and the path of its library, as
/// `TAKEN @P0029 FOR @P0029 BY CALC FROM plm80.lib`. Of the modules that need it, the nearest to
/// the roots is named, of several the first, with the first of its names that need it; so following
/// BY leads to a root. `taken` must be the modules that a link of these roots takes from these
/// libraries, in order, as `link80::select` finds them. `paths` has the path of each library; one
/// without has an empty path. Returns `false`, and appends nothing, if the reasons aren't found.
///
/// # Errors
/// `AllocError` only if memory runs out; the text may then have some of the lines.
pub fn append_reasons(
    alloc: Global,
    text: &mut Vec<u8>,
    roots: &[Module],
    libraries: &[Library],
    taken: &[Chosen],
    paths: &[&[u8]],
) -> Result<bool, AllocError>
    requires { IsSelection roots.now libraries.now taken.now }
    ensures reasons { IfOk result (λ found. found ≡ true → PrintsReasons roots.now libraries.now taken.now
        (map (λ p. p.now) paths.now) taken.now text.old.items text.new.items) }
    ensures none { IfOk result (λ found. found ≡ false → text.new.items ≡ text.old.items) }
{
    let Some(reasons) = Reasons::find(alloc, roots, libraries, taken)? else {
        return Ok(false);
    };
    reasons.append_lines(text, taken, paths)?;
    Ok(true)
}

/// Why modules were taken: for each the need of another one, such that following needs reaches a
/// root.
#[derive(Drop)]
struct Reasons<'a> {
    /// The modules that are linked in any case.
    roots: &'a [Module],
    /// The libraries that modules are taken from.
    libraries: &'a [Library],
    /// The places of the modules that were taken.
    taken: &'a [Chosen],
    /// The linked modules: the roots, and then those that were taken.
    modules: Vec<&'a Module>,
    /// For each module that was taken, a need that explains it.
    needs: Vec<Need>,
}

impl<'a> Model for Reasons<'a> {
    ghost use Rattle.std.specs.Prelude.{map};
    ghost use Rattle.link80_text.specs.Found.{AreReasonsIn, ReasonsValue};

    ghost Value = { ReasonsValue };

    ghost view = { λ s. record { roots = s.roots.now; libraries = s.libraries.now; taken = s.taken.now; named = map (λ need. need.by) s.needs.items } };

    ghost invariant = { λ s. AreReasonsIn s.roots.now s.libraries.now s.taken.now (map (λ m. m.now) s.modules.items) s.needs.items };
}

impl<'a> Reasons<'a> {
    /// Finds why the modules `taken` from the libraries were taken for the roots; `None` if the
    /// search doesn't find it. `taken` must be all the modules that a link of the roots takes from
    /// them, in order. `Err` only if memory runs out.
    fn find(
        alloc: Global,
        roots: &'a [Module],
        libraries: &'a [Library],
        taken: &'a [Chosen],
    ) -> Result<Option<Reasons<'a>>, AllocError>
        requires { IsSelection roots.now libraries.now taken.now }
        ensures { IfOk result (λ found. IfSome found (λ s. AreReasonsFor roots.now libraries.now taken.now s)) }
    {
        let modules = linked_modules(alloc, roots, libraries, taken)?;
        match checked_needs(alloc, roots.len(), &modules, taken.len())? {
            Some(needs) => Ok(Some(Reasons {
                roots,
                libraries,
                taken,
                modules,
                needs,
            })),
            None => Ok(None),
        }
    }

    /// Appends a line for each module that was taken; `paths` has the path of each library. `taken`
    /// must be the modules whose reasons these are. `Err` only if memory runs out.
    fn append_lines(
        &self,
        text: &mut Vec<u8>,
        taken: &[Chosen],
        paths: &[&[u8]],
    ) -> Result<(), AllocError>
        requires { taken.now ≡ self.now.taken }
        ensures { OnOk result (PrintsLines self.now (map (λ p. p.now) paths.now) (length taken.now) text.old.items text.new.items) }
    {
        for (number, place) in taken.iter().enumerate() {
            self.append_line(text, paths, number, *place)?;
        }
        Ok(())
    }

    /// Appends the line of the module at `place`, which must have index `number` among those that
    /// were taken. `Err` only if memory runs out.
    fn append_line(
        &self,
        text: &mut Vec<u8>,
        paths: &[&[u8]],
        number: usize,
        place: Chosen,
    ) -> Result<(), AllocError>
        requires { slice_get self.now.taken number ≡ Some place }
        ensures { OnOk result (PrintsLine self.now (map (λ p. p.now) paths.now) number place text.old.items text.new.items) }
    {
        let need = self.needs[number];
        let by = self.modules[need.by];
        let name = &by.externals()[need.name];
        match module_at(self.libraries, place) {
            Some(provider) => append_line(
                text,
                provider.name(),
                name,
                by.name(),
                path_of(paths, place.library),
            ),
            None => unreachable!(),
        }
    }
}

/// Appends the line of the module `taken` for the need that the module `by` has of `name`, from the
/// library at `path`. `Err` only if memory runs out.
fn append_line(
    text: &mut Vec<u8>,
    taken: &Name,
    name: &Name,
    by: &Name,
    path: &[u8],
) -> Result<(), AllocError>
    ensures { OnOk result (text.new.items ≡ text.old.items ++ reason_line taken.now name.now by.now path.now) }
{
    append_word(text, b"TAKEN ".as_slice(), taken.bytes())?;
    append_word(text, b" FOR ".as_slice(), name.bytes())?;
    append_word(text, b" BY ".as_slice(), by.bytes())?;
    text.extend_from_slice(b" FROM ".as_slice())?;
    append_path(text, path)?;
    text.push(b'\n')?;
    Ok(())
}
