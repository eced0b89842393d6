//! The first fixup that refers to a name, and a public whose name differs in case alone.

ghost use Rattle.std.specs.Prelude.{◌≡◌, map, option_copied};
ghost use Rattle.std.specs.Char.{to_ascii_lowercase};
ghost use Rattle.omf_core.specs.Name.{same_name};
ghost use Rattle.omf_model.specs.ImageByte.{name_at};
ghost use Rattle.place80.specs.Uses.{refers_to, first_given, use_of, no_word, first_use_in, first_use_of, differs_in_case, alike};

use crate::causes::uses::Use;
use omf_core::Name;
use omf_model::{Content, Module, Public, Target};

/// The first fixup of the program that refers to the external with this name, with 0 as its word; `None` if none does.
pub(crate) fn first_use_of(program: &Module, name: &Name) -> Option<Use>
    ensures { result ≡ first_use_of program.now name.now }
{
    for content in program.contents() {
        if let Some(found) = first_in(program.externals(), name, content) {
            return Some(found);
        }
    }
    None
}

/// The first fixup of a content that refers to the external with this name, with 0 as its word; `None` if none does.
fn first_in(externals: &[Name], name: &Name, content: &Content) -> Option<Use>
    ensures { result ≡ first_use_in no_word (λ f. refers_to externals.now name.now f.target) content.now }
{
    for fixup in &content.fixups {
        if refers_to(externals, name, fixup.target) {
            return Some(Use {
                segment: content.segment,
                offset: fixup.offset,
                word: 0,
            });
        }
    }
    None
}

/// Whether a target is an external with this name.
fn refers_to(externals: &[Name], name: &Name, target: Target) -> bool
    ensures { result ≡ refers_to externals.now name.now target }
{
    match target {
        Target::External(index) => name_at(externals, index) == name.bytes(),
        Target::Segment(_) => false,
    }
}

/// The bytes of the name of the external with this index; none if there is no such external.
fn name_at(externals: &[Name], index: u16) -> &[u8]
    ensures { result.now ≡ name_at externals.now index }
{
    match externals.get(usize::from(index)) {
        Some(name) => name.bytes(),
        None => &[],
    }
}

/// The first public of the program whose name differs from the given one in case alone, `None` if there is none.
pub(crate) fn alike<'a>(program: &'a Module, name: &Name) -> Option<&'a Public>
    ensures { option_copied result ≡ alike program.now name.now }
{
    for public in program.publics() {
        if differs_in_case(public.name.bytes(), name.bytes()) {
            return Some(public);
        }
    }
    None
}

/// Whether two names differ, but in the case of their letters alone.
fn differs_in_case(other: &[u8], name: &[u8]) -> bool
    ensures { result ≡ differs_in_case other.now name.now }
{
    is_same_in_lower_case(other, name) && other != name
}

/// Whether two names are equal when the case of ASCII letters is ignored.
fn is_same_in_lower_case(other: &[u8], name: &[u8]) -> bool
    ensures { result ≡ same_name (map to_ascii_lowercase other.now) (map to_ascii_lowercase name.now) }
{
    other.eq_ignore_ascii_case(name)
}
