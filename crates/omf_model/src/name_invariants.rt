//! The names of a module are names: their type keeps it, and a look at each of them makes it known to the proof.

ghost use Rattle.std.specs.Prelude.{IsTrue};
ghost use Rattle.std.specs.List.{list_all};
ghost use Rattle.omf_core.specs.Name.{is_name};
ghost use Rattle.omf_model.specs.Rules.{has_names};

use crate::parts::Parts;
use crate::symbols::{Common, Public};
use omf_core::Name;

/// For the proof alone: the names of the commons keep the rules of names.
fn assert_common_names(commons: &[Common])
    ensures { IsTrue (list_all (λ c. is_name c.name) commons.now) }
{
    for common in commons {
        let _ = common.name.bytes();
    }
}

/// For the proof alone: the names of the publics keep the rules of names.
fn assert_public_names(publics: &[Public])
    ensures { IsTrue (list_all (λ p. is_name p.name) publics.now) }
{
    for public in publics {
        let _ = public.name.bytes();
    }
}

/// For the proof alone: the externals keep the rules of names.
fn assert_external_names(externals: &[Name])
    ensures { IsTrue (list_all is_name externals.now) }
{
    for name in externals {
        let _ = name.bytes();
    }
}

/// For the proof alone: all names in the parts keep the rules of names. Nothing is changed.
pub(crate) fn assert_names(parts: &Parts)
    ensures { IsTrue (has_names parts.now) }
{
    let _ = parts.name.bytes();
    assert_common_names(&parts.commons);
    assert_public_names(&parts.publics);
    assert_external_names(&parts.externals);
}
