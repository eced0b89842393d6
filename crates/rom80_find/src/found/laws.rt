//! A module lies in a dump exactly if its pattern does: what `pattern` and `listing` answer of bytes that are halves of values,
//! said of the chunks that the module's contents are if LOCATE gives it bases. Each law is ensured by a function that does
//! nothing.

ghost use Rattle.rom80_find.specs.Laws.{PatternsLieAsModules, PatternPlacesAreModulePlaces, PatternWordsAreModuleWords, PatternWordsMayBeListed};
ghost use Rattle.rom80_find.specs.LinkLaws.{LinkHasTheBytes};

use omf_model::relocation_laws::{
    commons_are_found_by_name, parts_of_one_start_at_zero, sound_modules_keep_rules,
};

/// A law: there are values of targets with which a module's code lies at an address and isn't empty, exactly if there are bases with which
/// the dump has, at each address that the module's contents in CODE cover, the byte of the last of them, and there is such an address.
pub(crate) fn patterns_lie_as_modules()
    ensures { PatternsLieAsModules }
{
    sound_modules_keep_rules();
    commons_are_found_by_name();
    parts_of_one_start_at_zero();
}

/// A law: the addresses at which the code of a module lies are those at which the module lies.
pub(crate) fn pattern_places_are_module_places()
    ensures { PatternPlacesAreModulePlaces }
{
    patterns_lie_as_modules();
}

/// A law: a target's value has only one word with which the code lies at an address, exactly if bases with which the module lies there
/// can give the target only that word.
pub(crate) fn pattern_words_are_module_words()
    ensures { PatternWordsAreModuleWords }
{
    sound_modules_keep_rules();
    commons_are_found_by_name();
    parts_of_one_start_at_zero();
}

/// A law: the targets of which the code leaves only one word are targets of the module, none of them absolute 0 or CODE, and of externals
/// with one name only the first.
pub(crate) fn pattern_words_may_be_listed()
    ensures { PatternWordsMayBeListed }
{
    sound_modules_keep_rules();
}

/// A law: if each module of a link is sound and lies in a dump by bases of its own that place its segments and externals as the link's
/// bases do (`GoWith`), then at each address that contents cover, all of them in CODE, the dump has the byte that LINK and LOCATE give it.
pub fn link_of_found_modules_has_the_bytes()
    ensures { LinkHasTheBytes }
{
    sound_modules_keep_rules();
}
