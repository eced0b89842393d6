//! What LINK keeps, over the definitions alone. Each law is ensured by a function that does nothing: a layer above that calls
//! it has the law in its proof.

ghost use Rattle.link80.specs.LinkLaws.{LinkedChunksAreTheModules, LinkedBytesAreTheModules, LinkedStartIsTheModules};
ghost use Rattle.link80.specs.LinkLaws.{LinkedLengthsAreWords, LinkedModuleKeepsRules, LaidPartsEndAtWords, PartsEndLater};
ghost use Rattle.link80.specs.DuplicateLaws.{FirstAgainIsTheFirst, NoneAgainWhereAllAreNew, DuplicateIsTheFirst};

use omf_model::relocation_laws::{
    adding_twice_is_adding_once, commons_are_found_by_name, parts_of_one_start_at_zero,
    sound_modules_keep_rules,
};

/// The linked module alone defines the bytes that its modules define, whatever the segments' bases,
/// the stack's top and the values of unresolved names, unless a fixup of it is for the high byte of
/// an address in a segment whose base isn't a multiple of 256. It starts where its main program
/// does.
pub fn linking_keeps_bytes()
    ensures chunks { LinkedChunksAreTheModules }
    ensures bytes { LinkedBytesAreTheModules }
    ensures start { LinkedStartIsTheModules }
{
    adding_twice_is_adding_once();
    parts_of_one_start_at_zero();
    sound_modules_keep_rules();
}

/// The linked module keeps the rules of modules if its modules do and link has no fault; the
/// lengths of its segments are then at most 65535, if those of its modules are.
pub fn linked_module_keeps_rules()
    ensures rules { LinkedModuleKeepsRules }
    ensures words { LinkedLengthsAreWords }
{
    sound_modules_keep_rules();
    commons_are_found_by_name();
}

/// If link has no fault, the parts of CODE, DATA and STACK that lie one after another end at 65535
/// at most; and parts never end before the offset after which they are laid.
pub fn laid_parts_end_at_words()
    ensures words { LaidPartsEndAtWords }
    ensures later { PartsEndLater }
{}

/// The duplicate that LINK reports is the first public, by module and then by record, that has the
/// name of an earlier one; there is none exactly if no public has the name of an earlier one.
pub fn duplicate_is_the_first()
    ensures name { FirstAgainIsTheFirst }
    ensures none { NoneAgainWhereAllAreNew }
    ensures fault { DuplicateIsTheFirst }
{}
