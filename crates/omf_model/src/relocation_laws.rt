//! What holds of patches, of parts and of the bytes that modules define, whatever calls are made. Each law is ensured by a
//! function that does nothing: a layer above that calls it has the law in its proof.

ghost use Rattle.omf_model.specs.PatchLaws.{LowTwice, BothTwice, HighTwice, PatchedTwice, TwoPassesAreOne};
ghost use Rattle.omf_model.specs.SoundModules.{SoundModulesKeepRules, CommonsByName, PartsOfOneStartAtZero};

/// Adding first one word to a reference and then another is adding their sum: to a low byte, to a
/// word, and to a high byte if one of the two words is a multiple of 256; and so in the bytes of a
/// content, for one fixup and for all of them together.
pub fn adding_twice_is_adding_once()
    ensures low { LowTwice }
    ensures both { BothTwice }
    ensures high { HighTwice }
    ensures in_bytes { PatchedTwice }
    ensures two_passes { TwoPassesAreOne }
{}

/// A module keeps the rules of its commons, publics, contents, fixups and start, one by one. The
/// fixups of a content, as patches, lie inside its bytes and share none of them.
pub fn sound_modules_keep_rules()
    ensures { SoundModulesKeepRules }
{}

/// In a list of a module's common names, each with the base of the common's id, looking up the name
/// of an id's common gives the base of that id.
pub fn commons_are_found_by_name()
    ensures { CommonsByName }
{}

/// If one module is linked alone, its part of each segment starts at offset 0.
pub fn parts_of_one_start_at_zero()
    ensures { PartsOfOneStartAtZero }
{}
