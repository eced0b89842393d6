//! Modules that are found in a dump, linked and located, have the dump's bytes in CODE. The law is ensured by a function that does
//! nothing: a layer above that calls it has the law in its proof.

ghost use Rattle.rom80_laws.specs.Rebuilt.{BytesAreTheDumps, LocatedImageIsTheDumps, BuiltImageIsTheDumps};

use link80::laws::{linked_module_keeps_rules, linking_keeps_bytes};
use omf_model::laws::segments_are_kept;
use omf_model::relocation_laws::sound_modules_keep_rules;
use place80::laws::{
    no_fault_where_segments_fit, segments_are_laid_out_in_one_way, segments_are_placed,
};
use rom80_find::link_of_found_modules_has_the_bytes;

/// If modules found in a dump can be linked and located, with bases that put each module's part,
/// its segments and its externals at the addresses that it has in the dump, then the image has the
/// dump's byte at each address that a content in CODE covers: the image that `locate` gives for the
/// linked module, and the one that `build` gives for the modules.
pub fn found_modules_are_rebuilt()
    ensures bytes { BytesAreTheDumps }
    ensures located { LocatedImageIsTheDumps }
    ensures built { BuiltImageIsTheDumps }
{
    sound_modules_keep_rules();
    segments_are_laid_out_in_one_way();
    segments_are_placed();
    segments_are_kept();
    linked_module_keeps_rules();
    linking_keeps_bytes();
    no_fault_where_segments_fit();
    link_of_found_modules_has_the_bytes();
}
