//! The part that a module has of a segment of the linked module: a named common's goes by its name.

ghost use Rattle.std.specs.Prelude.{◌≡◌, List};
ghost use Rattle.omf_model.specs.declared.symbols.Common.{Common};
ghost use Rattle.omf_model.specs.Place.{common_name};
ghost use Rattle.link80.specs.Linked.{part_of};
ghost use Rattle.link80_text.specs.Words.{named_part};

use omf_model::{Module, Segment, is_fixed_id, segment_in};

/// A segment of length 0 that isn't paged.
const EMPTY: Segment = Segment {
    length: 0,
    paged: false,
};

/// The part that a module has of the linked segment with this id; a named common's is found by its
/// `name`, that which the linked module has for the id.
pub(crate) fn part_of(source: &Module, id: u8, name: &[u8]) -> Segment
    ensures { (commons : List Common) → name.now ≡ common_name commons id → result ≡ part_of commons source.now id }
{
    if is_fixed_id(id) {
        segment_in(source.segments(), id)
    } else {
        named_part(source, name)
    }
}

/// The part that a module has of the common with this name; one of length 0 if it has no such
/// common.
fn named_part(source: &Module, name: &[u8]) -> Segment
    ensures { result ≡ named_part source.now.segments source.now.commons name.now }
{
    for common in source.commons() {
        if common.name.bytes() == name {
            return segment_in(source.segments(), common.id);
        }
    }
    EMPTY
}
