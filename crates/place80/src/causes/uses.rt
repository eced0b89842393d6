//! The first fixup of a high byte of an address that isn't a multiple of 256.

ghost use Rattle.std.specs.Prelude.{◌≡◌};
ghost use Rattle.omf_model.specs.HighReferences.{loses_with};
ghost use Rattle.place80.specs.Locating.{word_among};
ghost use Rattle.place80.specs.Uses.{use_of, first_use_in, first_high};

use crate::{Placed, place_of};
use omf_model::{Content, Field, Fixup, Module, Target};

/// A fixup as a line shows it: where it is in the module, and the word that it adds.
#[derive(Clone, Copy, PartialEq, Eq)]
pub(crate) struct Use {
    /// The id of the segment whose content has the fixup.
    pub segment: u8,
    /// The offset in that segment.
    pub offset: u16,
    /// The word that the fixup adds; 0 in the line of an unresolved name, which doesn't show it.
    pub word: u16,
}

/// The first fixup of the program that takes the high byte of a word that isn't a multiple of 256, `None` if there is
/// none.
pub(crate) fn first_high(segments: &[Placed], program: &Module) -> Option<Use>
    ensures { result ≡ first_high segments.now program.now }
{
    for content in program.contents() {
        if let Some(found) = first_in(segments, content) {
            return Some(found);
        }
    }
    None
}

/// The first fixup of a content that takes the high byte of a word that isn't a multiple of 256, `None` if there is none.
fn first_in(segments: &[Placed], content: &Content) -> Option<Use>
    ensures { result ≡ first_use_in (word_among segments.now) (loses_with (word_among segments.now)) content.now }
{
    for fixup in &content.fixups {
        if let Some(found) = high_of(segments, content, *fixup) {
            return Some(found);
        }
    }
    None
}

/// The fixup's place and word if it takes the high byte of a word that isn't a multiple of 256, otherwise `None`.
fn high_of(segments: &[Placed], content: &Content, fixup: Fixup) -> Option<Use>
    ensures { result ≡ use_of (word_among segments.now) (loses_with (word_among segments.now)) content.now fixup }
{
    let word = target_word(segments, fixup.target);
    match fixup.field {
        Field::High if word % 256 != 0 => Some(Use {
            segment: content.segment,
            offset: fixup.offset,
            word,
        }),
        _ => None,
    }
}

/// The word that a fixup to this target adds: the address of offset 0 in the target's segment. It is 0 for an
/// external, which a program that is placed doesn't have.
fn target_word(segments: &[Placed], target: Target) -> u16
    ensures { result ≡ word_among segments.now target }
{
    match target {
        Target::Segment(id) => place_of(segments, id, 0),
        Target::External(_) => 0,
    }
}
