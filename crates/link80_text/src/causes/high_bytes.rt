//! The first fixup that takes the high byte of the place of a part which doesn't start at a multiple of 256.

ghost use Rattle.std.specs.Prelude.{◌≡◌, map};
ghost use Rattle.link80_text.specs.HighBytes.{first_given, high_of_fixup, high_of_content, high_of_module, first_high};

use crate::causes::starts::{PartEnds, PartStarts};
use omf_model::{Content, Field, Fixup, Module, Target};

/// A fixup for the high byte of an address in a segment in which its module's part doesn't start at
/// a multiple of 256.
#[derive(Clone, Copy, PartialEq, Eq)]
pub(crate) struct HighByte {
    /// The index of the fixup's module among those that are linked.
    pub source: usize,
    /// The id of the segment that the fixup is in.
    pub segment: u8,
    /// The fixup's offset in its module's part of that segment.
    pub offset: u16,
    /// The id of the segment that the fixup refers to.
    pub target: u8,
    /// The offset at which the module's part of the target starts in the linked segment.
    pub start: u16,
}

/// The first fixup, by module, by content and by record, for the high byte of an address in a
/// segment in which its module's part doesn't start at a multiple of 256; `None` if there is none.
pub(crate) fn first_high(modules: &[&Module]) -> Option<HighByte>
    ensures { result ≡ first_high (map (λ m. m.now) modules.now) }
{
    let mut ends = PartEnds::none();
    for (number, source) in modules.iter().enumerate() {
        let starts = PartStarts::new(modules, number, ends);
        if let Some(found) = high_of_module(&starts, number, source.contents()) {
            return Some(found);
        }
        ends = ends.with(source, number);
    }
    None
}

/// The first fixup in these contents of the module with index `number` that makes a [`HighByte`];
/// `None` if none does. `starts` must be the starts of that module's parts.
fn high_of_module(
    starts: &PartStarts<'_, '_>,
    number: usize,
    contents: &[Content],
) -> Option<HighByte>
    requires { number ≡ starts.now.1 }
    ensures { result ≡ first_given (high_of_content starts.now.0 number) contents.now }
{
    for content in contents {
        if let Some(found) = high_of_content(starts, number, content) {
            return Some(found);
        }
    }
    None
}

/// The first fixup in this content of the module with index `number` that makes a [`HighByte`];
/// `None` if none does. `starts` must be the starts of that module's parts.
fn high_of_content(
    starts: &PartStarts<'_, '_>,
    number: usize,
    content: &Content,
) -> Option<HighByte>
    requires { number ≡ starts.now.1 }
    ensures { result ≡ high_of_content starts.now.0 number content.now }
{
    for fixup in &content.fixups {
        if let Some(found) = high_of_fixup(starts, number, content, *fixup) {
            return Some(found);
        }
    }
    None
}

/// The [`HighByte`] that a fixup in a content of the module with index `number` makes; `None` if it
/// isn't for a high byte of a segment, or the module's part of that starts at a multiple of 256.
/// `starts` must be the starts of that module's parts.
fn high_of_fixup(
    starts: &PartStarts<'_, '_>,
    number: usize,
    content: &Content,
    fixup: Fixup,
) -> Option<HighByte>
    requires { number ≡ starts.now.1 }
    ensures { result ≡ high_of_fixup starts.now.0 number content.now fixup }
{
    let (Field::High, Target::Segment(target)) = (fixup.field, fixup.target) else {
        return None;
    };
    let start = starts.start(target);
    if start % 256 == 0 {
        return None;
    }
    Some(HighByte {
        source: number,
        segment: content.segment,
        offset: fixup.offset,
        target,
        start,
    })
}
