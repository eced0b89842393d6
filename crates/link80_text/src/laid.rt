//! The parts of CODE, DATA and STACK: one after another, in the order of the modules.

ghost use Rattle.std.specs.Prelude.{◌≡◌, ◌≤◌, ◌++◌, map, OnOk};
ghost use Rattle.omf_model.specs.Place.{rounded};
ghost use Rattle.link80.specs.Linked.{parts_end};
ghost use Rattle.link80_text.specs.Words.{laid_text};

use crate::lines::append_part;
use link80::laws::laid_parts_end_at_words;
use omf_model::{Common, Module, segment_in};
use std::alloc::AllocError;

/// Appends a line for each module's part of segment `id`, CODE, DATA or STACK, that has bytes or is
/// paged: the parts lie one after another. The last part must end at 65535 at most. `commons` are
/// those of the linked module. `Err` only if memory runs out.
pub(crate) fn append_laid(
    text: &mut Vec<u8>,
    modules: &[&Module],
    commons: &[Common],
    id: u8,
) -> Result<(), AllocError>
    requires { parts_end id 0 (map (λ m. m.now) modules.now) ≤ 65535 }
    ensures { OnOk result (text.new.items ≡ text.old.items ++ laid_text commons.now id 0 (map (λ m. m.now) modules.now)) }
{
    laid_parts_end_at_words();
    let mut end = 0;
    for source in modules {
        let part = segment_in(source.segments(), id);
        let start = round_up(end, part.paged);
        append_part(text, commons, id, start as u16, part, source.name())?;
        end = start + u32::from(part.length);
    }
    Ok(())
}

/// The start of a part that is laid after offset `before`: the next multiple of 256 for a paged
/// one, `before` for others. `before` must be at most 65535.
fn round_up(before: u32, paged: bool) -> u32
    requires { before ≤ 65535 }
    ensures { result ≡ rounded paged before }
{
    if paged {
        (before + 255) / 256 * 256
    } else {
        before
    }
}
