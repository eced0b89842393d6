//! The lines of segments.

ghost use Rattle.std.specs.Prelude.{◌≡◌, ◌<◌, ◌++◌, OnOk};
ghost use Rattle.std.specs.List.{AllByRecursion, flat_map};
ghost use Rattle.place80_text.specs.Map.{segment_line};

use omf_core::segment_id::word_of;
use omf_model::Common;
use omf_text::append_common;
use place80::Placed;
use std::alloc::AllocError;
use text80::word_digits;

/// Appends the line of each segment, in order. Each segment's length must be below 65536.
pub(crate) fn append_segments(
    text: &mut Vec<u8>,
    commons: &[Common],
    segments: &[Placed],
) -> Result<(), AllocError>
    requires { AllByRecursion (λ p. p.length < 65536) segments.now }
    ensures { OnOk result (text.new.items ≡ text.old.items ++ flat_map (segment_line commons.now) segments.now) }
{
    for placed in segments {
        append_segment(text, commons, *placed)?;
    }
    Ok(())
}

/// Appends the line of a segment: its name, its first address, its length and, for a named common, the common's name,
/// as `CODE 3000 009B`. An empty segment at the end of memory is shown at 0000, as regions have it. The segment's
/// length must be below 65536.
pub(crate) fn append_segment(
    text: &mut Vec<u8>,
    commons: &[Common],
    placed: Placed,
) -> Result<(), AllocError>
    requires { placed.length < 65536 }
    ensures { OnOk result (text.new.items ≡ text.old.items ++ segment_line commons.now placed) }
{
    text.extend_from_slice(word_of(placed.id))?;
    text.push(b' ')?;
    text.extend_from_slice(&word_digits((placed.base % 65536) as u16))?;
    text.push(b' ')?;
    text.extend_from_slice(&word_digits(placed.length as u16))?;
    append_common(text, commons, placed.id)?;
    text.push(b'\n')?;
    Ok(())
}
