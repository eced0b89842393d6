//! The lines of fixups, of segments and of a start.

ghost use Rattle.std.specs.Prelude.{◌≡◌, ◌++◌, ◌<◌, [], option_copied, OnOk};
ghost use Rattle.std.specs.Option.{option_map_or};
ghost use Rattle.place80.specs.Causes.{use_line, alike_line, number_text, placed_line, pair_lines, high_line, start_line};

use crate::addresses::place_of;
use crate::causes::uses::Use;
use crate::overlap::Pair;
use crate::placed_segments::{Placed, placed_in};
use omf_core::segment_id::{CODE, word_of};
use omf_model::{Common, Module, Public};
use omf_text::{append_common, append_place};
use std::alloc::AllocError;
use text80::word_digits;

/// Appends the line of a fixup that refers to an unresolved name, as `  CODE 0012 refers to it`; nothing for `None`.
pub(crate) fn append_use(
    text: &mut Vec<u8>,
    commons: &[Common],
    found: Option<Use>,
) -> Result<(), AllocError>
    ensures { OnOk result (text.new.items ≡ text.old.items ++ option_map_or (use_line commons.now) found []) }
{
    let Some(found) = found else {
        return Ok(());
    };
    text.extend_from_slice(b"  ".as_slice())?;
    append_place(text, commons, found.segment, found.offset)?;
    text.extend_from_slice(b" refers to it\n".as_slice())
}

/// Appends the line of a public whose name differs in case alone, as `  the public GetKey differs in case alone`;
/// nothing for `None`.
pub(crate) fn append_alike(text: &mut Vec<u8>, public: Option<&Public>) -> Result<(), AllocError>
    ensures { OnOk result (text.new.items ≡ text.old.items ++ option_map_or alike_line (option_copied public.entry) []) }
{
    let Some(public) = public else {
        return Ok(());
    };
    text.extend_from_slice(b"  the public ".as_slice())?;
    text.extend_from_slice(public.name.bytes())?;
    text.extend_from_slice(b" differs in case alone\n".as_slice())?;
    Ok(())
}

/// Appends the line of a placed segment: its name, its first address, its length and, for a named common, the
/// common's name, as `  STACK FFF0 0020`.
pub(crate) fn append_placed(
    text: &mut Vec<u8>,
    commons: &[Common],
    placed: Placed,
) -> Result<(), AllocError>
    ensures { OnOk result (text.new.items ≡ text.old.items ++ placed_line commons.now placed) }
{
    text.extend_from_slice(b"  ".as_slice())?;
    text.extend_from_slice(word_of(placed.id))?;
    text.push(b' ')?;
    append_number(text, placed.base)?;
    text.push(b' ')?;
    append_number(text, placed.length)?;
    append_common(text, commons, placed.id)?;
    text.push(b'\n')?;
    Ok(())
}

/// Appends the lines of two placed segments that share an address; nothing for `None`.
pub(crate) fn append_pair(
    text: &mut Vec<u8>,
    commons: &[Common],
    pair: Option<Pair>,
) -> Result<(), AllocError>
    ensures { OnOk result (text.new.items ≡ text.old.items ++ option_map_or (pair_lines commons.now) pair []) }
{
    let Some((first, second)) = pair else {
        return Ok(());
    };
    append_placed(text, commons, first)?;
    append_placed(text, commons, second)
}

/// Appends the line of a fixup of a high byte, as `  METER uses the high byte of 4012 at CODE 0012`; nothing for `None`.
pub(crate) fn append_high(
    text: &mut Vec<u8>,
    program: &Module,
    found: Option<Use>,
) -> Result<(), AllocError>
    ensures { OnOk result (text.new.items ≡ text.old.items ++ option_map_or (high_line program.now) found []) }
{
    let Some(found) = found else {
        return Ok(());
    };
    text.extend_from_slice(b"  ".as_slice())?;
    text.extend_from_slice(program.name().bytes())?;
    text.extend_from_slice(b" uses the high byte of ".as_slice())?;
    text.extend_from_slice(&word_digits(found.word))?;
    text.extend_from_slice(b" at ".as_slice())?;
    append_place(text, program.commons(), found.segment, found.offset)?;
    text.push(b'\n')?;
    Ok(())
}

/// Appends the line of the address of a start, as `  START 4000`, and the line of CODE; nothing for `None`.
pub(crate) fn append_start(
    text: &mut Vec<u8>,
    commons: &[Common],
    segments: &[Placed],
    start: Option<(u8, u16)>,
) -> Result<(), AllocError>
    ensures { OnOk result (text.new.items ≡ text.old.items ++ option_map_or (start_line commons.now segments.now) start []) }
{
    let Some(start) = start else {
        return Ok(());
    };
    text.extend_from_slice(b"  START ".as_slice())?;
    text.extend_from_slice(&word_digits(place_of(segments, start.0, start.1)))?;
    text.push(b'\n')?;
    append_placed(text, commons, placed_in(segments, CODE))?;
    Ok(())
}

/// Appends a number in four hexadecimal digits, or in five if it is 10000, the greatest first address of a segment in
/// these lines.
fn append_number(text: &mut Vec<u8>, number: u32) -> Result<(), AllocError>
    ensures { OnOk result (text.new.items ≡ text.old.items ++ number_text number) }
{
    if number < 65536 {
        text.extend_from_slice(&word_digits(number as u16))
    } else {
        text.push(b'1')?;
        text.extend_from_slice(&word_digits((number % 65536) as u16))
    }
}
