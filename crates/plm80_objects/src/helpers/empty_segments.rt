//! Words on options of LOCATE: how their numbers are read, and on bases of segments that are empty.

ghost use Rattle.std.specs.Prelude.{◌≡◌, ◌⊎◌, ◌==◌, ◌||◌, not, []};
ghost use Rattle.std.specs.List.{list_all};
ghost use Rattle.omf_core.specs.SegmentId.{segment_word};

use crate::helpers::decimal_words::DecimalWords;
use crate::helpers::locate_options::LocateTexts;
use omf_core::segment_id::{CODE, word_of};
use omf_module::Module;
use place80::{Options, Placed, layout};
use plm80_console::{Console, OptionText, word_of_digits};
use std::str;

/// Says which options of `locate` may have been meant otherwise; which bases are those of empty segments, and then where the other
/// segments of `program` are, since what was to be at these bases is there. Nothing is said if memory runs out.
pub(crate) fn explain_empty_segments<C: Console>(
    console: &C,
    program: &Module,
    options: &Options,
    texts: LocateTexts<'_>,
) {
    if let Ok(layout) = layout(console.alloc(), program, options) {
        explain_texts(console, &layout.segments, texts);
    }
}

/// Says which of these options may have been meant otherwise, and which bases are those of empty ones of `segments`; then where the others
/// are.
fn explain_texts<C: Console>(console: &C, segments: &[Placed], texts: LocateTexts<'_>) {
    for base in texts.all() {
        if let (id, Some(option)) = base {
            explain_number(console, id, option);
        }
    }
    let mut has_empty = false;
    for base in texts.all() {
        if let (Some(id), Some(option)) = base
            && is_empty(segments, id)
        {
            let (name, text, word) = (option.name(), option.text(), segment_word(id));
            console.explain(format_args!("--{name} {text}: {word} is empty"));
            has_empty = true;
        }
    }
    for placed in segments {
        if has_empty && placed.length > 0 {
            let (word, base, length) = (segment_word(placed.id), placed.base, placed.length);
            console.explain(format_args!("{word} {base:04X} {length:04X}"));
        }
    }
}

/// Says how the number of an option is read, if it may have been meant in decimal, or to have more digits. `id` is that of the segment if
/// the number is its base.
fn explain_number<C: Console>(console: &C, id: Option<u8>, option: OptionText<'_>) {
    let (name, text) = (option.name(), option.text());
    if let Some(words) = DecimalWords::of(option) {
        console.explain(words);
    } else if let Some(base) = short_base(id, text) {
        console.explain(format_args!(
            "--{name} {text} is the address {base:04X}: numbers are hexadecimal, and digits that are left out are zeros in front"
        ));
    }
}

/// The base that a text writes with one or two digits, if it is that of another segment than CODE and not 0; else `None`. CODE may well
/// begin in the first 100h bytes, where restarts go; RAM seldom lies there.
fn short_base(id: Option<u8>, text: &str) -> Option<u16> {
    let base = word_of_digits(text)?;
    if id.is_some() && id != Some(CODE) && text.len() <= 2 && base > 0 {
        Some(base)
    } else {
        None
    }
}

/// Whether each of `segments` with this id has no bytes.
fn is_empty(segments: &[Placed], id: u8) -> bool
    ensures { result ≡ list_all (λ placed. not (placed.id == id) || placed.length == 0) segments.now }
{
    segments
        .iter()
        .all(|placed| placed.id != id || placed.length == 0)
}

/// The word for the segment with this id, such as `CODE`.
fn segment_word(id: u8) -> &'static str
    ensures { (result.now ≡ segment_word id) ⊎ (result.now ≡ []) }
{
    str::from_utf8(word_of(id)).unwrap_or("")
}
