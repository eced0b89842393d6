//! Numbers in texts of the system.

ghost use Rattle.std.specs.Prelude.{IfSome};
ghost use Rattle.plm80_host.specs.SystemTexts.{IsCountBehind};

use plm80_console::count_of_digits;

/// The number that is the first word behind a label in a text of the system; `None` if the text doesn't have the label, or if that word
/// is no number.
pub(crate) fn count_behind(text: &str, label: &str) -> Option<u64>
    ensures { IfSome result (IsCountBehind text.now label.now) }
{
    let (_, behind) = text.split_once(label)?;
    count_of_digits(behind.split_whitespace().next()?)
}
