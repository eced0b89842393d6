//! What is printed of wrong arguments.

/// How clap's tip begins that an option it doesn't know could be passed as a value. A path that begins with a hyphen is rare; nearly
/// always the option is another command's, or misspelled.
const TIP: &str = "  tip: to pass '";

/// The text of an error of clap without that tip, in two pieces.
pub(crate) fn without_tip(text: &str) -> (&str, &str) {
    let Some((before, tip)) = text.split_once(TIP) else {
        return (text, "");
    };
    let Some((_, after)) = tip.split_once('\n') else {
        return (before, "");
    };
    if before.ends_with("\n\n") {
        (before, after.strip_prefix("\n").unwrap_or(after))
    } else {
        (before, after)
    }
}
