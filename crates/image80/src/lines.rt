//! Texts over whole lines: a text is cut at each line feed, and its last part is empty if every
//! line has its line feed.

ghost use Rattle.std.specs.Prelude.{◌≡◌, ◌<◌, [], ◌∷◌, ◌++◌, length, position, IfSome, IfNone};
ghost use Rattle.image80.specs.Lines.{is_line_feed, parts};

/// The first line of a text without its line feed, and the text after that line feed; `None` if
/// the text has no line feed.
pub fn first_line(text: &[u8]) -> Option<(&[u8], &[u8])>
    ensures found { IfSome result (λ (line, rest). parts text.now ≡ line.now ∷ parts rest.now) }
    ensures joined { IfSome result (λ (line, rest). text.now ≡ line.now ++ 10 ∷ rest.now) }
    ensures shorter { IfSome result (λ (line, rest). length rest.now < length text.now) }
    ensures absent { IfNone result (parts text.now ≡ text.now ∷ []) }
{
    match line_feed(text) {
        Some(end) => Some((&text[..end], &text[end + 1..])),
        None => None,
    }
}

/// The place of the text's first line feed, `None` if it has none.
fn line_feed(text: &[u8]) -> Option<usize>
    ensures { result ≡ position is_line_feed text.now }
{
    text.iter().position(|byte| *byte == b'\n')
}
