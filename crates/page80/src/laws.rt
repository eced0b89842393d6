//! What holds of escaped text, over the definitions alone.

ghost use Rattle.page80.specs.Escaped.{EscapedIsShown};

/// A law: a byte of text is shown as itself, and neither begins nor ends a tag or an attribute.
pub fn escaped_text_is_shown()
    ensures { EscapedIsShown }
{}
