//! A page that is being written.

ghost use Rattle.std.specs.Prelude.{◌≡◌, [], ◌∷◌, ◌++◌, IfOk, OnOk, codes};
ghost use Rattle.page80.specs.Escaped.{is_markup};
ghost use Rattle.text80.specs.Digits.{byte_text};
ghost use Rattle.page80.specs.Pieces.{IsMarkup, IsWhole};
ghost use Rattle.page80.specs.Reading.{is_printable, shown_in};

use crate::laws::escaped_text_is_shown;
use crate::style::HEAD;
use std::alloc::{AllocError, Global};
use std::marker::Model;
use text80::byte_digits;

/// A page that is being written. A contract sees the bytes that it shows: those of its text, without tags.
/// (HTML Living Standard.)
#[derive(Drop)]
pub struct Page {
    html: Vec<u8>,
}

impl Model for Page {
    ghost use Rattle.std.specs.Prelude.{List, ℕ};
    ghost use Rattle.page80.specs.Pieces.{IsWhole};
    ghost use Rattle.page80.specs.Reading.{shown_in};

    ghost Value = { List ℕ };

    ghost view = { λ page. shown_in page.html.items };

    ghost invariant = { λ page. IsWhole page.html.items };
}

impl Page {
    /// A page with a title and nothing else, whose style is for screens of any width and for paper.
    ///
    /// # Errors
    /// `AllocError` if memory runs out.
    pub fn new(alloc: Global, title: &[u8]) -> Result<Page, AllocError>
        ensures { IfOk result (λ page. page ≡ title.now ++ 10 ∷ []) }
    {
        let mut page = Page {
            html: Vec::new(alloc),
        };
        page.markup(HEAD)?;
        page.text(title)?;
        page.put(b"\n</title></head><body>".as_slice())?;
        Ok(page)
    }

    /// Appends text, escaped: it is shown as it is.
    ///
    /// # Errors
    /// `AllocError` if memory runs out; the first bytes may then have been appended.
    pub fn text(&mut self, text: &[u8]) -> Result<(), AllocError>
        ensures { OnOk result (self.new ≡ self.old ++ text.now) }
    {
        for byte in text {
            self.put_byte(*byte)?;
        }
        Ok(())
    }

    /// Appends the headline of the page, and a line feed.
    ///
    /// # Errors
    /// `AllocError` if memory runs out; a part of it may then have been appended.
    pub fn headline(&mut self, text: &[u8]) -> Result<(), AllocError>
        ensures { OnOk result (self.new ≡ self.old ++ text.now ++ 10 ∷ []) }
    {
        self.markup(b"<h1>".as_slice())?;
        self.text(text)?;
        self.put(b"</h1>\n".as_slice())
    }

    /// Appends the heading of a part of the page, and a line feed.
    ///
    /// # Errors
    /// `AllocError` if memory runs out; a part of it may then have been appended.
    pub fn heading(&mut self, text: &[u8]) -> Result<(), AllocError>
        ensures { OnOk result (self.new ≡ self.old ++ text.now ++ 10 ∷ []) }
    {
        self.markup(b"<h2>".as_slice())?;
        self.text(text)?;
        self.put(b"</h2>\n".as_slice())
    }

    /// The bytes of the page, ended.
    ///
    /// # Errors
    /// `AllocError` if memory runs out.
    pub fn into_bytes(self) -> Result<Vec<u8>, AllocError>
        ensures { IfOk result (λ html. shown_in html.items ≡ self) }
    {
        let mut page = self;
        page.markup(b"</body></html>".as_slice())?;
        let Page { html } = page;
        Ok(html)
    }

    /// Appends markup, which shows nothing. `AllocError` if memory runs out; then nothing was appended.
    pub(crate) fn markup(&mut self, piece: &[u8]) -> Result<(), AllocError>
        requires { IsMarkup piece.now }
        ensures { OnOk result (self.new ≡ self.old) }
    {
        self.put(piece)
    }

    /// Appends a piece of a page. `AllocError` if memory runs out; then nothing was appended.
    pub(crate) fn put(&mut self, piece: &[u8]) -> Result<(), AllocError>
        requires { IsWhole piece.now }
        ensures { OnOk result (self.new ≡ self.old ++ shown_in piece.now) }
    {
        self.html.extend_from_slice(piece)?;
        Ok(())
    }

    /// Appends a byte of text. `AllocError` if memory runs out; then nothing is shown of it.
    pub(crate) fn put_byte(&mut self, byte: u8) -> Result<(), AllocError>
        ensures { OnOk result (self.new ≡ self.old ++ byte ∷ []) }
    {
        escaped_text_is_shown();
        if is_markup(byte) {
            self.put(&reference(byte))
        } else if is_printable(byte) {
            self.put(&[byte])
        } else {
            self.put(&private_reference(byte))
        }
    }
}

/// Whether a byte could be read as markup.
fn is_markup(byte: u8) -> bool
    ensures { result ≡ is_markup byte }
{
    matches!(byte, b'"' | b'&' | b'\'' | b'<' | b'>')
}

/// Whether a byte has a character of its own: it is printable, or a line feed.
fn is_printable(byte: u8) -> bool
    ensures { result ≡ is_printable byte }
{
    byte == b'\n' || (byte > 31 && byte < 127)
}

/// The reference to the character of a byte.
fn reference(byte: u8) -> [u8; 6]
    ensures { result ≡ codes "&#x" ++ (byte_text byte ++ codes ";") }
{
    let [high, low] = byte_digits(byte);
    [b'&', b'#', b'x', high, low, b';']
}

/// The reference to the character that stands for a byte that has none.
fn private_reference(byte: u8) -> [u8; 8]
    ensures { result ≡ codes "&#xE0" ++ (byte_text byte ++ codes ";") }
{
    let [high, low] = byte_digits(byte);
    [b'&', b'#', b'x', b'E', b'0', high, low, b';']
}
