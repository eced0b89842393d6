//! Tables and charts.

ghost use Rattle.std.specs.Prelude.{◌≡◌, ◌≤◌, [], ◌∷◌, ◌++◌, IfOk, OnOk};
ghost use Rattle.page80.specs.Pieces.{IsMarkup, IsTagBegun};

use crate::page::Page;
use crate::tag::{append_attribute, end_tag};
use std::alloc::{AllocError, Global};

impl Page {
    /// Appends the rows of a table: one for each line, and in it a cell for each word. What is shown are the lines.
    ///
    /// # Errors
    /// `AllocError` if memory runs out; a part of them may then have been appended.
    pub fn table(&mut self, lines: &[u8]) -> Result<(), AllocError>
        ensures { OnOk result (self.new ≡ self.old ++ lines.now) }
    {
        self.markup(b"<div class=\"wide\"><table>".as_slice())?;
        self.rows(lines)?;
        self.markup(b"</table></div>".as_slice())
    }

    /// Appends a row for each line, and in it a cell for each word.
    fn rows(&mut self, lines: &[u8]) -> Result<(), AllocError>
        ensures { OnOk result (self.new ≡ self.old ++ lines.now) }
    {
        let mut is_open = false;
        for byte in lines {
            self.open_row(is_open)?;
            self.put_in_row(*byte)?;
            is_open = *byte != b'\n';
        }
        self.close_row(is_open)
    }

    /// Begins a row, unless one is open.
    fn open_row(&mut self, is_open: bool) -> Result<(), AllocError>
        ensures { OnOk result (self.new ≡ self.old) }
    {
        if is_open {
            Ok(())
        } else {
            self.markup(b"<tr><td>".as_slice())
        }
    }

    /// Ends a row, if one is open.
    fn close_row(&mut self, is_open: bool) -> Result<(), AllocError>
        ensures { OnOk result (self.new ≡ self.old) }
    {
        if is_open {
            self.markup(b"</td></tr>".as_slice())
        } else {
            Ok(())
        }
    }

    /// Appends a byte of a row: a blank ends its cell, a line feed the row.
    fn put_in_row(&mut self, byte: u8) -> Result<(), AllocError>
        ensures { OnOk result (self.new ≡ self.old ++ byte ∷ []) }
    {
        match byte {
            b' ' => self.put(b"</td> <td>".as_slice()),
            b'\n' => self.put(b"</td></tr>\n".as_slice()),
            _ => self.put_byte(byte),
        }
    }

    /// Begins a chart: rows of text, each with a bar.
    ///
    /// # Errors
    /// `AllocError` if memory runs out; then nothing was appended.
    pub fn begin_chart(&mut self) -> Result<(), AllocError>
        ensures { OnOk result (self.new ≡ self.old) }
    {
        self.markup(b"<div class=\"wide\"><table>".as_slice())
    }

    /// Ends a chart.
    ///
    /// # Errors
    /// `AllocError` if memory runs out; then nothing was appended.
    pub fn end_chart(&mut self) -> Result<(), AllocError>
        ensures { OnOk result (self.new ≡ self.old) }
    {
        self.markup(b"</table></div>".as_slice())
    }

    /// Appends the row of a chart: a line, which is shown, and a bar of `thousandths` of the whole width, in another
    /// color if it is `marked`.
    ///
    /// # Errors
    /// `AllocError` if memory runs out; a part of the row may then have been appended.
    pub fn bar(
        &mut self,
        alloc: Global,
        line: &[u8],
        thousandths: u16,
        marked: bool,
    ) -> Result<(), AllocError>
        requires { thousandths ≤ 1000 }
        ensures { OnOk result (self.new ≡ self.old ++ line.now) }
    {
        let tag = bar_tag(alloc, thousandths, marked)?;
        self.rows(line)?;
        self.markup(&tag)
    }
}

/// The row of a bar.
fn bar_tag(alloc: Global, thousandths: u16, marked: bool) -> Result<Vec<u8>, AllocError>
    requires { thousandths ≤ 1000 }
    ensures { IfOk result (λ tag. IsMarkup tag.items) }
{
    let mut tag = Vec::from_slice(alloc, bar_begin(marked))?;
    append_attribute(&mut tag, b" width=\"".as_slice(), thousandths)?;
    end_tag(&mut tag, b"/></svg></td></tr>".as_slice())?;
    Ok(tag)
}

/// The beginning of the row of a bar, up to its width.
fn bar_begin(marked: bool) -> &'static [u8]
    ensures { IsTagBegun result.now }
{
    if marked {
        b"<tr><td colspan=\"12\"><svg class=\"bar\" viewBox=\"0 0 1000 10\" preserveAspectRatio=\"none\"><rect class=\"chain\" height=\"10\"".as_slice()
    } else {
        b"<tr><td colspan=\"12\"><svg class=\"bar\" viewBox=\"0 0 1000 10\" preserveAspectRatio=\"none\"><rect class=\"other\" height=\"10\"".as_slice()
    }
}
