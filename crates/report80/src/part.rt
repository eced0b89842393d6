//! A part of a page.

ghost use Rattle.std.specs.Prelude.{◌≡◌, ◌++◌, OnOk};
ghost use Rattle.report80.specs.PageText.{part_text};

use page80::Page;
use std::alloc::AllocError;

/// Appends a heading, and lines below it as a table.
pub(crate) fn append_part(page: &mut Page, heading: &[u8], lines: &[u8]) -> Result<(), AllocError>
    ensures { OnOk result (page.new ≡ page.old ++ part_text heading.now lines.now) }
{
    page.heading(heading)?;
    page.table(lines)
}
