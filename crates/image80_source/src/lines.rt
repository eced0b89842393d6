//! The lines of an image's contents.

ghost use Rattle.std.specs.Prelude.{◌≡◌, ◌<◌, ◌≤◌, All, IfOk, length};
ghost use Rattle.std.specs.List.{flat_map};
ghost use Rattle.image80_source.specs.Lines.{line_bytes, IsFound};
ghost use Rattle.image80_source.specs.Placed.{marked_from, IsShort};

use crate::contents::{Contents, line_at};
use crate::covered::{ADDRESSES, is_marked};
use crate::line::{Line, size_of};
use std::alloc::{AllocError, Global};

/// The lines of the contents, by address.
pub(crate) fn lines_of<'a>(
    alloc: Global,
    contents: Contents<'a>,
) -> Result<Vec<Line<'a>>, AllocError>
    requires memory { length contents.memory.now ≡ 65536 }
    requires marks { length contents.covered.now ≡ 65536 }
    ensures bytes { IfOk result (λ lines. flat_map line_bytes lines.items ≡ marked_from contents.entry.covered.now contents.entry.memory.now 0 65536) }
    ensures short { IfOk result (λ lines. All IsShort lines.items) }
    ensures found { IfOk result (λ lines. All (IsFound contents.entry.table.now) lines.items) }
{
    let mut lines = Vec::new(alloc);
    let mut at = 0;
    while at < ADDRESSES {
        if is_marked(contents.covered, at) {
            let line = line_at(contents, at);
            lines.push(line)?;
            at += size_of(line.content);
        } else {
            at += 1;
        }
    }
    Ok(lines)
}
