//! Which files are images, in words, where object files are wanted that can be moved.

ghost use Rattle.std.specs.Prelude.{◌≡◌, true};
ghost use Rattle.image80_file.specs.ImageFile.{AbsoluteProgram, SpellsImage};

use image80_file::read_image;
use plm80_console::Console;
use rom80::no_regions;
use std::alloc::Global;

/// Says of each of these files that is an image that it is one, and what to do with it, which is `advice`, if words are asked for. A file
/// that can't be read again is passed over.
pub(crate) fn explain_images<C: Console>(console: &C, paths: &[&str], advice: &str) {
    for path in paths {
        if let Some(bytes) = console.text_to_explain(path) {
            if is_image(console.alloc(), &bytes) {
                console.explain(format_args!("{path} is an image: {advice}"));
            }
        }
    }
}

/// Whether `bytes` are those of an image. Also false if memory runs out.
fn is_image(alloc: Global, bytes: &[u8]) -> bool
    ensures { result ≡ true → (program : AbsoluteProgram) × SpellsImage bytes.now program }
{
    read_image(alloc, bytes, no_regions(alloc)).is_ok()
}
