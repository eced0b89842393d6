//! The laws of images as object files, over the definitions alone.

ghost use Rattle.image80_file.specs.ImageFile.{WrittenImageIsSpelled, NamedModuleIsRead, OneImage, OneImageFault, NeverBothImage};

use omf_module::laws::{one_file_reading, written_file_is_spelled};

/// A law: the object file that is written for an image spells that image, but for its regions, which an object file
/// doesn't hold; and so does the file of the image's module with publics.
pub fn written_image_is_spelled()
    ensures spelled { WrittenImageIsSpelled }
    ensures named { NamedModuleIsRead }
{
    written_file_is_spelled();
}

/// A law: bytes spell at most one image, or have one first fault, and never both.
pub fn one_image_reading()
    ensures image { OneImage }
    ensures fault { OneImageFault }
    ensures never_both { NeverBothImage }
{
    one_file_reading();
}
