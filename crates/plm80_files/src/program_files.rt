//! The image and its regions, which several commands read.

ghost use Rattle.std.specs.Prelude.{◌≡◌, ◌≢◌, ◌↔◌, None, IfErr, IfOk};
ghost use Rattle.image80.specs.RegionsText.{Spells};
ghost use Rattle.image80_file.specs.ImageFile.{SpellsImage, without_regions};
ghost use Rattle.plm80_console.specs.Journal.{Blames};
ghost use Rattle.plm80_files.specs.Wrong.{SpellsNoImage, SpellsNoRegions};

use crate::damage_words::damage_words;
use crate::file_fault::OBJECT_WORDS;
use crate::file_kinds::{FileRole, explain_file, place_of_regions};
use crate::regions_words::explain_regions;
use crate::unread_bytes::UnreadBytes;
use image80::laws::text_of_regions_is_read_as_itself;
use image80::{Image, Regions, RegionsFault, read_regions};
use image80_file::laws::one_image_reading;
use image80_file::{ImageFault, read_image};
use plm80_console::{Argument, Console, Kind, Reported};

/// The argument of commands that names the image's file.
pub const IMAGE: Argument<'static> = Argument {
    name: "IMAGE",
    kind: Kind::Path,
    help: "The image, an absolute object file",
};

/// The argument of commands that names the regions' file.
pub const REGIONS: Argument<'static> = Argument {
    name: "REGIONS",
    kind: Kind::Path,
    help: "The text of its code, data and stack ranges",
};

/// The regions that the text of the file of this path spells. If it spells none, that is reported.
pub fn regions_of<C: Console>(console: &mut C, path: &str, text: &[u8]) -> Result<Regions, Reported>
    ensures regions { IfOk result (Spells text.now) }
    ensures unchanged { IfOk result (λ _. C.journal console.new ≡ C.journal console.old) }
    ensures fault { IfErr result (λ _. Blames (SpellsNoRegions text.now) (C.journal console.old) (C.journal console.new)) }
{
    text_of_regions_is_read_as_itself();
    match read_regions(console.alloc(), text) {
        Ok(regions) => Ok(regions),
        Err(fault) => {
            let reported = report_regions(console, path, text, fault);
            console.explain_any(place_of_regions(text));
            Err(reported)
        }
    }
}

/// Reports why the text of the file of this path spells no regions, with words below it, or that memory ran out.
pub fn report_regions<C: Console>(
    console: &mut C,
    path: &str,
    text: &[u8],
    fault: RegionsFault,
) -> Reported
    ensures { Blames (fault ≢ RegionsFault.Memory) (C.journal console.old) (C.journal console.new) }
{
    if let RegionsFault::Memory = fault {
        return console.report_memory();
    }
    let reported = console.blame_file(path, fault);
    explain_regions(console, text, fault);
    reported
}

/// The image that the bytes of the file of this path spell, with these regions. If they spell none, that is reported.
pub fn image_of<C: Console>(
    console: &mut C,
    path: &str,
    bytes: &[u8],
    regions: Regions,
) -> Result<Image, Reported>
    ensures image { IfOk result (λ image. SpellsImage bytes.now (without_regions image)) }
    ensures regions { IfOk result (λ image. image.regions ≡ regions) }
    ensures unchanged { IfOk result (λ _. C.journal console.new ≡ C.journal console.old) }
    ensures fault { IfErr result (λ _. Blames (SpellsNoImage bytes.now) (C.journal console.old) (C.journal console.new)) }
{
    one_image_reading();
    match read_image(console.alloc(), bytes, regions) {
        Ok(image) => {
            console.explain_any(UnreadBytes::of(path, bytes));
            Ok(image)
        }
        Err((_, fault)) => Err(report_image(console, path, bytes, fault)),
    }
}

/// Reports why the bytes of the file of this path spell no image, with words below it, or that memory ran out.
fn report_image<C: Console>(
    console: &mut C,
    path: &str,
    bytes: &[u8],
    fault: ImageFault,
) -> Reported
    ensures { Blames (fault ≢ ImageFault.Memory) (C.journal console.old) (C.journal console.new) }
{
    if let ImageFault::Memory = fault {
        return console.report_memory();
    }
    let reported = console.blame_file(path, fault);
    explain_image(console, bytes, fault);
    reported
}

/// Says why these bytes, which were to be those of an image, spell none: what they seem to be, or what is wrong with them.
pub fn explain_image<C: Console>(console: &C, bytes: &[u8], fault: ImageFault) {
    explain_image_as(console, bytes, fault, FileRole::Image);
}

/// Says why these bytes, which were to be those of an image in this role, spell none: what they seem to be, or what is wrong with them.
pub fn explain_image_as<C: Console>(console: &C, bytes: &[u8], fault: ImageFault, role: FileRole) {
    if explain_file(console, bytes, role) {
        return;
    }
    let damage = match fault {
        ImageFault::Module(fault) => damage_words(bytes, fault.cause),
        _ => None,
    };
    match damage {
        Some(words) => console.explain(words),
        None => console.explain_any(image_words(fault)),
    }
}

/// Words on a fault of a file that begins as an image does; `None` if memory ran out.
fn image_words(fault: ImageFault) -> Option<&'static str>
    ensures { (result ≡ None) ↔ (fault ≡ ImageFault.Memory) }
{
    match fault {
        ImageFault::NotOneModule => Some(
            "it has several modules: plm80 link makes one of them, and locate an image",
        ),
        ImageFault::NotAbsolute => Some("it isn't located: plm80 locate makes an image of it"),
        ImageFault::NoStart => Some(
            "it has no start: link the main program, which ends with END and a label",
        ),
        ImageFault::Module(_) => Some(OBJECT_WORDS),
        ImageFault::Memory => None,
    }
}
