//! The image, its regions and its names, which several commands read.

ghost use Rattle.std.specs.Prelude.{◌≡◌, ◌∷◌, [], IfErr, IfOk};
ghost use Rattle.image80.specs.RegionsText.{Spells};
ghost use Rattle.image80_file.specs.ImageFile.{SpellsImage, without_regions};
ghost use Rattle.plm80_names.specs.{Printed.AreNamesOf, Arguments.AreNamedFiles, Arguments.program_paths};
ghost use Rattle.plm80_names.specs.Verdict.{AreOfNone, HaveNoProgram, IsProgramRead};
ghost use Rattle.plm80_console.specs.Journal.{Blames, OnlyBlames, OnlyReports, and_read};

use crate::names::Names;
use crate::refusal_words::explain_given;
use clap::ArgMatches;
use image80::Image;
use plm80_console::{Argument, Console, Kind, ReadFile, Reported, argument_text};
use plm80_files::{IMAGE, REGIONS, image_of, regions_of};

/// The option by which names are printed.
pub const NAMES: Argument<'static> = Argument {
    name: "names",
    kind: Kind::Flag,
    help: "Print the image's names for addresses",
};

/// The arguments of a command that reads an image and its regions, and may print names.
pub const NAMED_FILES: &[Argument<'static>] = &[IMAGE, REGIONS, NAMES];

/// The paths of an image and of its regions, and whether names are printed.
#[derive(Clone, Copy)]
pub struct NamedFiles<'a> {
    pub image: &'a str,
    pub regions: &'a str,
    pub names: bool,
}

/// The bytes of an image's file and the text of its regions, each with its path.
#[derive(Drop)]
pub struct ProgramTexts<'a> {
    pub image: ReadFile<'a>,
    pub regions: ReadFile<'a>,
}

impl<'a> NamedFiles<'a> {
    /// The paths of the image and its regions, and whether names are asked for, as clap has read them.
    pub fn of(matches: &ArgMatches<'a>) -> NamedFiles<'a>
        ensures { AreNamedFiles matches.now result }
    {
        NamedFiles {
            image: argument_text(matches, "IMAGE"),
            regions: argument_text(matches, "REGIONS"),
            names: matches.get_flag("names"),
        }
    }

    /// Reads the image and its regions, and the image's names if they are asked for. Both files are read before one is checked; a fault is
    /// reported.
    pub fn read<C: Console>(self, console: &mut C) -> Result<(Image, Names), Reported>
        ensures read { IfOk result (λ read. IsProgramRead self.entry.image.now self.entry.regions.now self.entry.names
            (C.journal console.old) (C.journal console.new) read.0 read.1) }
        ensures fault { IfErr result (λ _. OnlyBlames (HaveNoProgram self.entry.names) (program_paths self.entry)
            (C.journal console.old) (C.journal console.new)) }
    {
        let texts = ProgramTexts::read(console, self.image, self.regions)?;
        texts.program(console, self.names)
    }

    /// Prints words on what a command has `given` of the program in these files, as `explain_given` does.
    pub fn explain<C: Console>(self, console: &C, given: &Result<u8, Reported>) {
        explain_given(console, given, self.names, self.image, Some(self.regions));
    }
}

impl<'a> ProgramTexts<'a> {
    /// Reads the files of an image and of its regions, in this order. A fault is reported.
    pub fn read<C: Console>(
        console: &mut C,
        image: &'a str,
        regions: &'a str,
    ) -> Result<ProgramTexts<'a>, Reported>
        ensures image { IfOk result (λ texts. texts.image.path.now ≡ image.now) }
        ensures regions { IfOk result (λ texts. texts.regions.path.now ≡ regions.now) }
        ensures read { IfOk result (λ texts. C.journal console.new ≡ and_read (and_read (C.journal console.old)
            image.now texts.image.bytes.items) regions.now texts.regions.bytes.items) }
        ensures fault { IfErr result (λ _. OnlyReports (image.now ∷ regions.now ∷ []) (C.journal console.old) (C.journal console.new)) }
    {
        let image = console.read_file(image)?;
        let regions = console.read_file(regions)?;
        Ok(ProgramTexts { image, regions })
    }

    /// The image that the image's file spells, with the regions that their text spells, and its names if they are `asked` for. The regions
    /// are checked first; a fault is reported.
    pub fn program<C: Console>(
        &self,
        console: &mut C,
        asked: bool,
    ) -> Result<(Image, Names), Reported>
        ensures contents { IfOk result (λ read. SpellsImage self.now.image.bytes.items (without_regions read.0)) }
        ensures regions { IfOk result (λ read. Spells self.now.regions.bytes.items read.0.regions) }
        ensures names { IfOk result (λ read. AreNamesOf asked self.now.image.bytes.items read.1) }
        ensures unchanged { IfOk result (λ _. C.journal console.new ≡ C.journal console.old) }
        ensures fault { IfErr result (λ _. Blames (AreOfNone asked self.now.image.bytes.items self.now.regions.bytes.items)
            (C.journal console.old) (C.journal console.new)) }
    {
        let areas = regions_of(console, self.regions.path, &self.regions.bytes)?;
        let image = image_of(console, self.image.path, &self.image.bytes, areas)?;
        let names = Names::of(console, asked, self.image.path, &self.image.bytes)?;
        Ok((image, names))
    }
}
