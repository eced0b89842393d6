//! `plm80 regions`: a regions text as one of version 2.

ghost use Rattle.std.specs.Prelude.{◌≡◌, ◌∷◌, [], IfOk, IfErr};
ghost use Rattle.image80.specs.RegionsText.{Refuses};
ghost use Rattle.plm80_console.specs.Answer.{Gives, GivesUp};
ghost use Rattle.plm80_regions.specs.Arguments.{AreRegionsArguments};
ghost use Rattle.plm80_regions.specs.Written.{AnswersRegions, WritesMigrated};

use clap::ArgMatches;
use image80::laws::text_of_regions_is_read_as_itself;
use image80::{RegionsFault, migrate_regions};
use plm80_console::{Answer, Argument, Console, Kind, ReadFile, Reported, Syntax, argument_text};
use plm80_files::report_regions;
use std::alloc::Global;

/// The arguments of the command `regions`.
#[derive(Clone, Copy)]
pub struct RegionsArguments<'a> {
    old: &'a str,
    new: &'a str,
}

const AFTER_HELP: &str = "\
NEW gets the regions of OLD, a text of version 1 or 2, as version 2. Lines CASE
aaaa tttt .. can be added to it: the targets of the PCHL at aaaa, the jump of a
PL/M DO CASE. If OLD can't be read, nothing is written. NEW may be OLD itself.

Example: plm80 regions readings.regions readings.regions2

Faults and what to do: docs/FAULTS.md (installed: share/doc/plm80), man plm80.";

/// The command `regions`: its name, its help and its arguments.
pub const REGIONS: Syntax<'static> = Syntax {
    name: "regions",
    about: "Converts a regions text to version 2, which may have CASE lines",
    after_help: AFTER_HELP,
    arguments: &[
        Argument {
            name: "OLD",
            kind: Kind::Path,
            help: "The regions text to read, of version 1 or 2",
        },
        Argument {
            name: "NEW",
            // It may be OLD itself, whose regions it has.
            kind: Kind::Path,
            help: "The file to write its text of version 2 to",
        },
    ],
};

impl<'a> RegionsArguments<'a> {
    /// Takes the arguments of `regions` from what clap has matched.
    pub fn of(matches: &ArgMatches<'a>) -> RegionsArguments<'a>
        ensures { AreRegionsArguments matches.now result }
    {
        RegionsArguments {
            old: argument_text(matches, "OLD"),
            new: argument_text(matches, "NEW"),
        }
    }
}

/// Does `regions`: writes the regions that a file's text spells to another file, as a text of version 2, and returns the exit status. No
/// file is created or changed before every other fault is excluded.
pub fn migrate_file<C: Console>(
    console: &mut C,
    arguments: RegionsArguments<'_>,
) -> Result<u8, Reported>
    ensures done { let asked = arguments.entry in IfOk result (Gives (AnswersRegions asked.new.now) (asked.old.now ∷ [])
        (C.journal console.old) (C.journal console.new)) }
    ensures fault { let asked = arguments.entry in IfErr result (λ _. GivesUp (AnswersRegions asked.new.now) (asked.old.now ∷ [])
        (C.journal console.old) (C.journal console.new)) }
{
    text_of_regions_is_read_as_itself();
    let old = console.read_file(arguments.old)?;
    match migrated(console.alloc(), &old, arguments.new) {
        Ok(answer) => console.give(answer),
        Err(fault) => Err(report_regions(console, old.path, &old.bytes, fault)),
    }
}

/// What `regions` answers: the regions that the text of `old` spells go to the file `new`, as a text of version 2.
fn migrated<'a>(alloc: Global, old: &ReadFile<'_>, new: &'a str) -> Result<Answer<'a>, RegionsFault>
    ensures text { IfOk result (WritesMigrated old.now.bytes.items new.now) }
    ensures fault { IfErr result (Refuses old.now.bytes.items) }
{
    let mut text = Vec::new(alloc);
    migrate_regions(alloc, &old.bytes, &mut text)?;
    Ok(Answer::writes(new, text, Vec::new(alloc)))
}
