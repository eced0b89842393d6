//! `plm80 map`: where LOCATE would put a module's segments and public names.

ghost use Rattle.std.specs.Prelude.{◌≡◌, ◌⊎◌, ◌∷◌, None, Some, [], IfOk, IfErr, OnOk};
ghost use Rattle.place80.specs.{Layout.layout_of, PlaceFault.locate_fault, declared.place_fault.PlaceFault.TheVariants.Memory};
ghost use Rattle.place80_text.specs.Map.{IsMap};
ghost use Rattle.plm80_console.specs.{Answer.Gives, Answer.GivesUp, Answer.prints};
ghost use Rattle.plm80_objects.specs.{Arguments.AreMapArguments, Modules.MapsFile};

use crate::helpers::causes::report_place_fault;
use crate::helpers::locate_options::{
    CODE_BASE, COMMON_BASE, DATA_BASE, LocateTexts, MEMORY_BASE, MEMORY_SIZE, STACK_BASE,
    STACK_SIZE,
};
use crate::locate::read_program;
use clap::ArgMatches;
use omf_module::Module;
use omf_module::laws::one_file_reading;
use place80::{Options, PlaceFault};
use place80_text::map_text;
use plm80_console::{Answer, Argument, Console, Kind, Reported, Syntax, argument_text};
use plm80_files::explain_unread;
use std::alloc::Global;

/// The arguments of the command `map`.
#[derive(Clone, Copy)]
pub struct MapArguments<'a> {
    object: &'a str,
    options: LocateTexts<'a>,
}

const ABOUT: &str = "Prints where a module's segments and public names would be placed";

const AFTER_HELP: &str = "\
It takes locate's options except --restart, --publics, --rom-range and
--ram-range, and reports the same faults; it writes no file. Each segment has a
line with its name, its first address, its length and the name of a named
common, as in COMMON 3100 0010 TABLE. Then come the public names by address, as
in 3040 LIMIT. All numbers are hexadecimal.

Example: plm80 map control.obj --data 4000

Faults and what to do: docs/FAULTS.md (installed: share/doc/plm80), man plm80.";

/// The command `map`: its name, its help and its arguments.
pub const MAP: Syntax<'static> = Syntax {
    name: "map",
    about: ABOUT,
    after_help: AFTER_HELP,
    arguments: &[
        Argument {
            name: "IN",
            kind: Kind::Path,
            help: "The object file to read, of one module with a start",
        },
        CODE_BASE,
        STACK_BASE,
        COMMON_BASE,
        DATA_BASE,
        MEMORY_BASE,
        STACK_SIZE,
        MEMORY_SIZE,
    ],
};

impl<'a> MapArguments<'a> {
    /// Takes the arguments of `map` from what clap has matched.
    pub fn of(matches: &ArgMatches<'a>) -> MapArguments<'a>
        ensures { AreMapArguments matches.now result }
    {
        MapArguments {
            object: argument_text(matches, "IN"),
            options: LocateTexts::of(matches),
        }
    }
}

/// Does `map`: prints where LOCATE would put the segments and the public names of the object file's one module, and returns the exit
/// status.
pub fn map_file<C: Console>(console: &mut C, arguments: MapArguments<'_>) -> Result<u8, Reported>
    ensures done { IfOk result (Gives (MapsFile arguments.entry) (arguments.entry.object.now ∷ [])
        (C.journal console.old) (C.journal console.new)) }
    ensures fault { IfErr result (λ _. GivesUp (MapsFile arguments.entry) (arguments.entry.object.now ∷ [])
        (C.journal console.old) (C.journal console.new)) }
{
    one_file_reading();
    let options = arguments.options.numbers(console)?;
    let modules = read_program(console, arguments.object)?;
    let program = &modules[0];
    match map_program(console.alloc(), program, &options) {
        Ok(answer) => {
            explain_unread(console, arguments.object);
            console.give(answer)
        }
        Err(fault) => {
            let reported = report_place_fault(console, program, &options, &fault);
            explain_unread(console, arguments.object);
            Err(reported)
        }
    }
}

/// What `map` answers: the lines of the map of `program`, placed by these options. The fault says why it can't be placed.
fn map_program(
    alloc: Global,
    program: &Module,
    options: &Options,
) -> Result<Answer<'static>, PlaceFault>
    ensures map { IfOk result (λ answer. IsMap (layout_of options.now program.now) program.now answer.lines) }
    ensures printed { IfOk result (λ answer. answer ≡ prints answer.lines 0) }
    ensures none { OnOk result (locate_fault options.now program.now ≡ None) }
    ensures fault { IfErr result (λ fault. (fault ≡ Memory) ⊎ (locate_fault options.now program.now ≡ Some fault)) }
{
    let text = map_text(alloc, program, options)?;
    Ok(Answer::prints(text, 0))
}
