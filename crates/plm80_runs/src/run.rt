//! `plm80 run`: the transcript of a located program's run.

ghost use Rattle.std.specs.Prelude.{◌≡◌, IfErr, IfOk};
ghost use Rattle.plm80_console.specs.Answer.{Gives, GivesUp};
ghost use Rattle.plm80_runs.specs.Arguments.{AreRunArguments, run_paths};
ghost use Rattle.plm80_runs.specs.Running.{RunsFiles, is_session};

use crate::run_arguments::{INPUTS, LimitTexts, OUTPUTS, RunFiles, STEPS};
use crate::session_files::run_session;
use crate::watching::{Watch, watch_run};
use clap::ArgMatches;
use plm80_boards::BOARD;
use plm80_console::{Argument, Console, Kind, OptionText, Reported, Syntax};
use plm80_files::{IMAGE, REGIONS};
use plm80_names::NAMES;

/// The arguments of the command `run`.
#[derive(Clone, Copy)]
pub struct RunArguments<'a> {
    files: RunFiles<'a>,
    limits: LimitTexts<'a>,
    last: OptionText<'a>,
    dump: Option<&'a str>,
}

const AFTER_HELP: &str = "\
N is a decimal number, at most 18446744073709551615. A line of INPUTS is a port,
a blank and the bytes that the program reads there, all of two hexadecimal
digits, as in 02 41FF; an empty file means no input.

When the run has ended, its transcript is printed: the bytes of stack that the
program needs, each byte that it writes to a port, and how it ended, after how
many steps. Before the last line, --last prints the last N instructions as trace
does, without numbers: the last one ended the run, or comes next if the steps
were used up. --dump writes the memory that the run leaves, 65536 bytes. --names
prints names as check and list do: before an instruction the one at its address,
behind the last line that of its address.

With --board the program runs among the devices of a board's text
(docs/FORMATS.md, 'Boards'), and INPUTS is left out: a port or a cell of a DEVICE
answers as the text says, and a store to such a cell is an output, as in
OUT F000 41. --last and --dump aren't for such runs.

Example: plm80 run readings.img readings.regions readings.inputs --steps 5000

Faults and what to do: docs/FAULTS.md (installed: share/doc/plm80), man plm80.";

/// The command `run`: its name, its help and its arguments.
pub const RUN: Syntax<'static> = Syntax {
    name: "run",
    about: "Verifies an image and runs it: prints the transcript, or the refusal",
    after_help: AFTER_HELP,
    arguments: &[
        IMAGE,
        REGIONS,
        INPUTS,
        STEPS,
        OUTPUTS,
        Argument {
            name: "last",
            kind: Kind::Count("0"),
            help: "Print the last N instructions before the last line",
        },
        Argument {
            name: "dump",
            kind: Kind::WrittenIfGiven("OUT"),
            help: "The file to write the memory at the end to",
        },
        NAMES,
        Argument {
            name: BOARD,
            kind: Kind::PathInPlaceOf(&["INPUTS", "last", "dump"]),
            help: "The board's text, whose devices answer in place of INPUTS",
        },
    ],
};

impl<'a> RunArguments<'a> {
    /// Takes the arguments of `run` from what clap has matched.
    pub fn of(matches: &ArgMatches<'a>) -> RunArguments<'a>
        ensures { AreRunArguments matches.now result }
    {
        RunArguments {
            files: RunFiles::of(matches),
            limits: LimitTexts::of(matches),
            last: OptionText::of(matches, "last"),
            dump: matches.get_str("dump"),
        }
    }

    /// Whether nothing but the transcript is asked for: none of the last instructions, of which `last` are wanted, no memory and no names.
    fn is_session(self, last: u64) -> bool
        ensures { result ≡ is_session self.entry last }
    {
        last == 0 && self.dump.is_none() && !self.files.program.names
    }
}

/// Does `run`: runs the image and returns the exit status. The run is a session if nothing but its transcript is asked for, else it is
/// watched.
pub fn run_files<C: Console>(console: &mut C, arguments: RunArguments<'_>) -> Result<u8, Reported>
    ensures done { let asked = arguments.entry in IfOk result (Gives (RunsFiles asked) (run_paths asked.files)
        (C.journal console.old) (C.journal console.new)) }
    ensures fault { let asked = arguments.entry in IfErr result (λ _. GivesUp (RunsFiles asked) (run_paths asked.files)
        (C.journal console.old) (C.journal console.new)) }
{
    let limits = arguments.limits.numbers(console)?;
    let last = arguments.last.count(console)?;
    if arguments.is_session(last) {
        return run_session(console, arguments.files, limits);
    }
    let watch = Watch {
        limits,
        last,
        dump: arguments.dump,
    };
    let given = watch_run(console, arguments.files, watch);
    arguments.files.program.explain(console, &given);
    given
}
