//! The program for clap: its commands in groups, and its help text.

ghost use Rattle.std.specs.Prelude.{◌≡◌, find, map, option_map, IfOk};
ghost use Rattle.std.specs.Str.{bytes_eq};
ghost use Rattle.clap.specs.Simple.{app_of};
ghost use Rattle.plm80.specs.CommandLine.{app_with, command_named, commands, object_commands, plm80_app, prom_commands, run_commands, verifier_commands};
ghost use Rattle.plm80_console.specs.SyntaxTable.{shape_of_syntax};

use clap::{Command, Error};
use plm80_console::{OneLine, Syntax};
use plm80_objects::{ABSOLUTE, COMPARE, EXTRACT, FIND, LIB, LINK, LOCATE, MAP, MODULE};
use plm80_programs::{CALLS, CHECK, EXPLAIN, FOLLOW, LIST, REPORT, STORES};
use plm80_regions::{CASES, REGIONS, SUGGEST};
use plm80_runs::{COVER, INPUTS, RUN, TRACE};
use std::alloc::{AllocError, Global};

const AFTER_HELP: &str = "\
plm80 help COMMAND, or plm80 COMMAND --help, prints the help of a command.

Without arguments it reads a bundle from standard input (an image in
hexadecimal, its regions, a line INPUTS, its inputs) and prints the transcript
of its run. Words below the line of a fault or a refusal explain it if standard
error is a terminal, or by --why, alone or after a command, or PLM80_WHY=1 in
the environment; PLM80_WHY=0 leaves them out. Files have at most 1048576 bytes,
a bundle 4194312.

The exit status is 0 if the command succeeded or the program halted; 1 if the
verifier refuses the program, or as the help of stores, follow, cases, suggest,
compare and find says; 2 for a fault of the arguments or of a file, and for
help; 3 if the program stops at an empty port, a refused output, a store outside
data or a jump outside its declared targets; and 4 if its steps are used up.

Example: plm80 locate readings.obj readings.img readings.regions
         plm80 run readings.img readings.regions readings.inputs

Faults and what to do: docs/FAULTS.md (installed: share/doc/plm80), man plm80.";

/// The commands of object files, in the order of the help text. (Several functions make the commands, since one proof of all their
/// texts is more than the prover takes.)
pub(crate) fn object_commands() -> [Syntax<'static>; 5]
    ensures { map shape_of_syntax result ≡ object_commands }
{
    [LIB, LINK, LOCATE, MAP, MODULE]
}

/// The commands that verify a located program, in the order of the help text.
pub(crate) fn verifier_commands() -> [Syntax<'static>; 6]
    ensures { map shape_of_syntax result ≡ verifier_commands }
{
    [CHECK, EXPLAIN, CALLS, STORES, FOLLOW, REPORT]
}

/// The commands that run a located program, in the order of the help text.
pub(crate) fn run_commands() -> [Syntax<'static>; 4]
    ensures { map shape_of_syntax result ≡ run_commands }
{
    [RUN, TRACE, COVER, INPUTS]
}

/// The commands of PROMs, and of programs of which there are no object files, in the order of the help text.
pub(crate) fn prom_commands() -> [Syntax<'static>; 8]
    ensures { map shape_of_syntax result ≡ prom_commands }
{
    [
        ABSOLUTE, EXTRACT, COMPARE, FIND, SUGGEST, CASES, LIST, REGIONS,
    ]
}

/// All commands, in the order of the help text. `AllocError` only if memory runs out.
pub(crate) fn commands(alloc: Global) -> Result<Vec<Syntax<'static>>, AllocError>
    ensures { IfOk result (λ all. map shape_of_syntax all.items ≡ commands) }
{
    let mut all = Vec::new(alloc);
    all.extend_from_slice(&object_commands())?;
    all.extend_from_slice(&verifier_commands())?;
    all.extend_from_slice(&run_commands())?;
    all.extend_from_slice(&prom_commands())?;
    Ok(all)
}

/// The command of this name; `None` if there is none. `AllocError` only if memory runs out.
pub(crate) fn command_named(
    alloc: Global,
    name: &str,
) -> Result<Option<Syntax<'static>>, AllocError>
    ensures { IfOk result (λ found. option_map shape_of_syntax found ≡ command_named name.now) }
{
    let all = commands(alloc)?;
    Ok(first_named(&all, name))
}

/// The first of these commands that has this name; `None` if there is none.
fn first_named<'a>(commands: &[Syntax<'a>], name: &str) -> Option<Syntax<'a>>
    ensures { option_map shape_of_syntax result ≡ find (λ command. bytes_eq command.name name.now) (map shape_of_syntax commands.now) }
{
    for command in commands {
        if command.name == name {
            return Some(*command);
        }
    }
    None
}

/// What `--version` prints.
const VERSION: &str = "1.2";

/// The program with its commands, for clap; the text `after` follows the list of its options. `AllocError` only if memory runs out.
pub(crate) fn program<'a>(alloc: Global, after: &'a str) -> Result<Command<'a>, AllocError>
    ensures { IfOk result (λ program. app_of program ≡ plm80_app) }
{
    let all = commands(alloc)?;
    program_of(alloc, after, &all)
}

/// The program with these commands, for clap; the text `after` follows the list of its options. `AllocError` only if memory runs out.
pub(crate) fn program_of<'a>(
    alloc: Global,
    after: &'a str,
    commands: &[Syntax<'a>],
) -> Result<Command<'a>, AllocError>
    ensures { IfOk result (λ program. app_of program ≡ app_with (map shape_of_syntax commands.now)) }
{
    let mut program = Command::new(alloc, "plm80")
        .version(VERSION)
        .about("Links, locates, verifies and runs 8080 programs from OMF-80 object files")
        .override_usage("plm80 <COMMAND>")
        .after_help(after)
        .subcommand_required(true)
        .bin_name("plm80")?;
    for command in commands {
        program = program.subcommand(command.command(alloc)?.hide(true))?;
    }
    Ok(program)
}

/// What clap prints for the words of a command line that it doesn't take, with this error, or that asks for help: with the commands in
/// groups, and with control characters of the words shown.
pub(crate) fn shown_error(alloc: Global, words: &[String], error: Error) -> Error {
    match refused_again(alloc, words) {
        Ok(Some(shown)) => shown,
        Ok(None) => error,
        Err(AllocError) => Error::from(AllocError),
    }
}

/// The error of these words, read again with their control characters shown; `None` if there is none then.
fn refused_again(alloc: Global, words: &[String]) -> Result<Option<Error>, AllocError> {
    let mut shown = Vec::new(alloc);
    for word in words {
        shown.push(format!(in alloc; "{}", OneLine(word.as_str()))?)?;
    }
    let after = help_text(alloc)?;
    Ok(program(alloc, &after)?.try_get_matches_from(&shown).err())
}

/// What follows the options of the program in its help text: the commands in groups, and further words.
fn help_text(alloc: Global) -> Result<String, AllocError> {
    let mut text = String::new(alloc);
    append_group(&mut text, "Object files", &object_commands())?;
    append_group(&mut text, "Located programs", &verifier_commands())?;
    append_group(&mut text, "Runs", &run_commands())?;
    append_group(
        &mut text,
        "PROMs, and programs without object files",
        &prom_commands(),
    )?;
    text.push_str(AFTER_HELP)?;
    Ok(text)
}

/// Appends the commands of a group, each with what it does.
fn append_group(
    text: &mut String,
    heading: &str,
    commands: &[Syntax<'_>],
) -> Result<(), AllocError> {
    write!(text, "{heading}:\n")?;
    for command in commands {
        write!(text, "  {:<8}  {}\n", command.name, command.about)?;
    }
    text.push_str("\n")
}
