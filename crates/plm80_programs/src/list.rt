//! `plm80 list`: the instructions of a located program.

ghost use Rattle.std.specs.Prelude.{◌≡◌, [], true, IfErr, IfOk};
ghost use Rattle.plm80_console.specs.Answer.{Gives, GivesUp};
ghost use Rattle.plm80_names.specs.{Arguments.asks_names, Arguments.program_paths, Verdict.AnswersProgram};
ghost use Rattle.plm80_programs.specs.{Arguments.AreListArguments, Followed.ListsFollowedCode, Followed.ListsFollowedSource, Printed.ListsCode};
ghost use Rattle.plm80_programs.specs.{Printed.ListsSource, Printed.PrintsListing, Reached.ShowsCode, Reached.ShowsSource};

use crate::followed::{FollowedCode, Following, answer_or_follow, append_followed};
use crate::printing::Printing;
use crate::reached::{Reaching, Unproved};
use clap::ArgMatches;
use image80::Image;
use image80_source::{code_in_sequence, source_of};
use image80_text::listing;
use loader80::Vouched;
use loader80_trace::{list_instructions, list_marked, list_reached};
use plm80_console::laws::faults_follow_reading;
use plm80_console::{Answer, Argument, Console, Kind, Reported, Syntax};
use plm80_files::{IMAGE, REGIONS};
use plm80_names::{NAMES, NamedFiles, Names, explain_listed};
use std::alloc::{AllocError, Global};
use verify80::find_reached;

/// The arguments of the command `list`.
#[derive(Clone, Copy)]
pub struct ListArguments<'a> {
    files: NamedFiles<'a>,
    reached: bool,
    source: bool,
}

const AFTER_HELP: &str = "\
Each range of code is listed from its first byte on: the address, the bytes and
the text of each instruction, in hexadecimal. A byte that begins no instruction,
or whose instruction leaves the range, has a line of its own with the text ??.

With --reached the image is verified first, as by check. Then each instruction
that the program may reach has a line, and the rest of CODE is data, eight bytes
a line, so a table doesn't garble the code after it. Of an image that is refused
but that follow takes it is the code that is followed, below FOLLOWED n STATES.
Of any other one it is the code that is reached if what is refused were passed
over: below NOT PROVED REFUSALS n stand the refusals, and what is taken for
granted; a refused instruction has a line REFUSED AT before it, and the exit
status is 1.

--asm prints a source for Intel's ASM80: assembled, it gives the image's bytes
at their addresses. CODE is instructions, as it is listed without --asm; the
rest is DB, or DW for the address of a case's target. An address that is used
has a label, L3084, or R2000 in DATA and STACK, and a port a name, P01.

--names prints before an instruction, on a line of its own, the first public at
its address. With --asm this is the label, if ASM80 takes it, else a comment.

Example: plm80 list readings.img readings.regions

Faults and what to do: docs/FAULTS.md (installed: share/doc/plm80), man plm80.";

/// The command `list`: its name, its help and its arguments.
pub const LIST: Syntax<'static> = Syntax {
    name: "list",
    about: "Prints the instructions of an image's code",
    after_help: AFTER_HELP,
    arguments: &[
        IMAGE,
        REGIONS,
        Argument {
            name: "reached",
            kind: Kind::Flag,
            help: "List the code to which the program may come",
        },
        Argument {
            name: "asm",
            kind: Kind::Flag,
            help: "Print a source that assembles to the image",
        },
        NAMES,
    ],
};

impl<'a> ListArguments<'a> {
    /// Takes the arguments of `list` from what clap has matched.
    pub fn of(matches: &ArgMatches<'a>) -> ListArguments<'a>
        ensures { AreListArguments matches.now result }
    {
        ListArguments {
            files: NamedFiles::of(matches),
            reached: matches.get_flag("reached"),
            source: matches.get_flag("asm"),
        }
    }
}

/// Does `list`: prints the code of the image, or with `--reached` what its program may reach of it, or with `--asm` a source in which that
/// is code, and returns the exit status, 1 for a refusal.
pub fn list_files<C: Console>(console: &mut C, arguments: ListArguments<'_>) -> Result<u8, Reported>
    ensures done { let asked = arguments.entry in IfOk result (Gives (AnswersProgram (PrintsListing asked.reached asked.source) (asks_names asked.files))
        (program_paths asked.files) (C.journal console.old) (C.journal console.new)) }
    ensures fault { IfErr result (λ _. GivesUp (AnswersProgram (PrintsListing arguments.entry.reached arguments.entry.source)
        (asks_names arguments.entry.files)) (program_paths arguments.entry.files)
        (C.journal console.old) (C.journal console.new)) }
{
    faults_follow_reading();
    let ListArguments {
        files,
        reached,
        source,
    } = arguments;
    let (image, names) = files.read(console)?;
    let answer = listed(console.alloc(), image, reached, source, &names);
    let given = console.give_if_made(answer);
    files.explain(console, &given);
    explain_listed(console, &given, files.image, files.regions);
    given
}

/// What `list` answers: all code of `image`, or with `reached` what its program may reach of it; as a source, if one is asked for.
fn listed(
    alloc: Global,
    image: Image,
    reached: bool,
    source: bool,
    names: &Names,
) -> Result<Answer<'static>, AllocError>
    ensures { IfOk result (PrintsListing reached source image names.now) }
{
    if source {
        return sourced(alloc, image, reached, names);
    }
    if reached {
        return answer_or_follow(alloc, image, names, ReachedCode);
    }
    let text = listing(alloc, &image)?;
    let text = names.label(alloc, false, text)?;
    Ok(Answer::prints(text, 0))
}

/// What `list --asm` answers: the source of `image`, in which all code is instructions, or with `reached` what its program may reach of it.
fn sourced(
    alloc: Global,
    image: Image,
    reached: bool,
    names: &Names,
) -> Result<Answer<'static>, AllocError>
    ensures { IfOk result (PrintsListing reached true image names.now) }
{
    if reached {
        return answer_or_follow(alloc, image, names, ReachedSource);
    }
    let table = code_in_sequence(alloc, &image)?;
    let text = source_of(alloc, &image, &table, names.publics())?;
    Ok(Answer::prints(text, 0))
}

/// The source in which the code that a program may reach is instructions.
#[derive(Clone, Copy)]
struct ReachedSource;

impl Printing for ReachedSource {
    ghost says = { λ _. ListsSource };

    fn text(self, alloc: Global, vouched: &Vouched, names: &Names) -> Result<Vec<u8>, AllocError> {
        let reached = find_reached(alloc, vouched)?;
        source_of(
            alloc,
            vouched.image(),
            reached.instructions(),
            names.publics(),
        )
    }
}

/// The code that a program may reach, with names.
#[derive(Clone, Copy)]
struct ReachedCode;

impl Printing for ReachedCode {
    ghost says = { λ _. ListsCode };

    fn text(self, alloc: Global, vouched: &Vouched, names: &Names) -> Result<Vec<u8>, AllocError> {
        let text = list_reached(alloc, vouched)?;
        let text = names.label(alloc, false, text)?;
        Ok(text)
    }
}

impl Reaching for ReachedSource {
    ghost shows = { λ _. ShowsSource };

    fn reached_text(
        &self,
        alloc: Global,
        image: &Image,
        names: &Names,
        unproved: &Unproved,
    ) -> Result<Vec<u8>, AllocError> {
        let table = unproved.instructions(alloc, image)?;
        let source = source_of(alloc, image, &table, names.publics())?;
        let mut text = Vec::new(alloc);
        text.extend_from_slice(b"; ".as_slice())?;
        unproved.append_count(alloc, &mut text)?;
        text.extend_from_slice(&source)?;
        Ok(text)
    }
}

impl Reaching for ReachedCode {
    ghost shows = { λ _. ShowsCode };

    fn reached_text(
        &self,
        alloc: Global,
        image: &Image,
        names: &Names,
        unproved: &Unproved,
    ) -> Result<Vec<u8>, AllocError> {
        let table = unproved.instructions(alloc, image)?;
        let marks = unproved.marks(alloc)?;
        let listed = list_marked(alloc, image, &table, &marks)?;
        let listed = names.label(alloc, false, listed)?;
        let mut text = unproved.head(alloc, image, names)?;
        text.extend_from_slice(&listed)?;
        Ok(text)
    }
}

impl Following for ReachedSource {
    ghost lists = { λ _. ListsFollowedSource };

    fn followed_text(
        &self,
        alloc: Global,
        image: &Image,
        names: &Names,
        code: &FollowedCode,
    ) -> Result<Vec<u8>, AllocError> {
        let source = source_of(alloc, image, &code.reached, names.publics())?;
        let mut text = Vec::new(alloc);
        text.extend_from_slice(b"; ".as_slice())?;
        append_followed(alloc, &mut text, code)?;
        text.extend_from_slice(&source)?;
        Ok(text)
    }
}

impl Following for ReachedCode {
    ghost lists = { λ _. ListsFollowedCode };

    fn followed_text(
        &self,
        alloc: Global,
        image: &Image,
        names: &Names,
        code: &FollowedCode,
    ) -> Result<Vec<u8>, AllocError> {
        let listed = list_instructions(alloc, image, &code.reached)?;
        let listed = names.label(alloc, false, listed)?;
        let mut text = Vec::new(alloc);
        append_followed(alloc, &mut text, code)?;
        text.extend_from_slice(&listed)?;
        Ok(text)
    }
}
