//! `plm80 module`: what an object file holds, module by module.

ghost use Rattle.std.specs.Prelude.{◌≡◌, ◌∷◌, ℕ, List, [], IfErr, IfOk, IfSome, codes};
ghost use Rattle.omf_core.specs.Record.{SpellsRecord};
ghost use Rattle.plm80_console.specs.{Answer.Gives, Answer.GivesUp, Arguments.argument_text};
ghost use Rattle.plm80_objects.specs.Modules.{AnswersModules, DescribesModules};

use clap::ArgMatches;
use omf_core::{RecordKind, next_record};
use omf_library::read_library;
use omf_module::Module;
use omf_text::append_module_text;
use plm80_console::{Answer, Argument, Console, Kind, Reported, Syntax, argument_text};
use plm80_files::{explain_unread, read_modules};
use std::alloc::{AllocError, Global};
use std::str;

/// The arguments of the command `module`.
#[derive(Clone, Copy)]
pub struct ModuleArguments<'a> {
    object: &'a str,
}

const ABOUT: &str = "Prints what an object file holds, module by module";

const AFTER_HELP: &str = "\
Each module has a line MODULE with its name. Then come its segments with their
lengths, PAGED if a segment begins at a multiple of 256; the names that it
declares, each with its segment and offset; the names that it NEEDS; its
contents, each with segment, offset and number of bytes; and its START, if it is
a main program. Numbers are hexadecimal. The name of a named common comes after
its numbers, as in COMMON 0010 TABLE.

Example: plm80 module readings.obj

Faults and what to do: docs/FAULTS.md (installed: share/doc/plm80), man plm80.";

/// The command `module`: its name, its help and its arguments.
pub const MODULE: Syntax<'static> = Syntax {
    name: "module",
    about: ABOUT,
    after_help: AFTER_HELP,
    arguments: &[Argument {
        name: "FILE",
        kind: Kind::Path,
        help: "The object file to read",
    }],
};

impl<'a> ModuleArguments<'a> {
    /// Takes the arguments of `module` from what clap has matched.
    pub fn of(matches: &ArgMatches<'a>) -> ModuleArguments<'a>
        ensures { result.object.now ≡ argument_text matches.now (codes "FILE") }
    {
        ModuleArguments {
            object: argument_text(matches, "FILE"),
        }
    }
}

/// Does `module`: prints what the object file has, module by module, and returns the exit status. Of a library in its place it says which
/// modules that has, if words are asked for.
pub fn describe_file<C: Console>(
    console: &mut C,
    arguments: ModuleArguments<'_>,
) -> Result<u8, Reported>
    ensures done { IfOk result (Gives (AnswersModules DescribesModules) (arguments.entry.object.now ∷ [])
        (C.journal console.old) (C.journal console.new)) }
    ensures fault { IfErr result (λ _. GivesUp (AnswersModules DescribesModules) (arguments.entry.object.now ∷ [])
        (C.journal console.old) (C.journal console.new)) }
{
    match read_modules(console, arguments.object) {
        Ok(modules) => {
            explain_unread(console, arguments.object);
            let answer = describe_modules(console.alloc(), &modules);
            console.give_if_made(answer)
        }
        Err(reported) => {
            explain_library(console, arguments.object);
            Err(reported)
        }
    }
}

/// Says which modules the file of this path has if it is a library, and the places of their first records, if words are asked for.
fn explain_library<C: Console>(console: &C, path: &str) {
    if let Some(bytes) = console.text_to_explain(path)
        && let Ok(library) = read_library(console.alloc(), &bytes)
    {
        let mut rest = 0;
        for member in &library.modules {
            let Some((at, after)) = header_from(&bytes, rest) else {
                break;
            };
            if let Ok(name) = str::from_utf8(member.name().bytes()) {
                console.explain(format_args!("it has the module {name} at {at}"));
            }
            rest = after;
        }
    }
}

/// The place of the first record from the place `from` on that begins a module, and the place after it. `None` if no record does.
fn header_from(bytes: &[u8], from: usize) -> Option<(usize, usize)>
    ensures { IfSome result (λ found. (body : List ℕ) × SpellsRecord bytes.now found.0 found.1 2 body) }
{
    let mut at = from;
    for _ in 0..bytes.len() {
        let (record, after) = next_record(bytes, at).ok()?;
        if record.kind == RecordKind::ModuleHeader as u8 {
            return Some((at, after));
        }
        at = after;
    }
    None
}

/// What `module` answers: the lines of all modules, in order.
fn describe_modules(alloc: Global, modules: &[Module]) -> Result<Answer<'static>, AllocError>
    ensures { IfOk result (DescribesModules modules.now) }
{
    let mut text = Vec::new(alloc);
    for described in modules {
        append_module_text(&mut text, described)?;
    }
    Ok(Answer::prints(text, 0))
}
