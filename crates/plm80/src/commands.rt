//! The commands of the program, done with files. Tests show what they print.

ghost use Rattle.std.specs.Prelude.{◌≡◌, map, string_bytes, IfErr, IfOk};
ghost use Rattle.std.specs.Process.{exit_status};
ghost use Rattle.plm80_console.specs.Journal.{and_reported};
ghost use Rattle.plm80.specs.Requests.{IsCommandDone, IsDone, IsFailed, IsPerformed};

mod arguments;
mod joined_words;
mod program_syntax;
mod untaken;

use arguments::{NoRequest, Request, read_arguments};
use joined_words::joined_words;
use plm80_console::{Console, Reported, exit_code};
use plm80_objects::{
    compare_files, describe_file, extract_file, find_modules, link_files, locate_file, map_file,
    write_absolute, write_library_file,
};
use plm80_programs::{
    check_files, explain_files, follow_files, list_files, list_stores, report_files, show_calls,
};
use plm80_regions::{advise_file, migrate_file, suggest_for_files};
use plm80_runs::{
    RunOutput, cover_files, run_among_devices, run_files, trace_among_devices, trace_files,
    write_inputs_file,
};
use std::alloc::AllocError;
use std::process::ExitCode;

/// Does the command, and gives the exit status: 1 if an image is refused, 2 at a fault, 3 or 4 as a run ends, and else 0. A fault is
/// one line on standard error, with words below it if the command asks for them; clap's errors and help are printed there too.
pub fn run_command<C: Console>(console: &mut C, arguments: &[String]) -> ExitCode
    ensures { IsCommandDone (map string_bytes arguments.now) (C.journal console.old) (C.journal console.new) (exit_status result) }
{
    let words = match joined_words(console.alloc(), arguments) {
        Ok(words) => words,
        Err(AllocError) => return console.report_memory().status(),
    };
    let (request, why) = match read_arguments(console, &words) {
        Ok(asked) => asked,
        Err(NoRequest::Untaken(error)) => return console.blame_usage(&error).status(),
        Err(NoRequest::Refused(error)) => return console.report_usage(&error).status(),
    };
    explain_if(console, why);
    do_request(console, request)
}

/// Makes the console explain faults from now on, if that is `asked` for.
pub fn explain_if<C: Console>(console: &mut C, asked: bool)
    ensures { C.journal console.new ≡ C.journal console.old }
{
    if asked {
        console.explain_faults();
    }
}

/// Does what a request asks for, and gives the exit status: that of its answer, or 2 at a fault.
fn do_request<C: Console>(console: &mut C, request: Request<'_>) -> ExitCode
    ensures { IsDone request.entry (C.journal console.old) (C.journal console.new) (exit_status result) }
{
    exit_code(perform(console, request))
}

/// Prints the error of arguments that are no text, and gives the exit status, 2.
pub fn refuse_arguments<C: Console>(console: &mut C) -> ExitCode
    ensures status { exit_status result ≡ 2 }
    ensures reported { C.journal console.new ≡ and_reported (C.journal console.old) }
{
    let error = arguments::no_text(console.alloc());
    console.report_usage(&error).status()
}

/// Does what a request asks for, and gives the status of its answer. A fault is reported.
fn perform<C: Console>(console: &mut C, request: Request<'_>) -> Result<u8, Reported>
    ensures done { IfOk result (IsPerformed request.entry (C.journal console.old) (C.journal console.new)) }
    ensures fault { IfErr result (λ _. IsFailed request.entry (C.journal console.old) (C.journal console.new)) }
{
    match request {
        Request::Link(arguments) => link_files(console, &arguments),
        Request::Locate(arguments) => locate_file(console, &arguments),
        Request::Run(arguments) => run_files(console, arguments),
        Request::RunOnBoard(arguments) => {
            run_among_devices(console, arguments, RunOutput::Transcript)
        }
        Request::List(arguments) => list_files(console, arguments),
        Request::Check(arguments) => check_files(console, arguments),
        Request::Explain(arguments) => explain_files(console, arguments),
        Request::Library(arguments) => write_library_file(console, &arguments),
        Request::Regions(arguments) => migrate_file(console, arguments),
        Request::Cases(arguments) => suggest_for_files(console, arguments),
        Request::Map(arguments) => map_file(console, arguments),
        Request::Extract(arguments) => extract_file(console, arguments),
        Request::Absolute(arguments) => write_absolute(console, &arguments),
        Request::Stores(arguments) => list_stores(console, &arguments),
        Request::Follow(arguments) => follow_files(console, &arguments),
        Request::Compare(arguments) => compare_files(console, arguments),
        Request::Inputs(arguments) => write_inputs_file(console, &arguments),
        Request::Calls(arguments) => show_calls(console, arguments),
        Request::Trace(arguments) => trace_files(console, arguments),
        Request::TraceOnBoard(arguments) => trace_among_devices(console, arguments),
        Request::Cover(arguments) => cover_files(console, arguments),
        Request::CoverOnBoard(arguments) => {
            run_among_devices(console, arguments, RunOutput::Counts)
        }
        Request::Module(arguments) => describe_file(console, arguments),
        Request::Find(arguments) => find_modules(console, &arguments),
        Request::Suggest(arguments) => advise_file(console, &arguments),
        Request::Report(arguments) => report_files(console, arguments),
    }
}
