//! The command line, read by clap.

ghost use Rattle.std.specs.Prelude.{◌≡◌, ◌⊎◌, false, true, None, codes, map, string_bytes, IfOk, IfErr, IfSome, OnOk};
ghost use Rattle.clap.specs.{Matches.has_subcommand, Simple.HasMatchesOf, Simple.subcommand_of, Simple.subcommand_rows_of, Values.kind_of};
ghost use Rattle.plm80_console.specs.Refusals.{IsConflict};
ghost use Rattle.plm80.specs.{Apart.AreApartIn, CommandLine.IsUntaken, CommandLine.plm80_app, Requests.AreArgumentsOf, Requests.IsRequestOf, Requests.command_name, Requests.is_of_words};

use super::program_syntax::{program, shown_error};
use super::untaken::is_untaken;
use clap::error::ErrorKind;
use clap::{ArgMatches, Error};
use plm80_console::{Console, WHY};
use plm80_objects::{
    ABSOLUTE, AbsoluteArguments, CompareArguments, EXTRACT, ExtractArguments, FindArguments, LIB,
    LINK, LOCATE, LibraryArguments, LinkArguments, LocateArguments, MapArguments, ModuleArguments,
};
use plm80_programs::{
    CallsArguments, CheckArguments, ExplainArguments, FollowArguments, ListArguments, REPORT,
    ReportArguments, StoresArguments,
};
use plm80_regions::{CASES, CasesArguments, RegionsArguments, SuggestArguments};
use plm80_runs::{
    BoardRunArguments, BoardTraceArguments, CoverArguments, InputsArguments, RUN, RunArguments,
    TraceArguments,
};
use std::alloc::{AllocError, Global};

/// A command with its arguments.
#[derive(Drop)]
pub enum Request<'a> {
    Link(LinkArguments<'a>),
    Locate(LocateArguments<'a>),
    Run(RunArguments<'a>),
    RunOnBoard(BoardRunArguments<'a>),
    List(ListArguments<'a>),
    Check(CheckArguments<'a>),
    Explain(ExplainArguments<'a>),
    Library(LibraryArguments<'a>),
    Regions(RegionsArguments<'a>),
    Cases(CasesArguments<'a>),
    Map(MapArguments<'a>),
    Extract(ExtractArguments<'a>),
    Absolute(AbsoluteArguments<'a>),
    Stores(StoresArguments<'a>),
    Follow(FollowArguments<'a>),
    Compare(CompareArguments<'a>),
    Inputs(InputsArguments<'a>),
    Calls(CallsArguments<'a>),
    Trace(TraceArguments<'a>),
    TraceOnBoard(BoardTraceArguments<'a>),
    Cover(CoverArguments<'a>),
    CoverOnBoard(BoardRunArguments<'a>),
    Module(ModuleArguments<'a>),
    Find(FindArguments<'a>),
    Suggest(SuggestArguments<'a>),
    Report(ReportArguments<'a>),
}

/// Why a command line asks for nothing that can be done, as clap prints it.
#[derive(Drop)]
pub enum NoRequest {
    /// clap doesn't take its words: they are no command's, or ask for help.
    Untaken(Error),
    /// clap takes its words, and yet they are refused: a file would be written that is read, or written twice. Or memory ran out.
    Refused(Error),
}

/// Reads the words of a command line, as `joined_words` gives them, of which the first is the program's own name: its command, and whether
/// `--why` asks for words about faults. The error is one of clap, or the help text if that is asked for.
pub fn read_arguments<'a, C: Console>(
    console: &C,
    words: &'a [String],
) -> Result<(Request<'a>, bool), NoRequest>
    ensures request { IfOk result (λ asked. IsRequestOf (subcommand_of plm80_app (map string_bytes words.now)) asked.0) }
    ensures untaken { IfErr result (λ why. is_of_words why ≡ true → IsUntaken (map string_bytes words.now)) }
{
    let alloc = console.alloc();
    let matches = match matches_of(alloc, words) {
        Ok(matches) => matches,
        Err(error) => return Err(untaken(alloc, words, error)),
    };
    match asked_for(console, &matches) {
        Ok(Some(request)) => Ok((request, is_explained(&matches))),
        Ok(None) => {
            let error = refusal(alloc, ErrorKind::MissingSubcommand, "no command");
            Err(NoRequest::Refused(error))
        }
        Err(error) => Err(NoRequest::Refused(error)),
    }
}

/// Why these words ask for nothing, with this error of clap: it doesn't take them, unless memory ran out.
fn untaken(alloc: Global, words: &[String], error: Error) -> NoRequest
    ensures { is_of_words result ≡ true → IsUntaken (map string_bytes words.now) }
{
    match is_untaken(alloc, words) {
        Ok(true) => NoRequest::Untaken(shown_error(alloc, words, error)),
        Ok(false) => NoRequest::Refused(error),
        Err(AllocError) => NoRequest::Refused(Error::from(AllocError)),
    }
}

/// What clap reads in these words. The error is one of clap.
fn matches_of(alloc: Global, words: &[String]) -> Result<ArgMatches<'_>, Error>
    ensures matches { IfOk result (HasMatchesOf plm80_app (map string_bytes words.now)) }
{
    program(alloc, "")?.try_get_matches_from(words)
}

/// Whether `--why` behind the command's name asks for words about faults; `false` without a command.
fn is_explained(matches: &ArgMatches<'_>) -> bool
    ensures { has_subcommand matches.now ≡ false → result ≡ false }
{
    match matches.subcommand() {
        Some((_, arguments)) => arguments.get_flag(WHY.name),
        None => false,
    }
}

/// The error of arguments that are no text.
pub fn no_text(alloc: Global) -> Error
    ensures { (kind_of result ≡ ErrorKind.InvalidValue) ⊎ (kind_of result ≡ ErrorKind.OutOfMemory) }
{
    refusal(
        alloc,
        ErrorKind::InvalidValue,
        "invalid UTF-8 was detected in one or more arguments",
    )
}

/// An error of the command line of this kind and text, as clap prints it; if memory runs out for it, clap's error of that.
fn refusal(alloc: Global, kind: ErrorKind, text: &str) -> Error
    ensures { (kind_of result ≡ kind) ⊎ (kind_of result ≡ ErrorKind.OutOfMemory) }
{
    match refuse(alloc, kind, text) {
        Ok(error) => error,
        Err(refused) => Error::from(refused),
    }
}

/// An error of the command line of this kind and text. `AllocError` only if memory runs out for it.
fn refuse(alloc: Global, kind: ErrorKind, text: &str) -> Result<Error, AllocError>
    ensures { IfOk result (λ error. kind_of error ≡ kind) }
{
    program(alloc, "")?.error(kind, text)
}

/// The request that clap has read; `None` without a command. Arguments are refused by which a file would be written that is read, or
/// written twice.
fn asked_for<'a, C: Console>(
    console: &C,
    matches: &ArgMatches<'a>,
) -> Result<Option<Request<'a>>, Error>
    ensures none { IfOk result (λ asked. has_subcommand matches.now ≡ false → asked ≡ None) }
    ensures request { IfOk result (λ asked. IfSome asked (IsRequestOf (subcommand_rows_of matches.now))) }
    ensures conflict { IfErr result IsConflict }
{
    let Some((name, arguments)) = matches.subcommand() else {
        return Ok(None);
    };
    match request_of(console.alloc(), name, arguments)? {
        Some(request) => Ok(Some(unless_shared(console, request, arguments)?)),
        None => Ok(None),
    }
}

/// The request itself, unless one of its arguments has the path of a file that another one writes: then an error of clap.
fn unless_shared<'a, C: Console>(
    console: &C,
    request: Request<'a>,
    arguments: &ArgMatches<'a>,
) -> Result<Request<'a>, Error>
    ensures request { IfOk result (λ given. given ≡ request.entry) }
    ensures apart { IfOk result (λ given. AreApartIn arguments.now given) }
    ensures conflict { IfErr result IsConflict }
{
    refuse_shared_paths(console, &request, arguments)?;
    Ok(request)
}

/// Refuses arguments by which this request would write a file that it reads, or write a file twice. The error is one of clap.
fn refuse_shared_paths<C: Console>(
    console: &C,
    request: &Request<'_>,
    arguments: &ArgMatches<'_>,
) -> Result<(), Error>
    ensures apart { OnOk result (AreApartIn arguments.now request.now) }
    ensures conflict { IfErr result IsConflict }
{
    match request {
        Request::Link(_) => LINK.refuse_shared_paths(console, arguments),
        Request::Library(_) => LIB.refuse_shared_paths(console, arguments),
        Request::Locate(_) => LOCATE.refuse_shared_paths(console, arguments),
        Request::Run(_) => RUN.refuse_shared_paths(console, arguments),
        Request::Cases(_) => CASES.refuse_shared_paths(console, arguments),
        Request::Extract(_) => EXTRACT.refuse_shared_paths(console, arguments),
        Request::Absolute(_) => ABSOLUTE.refuse_shared_paths(console, arguments),
        Request::Report(_) => REPORT.refuse_shared_paths(console, arguments),
        _ => Ok(()),
    }
}

/// The request of the command with this name and these arguments.
fn request_of<'a>(
    alloc: Global,
    name: &str,
    arguments: &ArgMatches<'a>,
) -> Result<Option<Request<'a>>, AllocError>
    ensures name { IfOk result (λ asked. IfSome asked (λ request. name.now ≡ command_name request)) }
    ensures arguments { IfOk result (λ asked. IfSome asked (AreArgumentsOf arguments.now)) }
{
    match name {
        "link" => Ok(Some(Request::Link(LinkArguments::of(alloc, arguments)?))),
        "locate" => Ok(Some(Request::Locate(LocateArguments::of(alloc, arguments)?))),
        "run" => Ok(Some(run_request(arguments))),
        "list" => Ok(Some(Request::List(ListArguments::of(arguments)))),
        "check" => Ok(Some(Request::Check(CheckArguments::of(arguments)))),
        "explain" => Ok(Some(Request::Explain(ExplainArguments::of(arguments)))),
        "lib" => Ok(Some(Request::Library(LibraryArguments::of(alloc, arguments)?))),
        "regions" => Ok(Some(Request::Regions(RegionsArguments::of(arguments)))),
        "cases" => Ok(Some(Request::Cases(CasesArguments::of(arguments)))),
        "map" => Ok(Some(Request::Map(MapArguments::of(arguments)))),
        "extract" => Ok(Some(Request::Extract(ExtractArguments::of(arguments)))),
        "absolute" => Ok(Some(Request::Absolute(AbsoluteArguments::of(alloc, arguments)?))),
        "stores" => Ok(Some(Request::Stores(StoresArguments::of(alloc, arguments)?))),
        "follow" => Ok(Some(Request::Follow(FollowArguments::of(alloc, arguments)?))),
        "compare" => Ok(Some(Request::Compare(CompareArguments::of(arguments)))),
        "inputs" => Ok(Some(Request::Inputs(InputsArguments::of(alloc, arguments)?))),
        "calls" => Ok(Some(Request::Calls(CallsArguments::of(arguments)))),
        "trace" => Ok(Some(trace_request(arguments))),
        "cover" => Ok(Some(cover_request(arguments))),
        "module" => Ok(Some(Request::Module(ModuleArguments::of(arguments)))),
        "find" => Ok(Some(Request::Find(FindArguments::of(alloc, arguments)?))),
        "suggest" => Ok(Some(Request::Suggest(SuggestArguments::of(alloc, arguments)?))),
        "report" => Ok(Some(Request::Report(ReportArguments::of(arguments)))),
        _ => Ok(None),
    }
}

/// The request of the command `run`: a run among the devices of a board if one is given, else one on inputs.
fn run_request<'a>(arguments: &ArgMatches<'a>) -> Request<'a>
    ensures name { command_name result ≡ codes "run" }
    ensures arguments { AreArgumentsOf arguments.now result }
{
    match BoardRunArguments::of(arguments) {
        Some(asked) => Request::RunOnBoard(asked),
        None => Request::Run(RunArguments::of(arguments)),
    }
}

/// The request of the command `trace`: of a run among the devices of a board if one is given, else of one on inputs.
fn trace_request<'a>(arguments: &ArgMatches<'a>) -> Request<'a>
    ensures name { command_name result ≡ codes "trace" }
    ensures arguments { AreArgumentsOf arguments.now result }
{
    match BoardTraceArguments::of(arguments) {
        Some(asked) => Request::TraceOnBoard(asked),
        None => Request::Trace(TraceArguments::of(arguments)),
    }
}

/// The request of the command `cover`: of a run among the devices of a board if one is given, else of one on inputs.
fn cover_request<'a>(arguments: &ArgMatches<'a>) -> Request<'a>
    ensures name { command_name result ≡ codes "cover" }
    ensures arguments { AreArgumentsOf arguments.now result }
{
    match BoardRunArguments::of(arguments) {
        Some(asked) => Request::CoverOnBoard(asked),
        None => Request::Cover(CoverArguments::of(arguments)),
    }
}
