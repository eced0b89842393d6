//! Whether clap takes the words of a command line, asked of commands without the `--board` that stands in place of other arguments, and of those
//! with it alone: there no argument has a rule on another, so what clap takes is known.

ghost use Rattle.std.specs.Prelude.{◌≡◌, ◌≢◌, ◌++◌, Bool, [], true, false, filter_map, map, option_map, string_bytes, IfOk, OnOk};
ghost use Rattle.std.specs.List.{cons_option};
ghost use Rattle.clap.specs.{Faults.is_simple_and_free, Simple.app_of, Takes.takes, Values.kind_of};
ghost use Rattle.plm80_console.specs.SyntaxTable.{rule_of_argument, shape_of_syntax};
ghost use Rattle.plm80.specs.CommandLine.{IsUntaken, app_with, beside, commands, is_replaced, rule_beside};

use super::program_syntax::{commands, program_of};
use clap::error::ErrorKind;
use clap::{Command, Error};
use plm80_console::{Argument, Kind, Syntax, push_copies};
use std::alloc::{AllocError, Global};

/// Whether clap doesn't take these words, neither without a `--board` that stands in place of others nor with one.
///
/// # Errors
/// `AllocError` only if memory runs out.
pub(crate) fn is_untaken(alloc: Global, words: &[String]) -> Result<bool, AllocError>
    ensures { IfOk result (λ untaken. untaken ≡ true → IsUntaken (map string_bytes words.now)) }
{
    taken_words_are_known();
    if !is_untaken_beside(alloc, words, false)? {
        return Ok(false);
    }
    is_untaken_beside(alloc, words, true)
}

/// Which words clap takes of these commands is known: they are simple, and no argument of one has a rule on another. (A law: it does
/// nothing.)
fn taken_words_are_known()
    ensures { (boarded : Bool) → is_simple_and_free (app_with (map (beside boarded) commands)) ≡ true }
{}

/// Whether clap doesn't take these words, without such a `--board` or, if it is `boarded`, with one.
fn is_untaken_beside(alloc: Global, words: &[String], boarded: bool) -> Result<bool, AllocError>
    ensures { IfOk result (λ untaken. untaken ≡ true → takes (app_with (map (beside boarded) commands)) (map string_bytes words.now) ≡ false) }
{
    let all = commands(alloc)?;
    let arguments = arguments_of_all(alloc, &all, boarded)?;
    let kept = with_arguments(alloc, &all, &arguments, boarded)?;
    let mut copies = Vec::new(alloc);
    push_copies(alloc, words, &mut copies)?;
    is_refused(program_of(alloc, "", &kept)?, &copies)
}

/// Whether a program doesn't take these words.
fn is_refused<'a>(program: Command<'a>, words: &'a [String]) -> Result<bool, AllocError>
    ensures { IfOk result (λ refused. refused ≡ true → takes (app_of program.entry) (map string_bytes words.now) ≡ false) }
{
    let Err(error) = program.try_get_matches_from(words) else {
        return Ok(false);
    };
    blames_words(&error)
}

/// Whether an error of clap blames the words that it was given, as each does but for want of memory. `AllocError` for that.
fn blames_words(error: &Error) -> Result<bool, AllocError>
    ensures { IfOk result (λ _. kind_of error.now ≢ ErrorKind.OutOfMemory) }
{
    if error.kind() == ErrorKind::OutOfMemory {
        return Err(AllocError);
    }
    Ok(true)
}

/// The arguments of each command, without such a `--board`, or with it in place of others.
fn arguments_of_all<'a>(
    alloc: Global,
    all: &[Syntax<'a>],
    boarded: bool,
) -> Result<Vec<Vec<Argument<'a>>>, AllocError>
    ensures { IfOk result (λ kept. map (λ arguments. map rule_of_argument arguments.items) kept.items ≡ map (λ syntax. filter_map
        (rule_beside boarded) (map rule_of_argument syntax.arguments.now)) all.now) }
{
    let mut kept = Vec::new(alloc);
    for syntax in all {
        kept.push(arguments_beside(alloc, syntax.arguments, boarded)?)?;
    }
    Ok(kept)
}

/// Arguments of a command, without such a `--board`, or with it in place of others.
fn arguments_beside<'a>(
    alloc: Global,
    arguments: &[Argument<'a>],
    boarded: bool,
) -> Result<Vec<Argument<'a>>, AllocError>
    ensures { IfOk result (λ kept. map rule_of_argument kept.items ≡ filter_map (rule_beside boarded) (map rule_of_argument arguments.now)) }
{
    let mut kept = Vec::new(alloc);
    for argument in arguments {
        push_any(&mut kept, argument_beside(*argument, boarded))?;
    }
    Ok(kept)
}

/// Appends an argument, if there is one.
fn push_any<'a>(
    arguments: &mut Vec<Argument<'a>>,
    argument: Option<Argument<'a>>,
) -> Result<(), AllocError>
    ensures { OnOk result (arguments.new.items ≡ arguments.old.items ++ cons_option argument.entry []) }
{
    if let Some(argument) = argument {
        arguments.push(argument)?;
    }
    Ok(())
}

/// An argument, without such a `--board`, or with it in place of others; `None` if it isn't there then.
fn argument_beside<'a>(argument: Argument<'a>, boarded: bool) -> Option<Argument<'a>>
    ensures { option_map rule_of_argument result ≡ rule_beside boarded (rule_of_argument argument.entry) }
{
    match argument.kind {
        Kind::PathInPlaceOf(others) if !others.is_empty() => {
            if boarded {
                Some(Argument {
                    kind: Kind::Required("FILE"),
                    ..argument
                })
            } else {
                None
            }
        }
        _ if boarded && is_replaced(argument.name) => None,
        _ => Some(argument),
    }
}

/// Whether a `--board` stands in place of the argument of this name.
fn is_replaced(name: &str) -> bool
    ensures { result ≡ is_replaced name.now }
{
    name == "INPUTS"
        || name == "last"
        || name == "dump"
        || name == "rom-range"
        || name == "ram-range"
        || name == "quiet-ram"
        || name == "handler"
}

/// Commands with other arguments, those of each at its place.
fn with_arguments<'a>(
    alloc: Global,
    all: &[Syntax<'static>],
    arguments: &'a [Vec<Argument<'static>>],
    boarded: bool,
) -> Result<Vec<Syntax<'a>>, AllocError>
    requires { map (λ of. map rule_of_argument of.items) arguments.now ≡ map (λ syntax. filter_map (rule_beside boarded)
        (map rule_of_argument syntax.arguments.now)) all.now }
    ensures { IfOk result (λ kept. map shape_of_syntax kept.items ≡ map (beside boarded) (map shape_of_syntax all.now)) }
{
    let mut kept = Vec::new(alloc);
    for number in 0..all.len() {
        kept.push(with_these(&all[number], &arguments[number]))?;
    }
    Ok(kept)
}

/// A command with other arguments.
fn with_these<'a>(syntax: &Syntax<'static>, arguments: &'a [Argument<'static>]) -> Syntax<'a>
    ensures name { result.name.now ≡ syntax.now.name.now }
    ensures arguments { result.arguments.now ≡ arguments.now }
{
    Syntax {
        arguments,
        ..*syntax
    }
}
