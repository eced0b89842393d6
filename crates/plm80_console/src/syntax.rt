//! A command for clap: its name, its help text and its arguments, as a table.

ghost use Rattle.std.specs.Prelude.{◌≡◌, [], Some, true, false, IfOk};
ghost use Rattle.clap.specs.{declared.builder.texts.Texts.TheVariants.One, Simple.app_of, Walk.rule_of};
ghost use Rattle.plm80_console.specs.SyntaxTable.{app_of_syntax, rule_of_argument};

use clap::{Arg, ArgAction, Command};
use std::alloc::{AllocError, Global};

/// A command of the program for clap: its name, its help text and its arguments.
#[derive(Clone, Copy)]
pub struct Syntax<'a> {
    pub name: &'a str,
    pub about: &'a str,
    pub after_help: &'a str,
    pub arguments: &'a [Argument<'a>],
}

/// An argument of a command: its name, what it is, and its help text.
#[derive(Clone, Copy)]
pub struct Argument<'a> {
    pub name: &'a str,
    pub kind: Kind<'a>,
    pub help: &'a str,
}

/// What an argument is: a position or an option, whether it is required, and whether its value is a path.
#[derive(Clone, Copy)]
pub enum Kind<'a> {
    /// The path of a file to read, which is required.
    Path,
    /// The paths of one or more files to read, of which one is required.
    Paths,
    /// One or more words, none of which is a path; one is required.
    Words,
    /// The path of a file to write, which is required. No other argument of the command may name this file.
    Written,
    /// An option that is required, whose value is the path of a file to write, which the help text calls by this word. No other argument
    /// may name this file.
    WrittenOption(&'a str),
    /// An option whose value is the path of a file to write, which the help text calls by this word. No other argument may name this file.
    WrittenIfGiven(&'a str),
    /// An option whose value is the path of a file to write, which the help text calls `value`. Of the other arguments only `old`, which
    /// reads, may name this file.
    Replaced { value: &'a str, old: &'a str },
    /// An option that is required, whose value is no path; the help text calls it by this word. Any argument after the option is its value.
    Required(&'a str),
    /// An option with a number, which the help text calls by this word. Any argument after the option is its value, and
    /// the program reads it.
    Number(&'a str),
    /// An option whose value is a number, which the help text calls `N`; with this default.
    Count(&'a str),
    /// An option without a value.
    Flag,
    /// An option that may be given more than once, whose values are each a number, an equals sign and the path of a file to
    /// read; the help text calls one by this word.
    PathsAt(&'a str),
    /// An option whose value is the path of a file to read, which the help text calls `FILE`. It stands in place of the options of
    /// these names, and is refused beside one of them.
    PathInPlaceOf(&'a [&'a str]),
}

impl<'a> Syntax<'a> {
    /// The command with its arguments and `--why`, for clap. `AllocError` only if memory runs out.
    pub fn command(&self, alloc: Global) -> Result<Command<'a>, AllocError>
        ensures { IfOk result (λ command. app_of command ≡ app_of_syntax self.now) }
    {
        let mut command = Command::new(alloc, self.name)
            .about(self.about)
            .after_help(self.after_help);
        for argument in self.arguments {
            command = command.arg(argument.arg(alloc)?)?;
        }
        command.arg(WHY.arg(alloc)?)
    }
}

/// The option by which faults are explained, which every command has.
pub const WHY: Argument<'static> = Argument {
    name: "why",
    kind: Kind::Flag,
    help: "Explain a fault below its line",
};

impl<'a> Argument<'a> {
    /// This argument as clap takes it. `AllocError` only if memory runs out.
    fn arg(&self, alloc: Global) -> Result<Arg<'a>, AllocError>
        ensures rule { IfOk result (λ arg. rule_of arg ≡ rule_of_argument self.now) }
        ensures local { IfOk result (λ arg. arg.global ≡ false) }
    {
        let arg = self.arg_beside_all(alloc);
        match self.kind {
            Kind::PathInPlaceOf(others) => arg.conflicts_with_all(others),
            _ => Ok(arg),
        }
    }

    /// This argument as clap takes it if it may stand beside all others.
    fn arg_beside_all(&self, alloc: Global) -> Arg<'a>
        ensures rule { rule_of result ≡ record (rule_of_argument self.now) { is_free = true } }
        ensures local { result.global ≡ false }
        ensures free { result.conflicts.items ≡ [] }
    {
        let arg = Arg::new(alloc, self.name).help(self.help);
        match self.kind {
            Kind::Path | Kind::Written => arg.required(true),
            Kind::Paths | Kind::Words => arg.required(true).num_args(1..).action(ArgAction::Append),
            Kind::Required(value) | Kind::WrittenOption(value) => {
                option(arg, self.name, value).required(true)
            }
            Kind::Number(value) | Kind::WrittenIfGiven(value) | Kind::Replaced { value, .. } => {
                option(arg, self.name, value)
            }
            Kind::Count(default) => option(arg, self.name, "N").default_value(default),
            Kind::Flag => arg.long(self.name).action(ArgAction::SetTrue),
            Kind::PathsAt(value) => option(arg, self.name, value).action(ArgAction::Append),
            Kind::PathInPlaceOf(_) => option(arg, self.name, "FILE"),
        }
    }
}

/// Makes an argument of clap an option of this name. The help text calls its value by this word.
fn option<'a>(arg: Arg<'a>, name: &'a str, value: &'a str) -> Arg<'a>
    ensures { result ≡ record arg.entry { long = Some name.entry; val_names = One value.entry } }
{
    arg.long(name).value_name(value)
}
