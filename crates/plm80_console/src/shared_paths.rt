//! Paths that two arguments of a command share.

ghost use Rattle.std.specs.Prelude.{◌≡◌, true, false, option_map, string_bytes, IfErr, IfOk, IfNone, IfSome, OnOk};
ghost use Rattle.std.specs.{List.list_any, Str.bytes_eq};
ghost use Rattle.plm80_console.specs.ApartPaths.{AreApart, IsApart, IsApartFrom, has_path, path_to_write, stands_behind};
ghost use Rattle.plm80_console.specs.Kinds.{may_replace, names_no_file, shown_text};
ghost use Rattle.plm80_console.specs.{Refusals.IsConflict, SharedPaths.IsWrittenBy};

use crate::comparison::Comparison;
use crate::console::Console;
use crate::one_line::OneLine;
use crate::syntax::{Argument, Kind, Syntax};
use clap::error::ErrorKind;
use clap::{ArgMatches, Error};
use std::alloc::{AllocError, Global};

impl<'a> Syntax<'a> {
    /// Refuses arguments by which a file would be read and written, or written twice: those in which the path of a file to write is
    /// that of another argument, letter for letter or by another spelling or a link. The error is one of clap; it may be out of memory.
    pub fn refuse_shared_paths<C: Console>(
        &self,
        console: &C,
        matches: &ArgMatches<'_>,
    ) -> Result<(), Error>
        ensures apart { OnOk result (AreApart matches.now self.now.arguments.now) }
        ensures conflict { IfErr result IsConflict }
    {
        if let Some(shared) = self.shared_path(console, matches, Comparison::Letters) {
            return Err(self.refusal(console.alloc(), shared)?);
        }
        match self.shared_path(console, matches, Comparison::Files) {
            Some(shared) => Err(self.refusal(console.alloc(), shared)?),
            None => Ok(()),
        }
    }

    /// The first path of a file to write that another argument has too, by this comparison; `None` if there is none.
    fn shared_path<'m, C: Console>(
        &self,
        console: &C,
        matches: &ArgMatches<'m>,
        comparison: Comparison,
    ) -> Option<SharedPath<'m, 'a>>
        ensures shared { IfSome result (IsWrittenBy matches.now) }
        ensures letters { comparison ≡ Comparison.Letters → IfSome result (λ shared.
            has_path shared.other.kind matches.now shared.other.name.now shared.path.now ≡ true) }
        ensures apart { comparison ≡ Comparison.Letters → IfNone result (AreApart matches.now self.now.arguments.now) }
    {
        for index in 0..self.arguments.len() {
            if let Some(shared) = self.path_shared_by(console, matches, comparison, index) {
                return Some(shared);
            }
        }
        None
    }

    /// The path of the argument with this index, if it is that of a file to write and another argument has it too; else `None`.
    #[tactic(auto, using(crate::proofs::SharedLemmas::is_written_by))]
    fn path_shared_by<'m, C: Console>(
        &self,
        console: &C,
        matches: &ArgMatches<'m>,
        comparison: Comparison,
        index: usize,
    ) -> Option<SharedPath<'m, 'a>>
        ensures shared { IfSome result (IsWrittenBy matches.now) }
        ensures letters { comparison ≡ Comparison.Letters → IfSome result (λ shared.
            has_path shared.other.kind matches.now shared.other.name.now shared.path.now ≡ true) }
        ensures apart { comparison ≡ Comparison.Letters → IfNone result (IsApart matches.now self.now.arguments.now index) }
    {
        let written = *self.arguments.get(index)?;
        let path = written.path_to_write(matches)?;
        for (other, argument) in self.arguments.iter().enumerate() {
            if other != index && written.shares(console, path, argument, matches, comparison) {
                return Some(SharedPath {
                    path,
                    written,
                    other: *argument,
                });
            }
        }
        None
    }

    /// The error that a path is shared, as clap prints errors of this command. `AllocError` only if memory runs out.
    fn refusal(&self, alloc: Global, shared: SharedPath<'_, 'a>) -> Result<Error, AllocError>
        ensures { IfOk result IsConflict }
    {
        let (written, other) = (
            shared.written.shown_text(alloc)?,
            shared.other.shown_text(alloc)?,
        );
        let text = format!(in alloc;
            "the path '{}' of '{written}', which is written, is also that of '{other}'",
            OneLine(shared.path),
        )?;
        let name = format!(in alloc; "plm80 {}", self.name)?;
        self.command(alloc)?
            .bin_name(&name)?
            .error(ErrorKind::ArgumentConflict, &text)
    }
}

/// A path of a file to write, the argument that has it, and another one that has it too.
#[derive(Clone, Copy)]
struct SharedPath<'m, 'a> {
    path: &'m str,
    written: Argument<'a>,
    other: Argument<'a>,
}

impl<'a> Argument<'a> {
    /// The value of this argument if it is the path of a file to write; `None` if it isn't given, or is of another kind.
    fn path_to_write<'m>(&self, matches: &ArgMatches<'m>) -> Option<&'m str>
        ensures { option_map (λ path. path.now) result ≡ path_to_write matches.now self.now }
    {
        match self.kind {
            Kind::Written
            | Kind::WrittenOption(_)
            | Kind::WrittenIfGiven(_)
            | Kind::Replaced { .. } => matches.get_str(self.name),
            _ => None,
        }
    }

    /// Whether this argument may write the very file that the other one reads.
    fn may_replace(&self, other: &Argument<'_>) -> bool
        ensures { result ≡ may_replace self.now.kind other.now.name.now }
    {
        match self.kind {
            Kind::Replaced { old, .. } => other.name == old,
            _ => false,
        }
    }

    /// Whether the other argument has the path of the file that this one writes, and isn't one whose file may be replaced.
    fn shares<C: Console>(
        &self,
        console: &C,
        path: &str,
        other: &Argument<'_>,
        matches: &ArgMatches<'_>,
        comparison: Comparison,
    ) -> bool
        ensures replaced { result ≡ true → may_replace self.now.kind other.now.name.now ≡ false }
        ensures apart { comparison ≡ Comparison.Letters → result ≡ false → IsApartFrom matches.now self.now path.now other.now }
        ensures letters { comparison ≡ Comparison.Letters → result ≡ true
            → has_path other.now.kind matches.now other.now.name.now path.now ≡ true }
    {
        !self.may_replace(other) && other.has_path(console, matches, comparison, path)
    }

    /// Whether the path is a value of this argument, or behind an equals sign in one, by this comparison.
    fn has_path<C: Console>(
        &self,
        console: &C,
        matches: &ArgMatches<'_>,
        comparison: Comparison,
        path: &str,
    ) -> bool
        ensures no_file { names_no_file self.now.kind ≡ true → result ≡ false }
        ensures letters { comparison ≡ Comparison.Letters → result ≡ has_path self.now.kind matches.now self.now.name.now path.now }
    {
        match self.kind {
            Kind::Path
            | Kind::Written
            | Kind::WrittenOption(_)
            | Kind::WrittenIfGiven(_)
            | Kind::Replaced { .. }
            | Kind::PathInPlaceOf(_) => match matches.get_str(self.name) {
                Some(own) => comparison.is_one(console, own, path),
                None => false,
            },
            Kind::Paths => is_among(
                console,
                comparison,
                matches.get_strs(self.name).unwrap_or(&[]),
                path,
            ),
            Kind::PathsAt(_) => {
                is_behind(
                    console,
                    comparison,
                    matches.get_strs(self.name).unwrap_or(&[]),
                    path,
                )
            }
            Kind::Words | Kind::Required(_) | Kind::Number(_) | Kind::Count(_) | Kind::Flag =>
                false,
        }
    }

    /// The argument as clap's errors show it. `AllocError` only if memory runs out.
    fn shown_text(&self, alloc: Global) -> Result<String, AllocError>
        ensures { IfOk result (λ shown. string_bytes shown ≡ shown_text self.now.kind self.now.name.now) }
    {
        match self.kind {
            Kind::Path | Kind::Written => format!(in alloc; "<{}>", self.name),
            Kind::Paths | Kind::Words => format!(in alloc; "<{}>...", self.name),
            Kind::Required(value)
            | Kind::WrittenOption(value)
            | Kind::WrittenIfGiven(value)
            | Kind::Replaced { value, .. }
            | Kind::Number(value)
            | Kind::PathsAt(value) => { format!(in alloc; "--{} <{value}>", self.name) }
            Kind::Flag => format!(in alloc; "--{}", self.name),
            Kind::Count(_) => format!(in alloc; "--{} <N>", self.name),
            Kind::PathInPlaceOf(_) => format!(in alloc; "--{} <FILE>", self.name),
        }
    }
}

/// Whether the path is one of these paths, by this comparison.
fn is_among<C: Console>(console: &C, comparison: Comparison, paths: &[&str], path: &str) -> bool
    ensures { comparison ≡ Comparison.Letters → result ≡ list_any (λ own. bytes_eq own.now path.now) paths.now }
{
    for own in paths {
        if comparison.is_one(console, own, path) {
            return true;
        }
    }
    false
}

/// Whether the path is that of one of these values, each a number, an equals sign and a path, by this comparison.
fn is_behind<C: Console>(console: &C, comparison: Comparison, values: &[&str], path: &str) -> bool
    ensures { comparison ≡ Comparison.Letters → result ≡ list_any (λ value. stands_behind value.now path.now) values.now }
{
    for value in values {
        if is_path_of(console, comparison, value, path) {
            return true;
        }
    }
    false
}

/// Whether the path stands behind the first equals sign of this value, by this comparison.
fn is_path_of<C: Console>(console: &C, comparison: Comparison, value: &str, path: &str) -> bool
    ensures { comparison ≡ Comparison.Letters → result ≡ stands_behind value.now path.now }
{
    match value.split_once('=') {
        Some((_, own)) => comparison.is_one(console, own, path),
        None => false,
    }
}
