//! Values of options that begin with a hyphen: clap takes such a word for an option of its own, unless it is joined to the option before it.

ghost use Rattle.std.specs.Prelude.{◌≡◌, ◌≤◌, ◌==◌, ◌∷◌, ◌++◌, ℕ, List, false, codes, length, map, not, string_bytes, IfOk, OnOk};
ghost use Rattle.std.specs.{List.list_any, Str.bytes_eq};
ghost use Rattle.plm80_console.specs.JoinedValues.{is_option, joined_values};
ghost use Rattle.plm80_console.specs.SyntaxTable.{rule_of_argument, rule_of_kind, shape_of_syntax};

use crate::syntax::{Argument, Kind, Syntax};
use std::alloc::{AllocError, Global};

impl<'a> Syntax<'a> {
    /// Appends the words behind this command's name to `joined`, each value that begins with a hyphen joined to its option by an equals
    /// sign. The words behind `--` stay as they are. `AllocError` only if memory runs out; then some words are appended.
    pub fn push_joined(
        &self,
        alloc: Global,
        words: &[String],
        joined: &mut Vec<String>,
    ) -> Result<(), AllocError>
        ensures { OnOk result (map string_bytes joined.new.items
            ≡ map string_bytes joined.old.items ++ joined_values (shape_of_syntax self.now).rules (map string_bytes words.now)) }
    {
        let mut rest = words;
        while let [word, behind @ ..] = rest {
            if word.as_str() == "--" {
                return push_copies(alloc, rest, joined);
            }
            let (next, after) = self.joined_word(alloc, word, behind)?;
            joined.push(next)?;
            rest = after;
        }
        Ok(())
    }

    /// A word, joined to the value behind it if it is an option and the value begins with a hyphen; and the words that are left.
    /// `AllocError` only if memory runs out.
    fn joined_word<'w>(
        &self,
        alloc: Global,
        word: &str,
        behind: &'w [String],
    ) -> Result<(String, &'w [String]), AllocError>
        ensures joined { bytes_eq word.now (codes "--") ≡ false → IfOk result (λ made.
            joined_values (shape_of_syntax self.now).rules (word.now ∷ map string_bytes behind.entry.now)
            ≡ string_bytes made.0 ∷ joined_values (shape_of_syntax self.now).rules (map string_bytes made.1.now)) }
        ensures left { IfOk result (λ made. length made.1.now ≤ length behind.entry.now) }
    {
        match behind {
            [value, after @ ..] if self.takes_value(word) && value.starts_with('-') => {
                Ok((format!(in alloc; "{word}={value}")?, after))
            }
            _ => Ok((String::from_str(alloc, word)?, behind)),
        }
    }

    /// Whether the word is an option of this command that takes a value.
    fn takes_value(&self, word: &str) -> bool
        ensures { result ≡ list_any (is_option word.now) (shape_of_syntax self.now).rules }
    {
        for argument in self.arguments {
            if argument.is_option(word) {
                return true;
            }
        }
        false
    }
}

impl<'a> Argument<'a> {
    /// Whether the word is this argument, an option that takes a value.
    fn is_option(&self, word: &str) -> bool
        ensures { result ≡ is_option word.now (rule_of_argument self.now) }
    {
        self.kind.takes_value() && word.strip_prefix("--") == Some(self.name)
    }
}

impl<'a> Kind<'a> {
    /// Whether this is an option that takes a value.
    fn takes_value(&self) -> bool
        ensures { (name : List ℕ) → result ≡ not ((rule_of_kind self.now name).value_names == 0) }
    {
        match self {
            Kind::Path | Kind::Paths | Kind::Words | Kind::Written | Kind::Flag => false,
            Kind::WrittenOption(_)
            | Kind::WrittenIfGiven(_)
            | Kind::Replaced { .. }
            | Kind::Required(_)
            | Kind::Number(_)
            | Kind::Count(_)
            | Kind::PathsAt(_)
            | Kind::PathInPlaceOf(_) => true,
        }
    }
}

/// Appends copies of words. `AllocError` only if memory runs out; then some are appended.
pub fn push_copies(
    alloc: Global,
    words: &[String],
    copies: &mut Vec<String>,
) -> Result<(), AllocError>
    ensures { OnOk result (map string_bytes copies.new.items ≡ map string_bytes copies.old.items ++ map string_bytes words.now) }
{
    for word in words {
        copies.push(String::from_str(alloc, word)?)?;
    }
    Ok(())
}
