//! How paths are compared.

ghost use Rattle.std.specs.Prelude.{◌≡◌};
ghost use Rattle.std.specs.Str.{bytes_eq};

use crate::console::Console;

/// How two paths are compared.
#[derive(Clone, Copy)]
pub(crate) enum Comparison {
    /// Paths are one if their letters are the same.
    Letters,
    /// Paths are one if they name one file, by whatever spellings and links.
    Files,
}

impl Comparison {
    /// Whether two paths are one, compared in this way.
    pub(crate) fn is_one<C: Console>(self, console: &C, first: &str, second: &str) -> bool
        ensures { self ≡ Comparison.Letters → result ≡ bytes_eq first.now second.now }
    {
        match self {
            Comparison::Letters => first == second,
            Comparison::Files => console.is_one_file(first, second),
        }
    }
}
