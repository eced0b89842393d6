//! The texts of arguments, so that a contract can say which argument a path is that of.

ghost use Rattle.std.specs.Prelude.{◌≡◌, map, IfOk};
ghost use Rattle.plm80_console.specs.Arguments.{argument_text, argument_values};

use clap::ArgMatches;
use std::alloc::{AllocError, Global};

/// The value of the argument of this name, which clap requires; empty if there is none.
pub fn argument_text<'a>(matches: &ArgMatches<'a>, name: &str) -> &'a str
    ensures { result.now ≡ argument_text matches.now name.now }
{
    match matches.get_str(name) {
        Some(text) => text,
        None => "",
    }
}

/// The values of the argument of this name, which may have several, in order; none if it isn't given. A fault only if memory runs out.
pub fn argument_values<'a>(
    alloc: Global,
    matches: &ArgMatches<'a>,
    name: &str,
) -> Result<Vec<&'a str>, AllocError>
    ensures { IfOk result (λ values. map (λ value. value.now) values.items ≡ argument_values matches.now name.now) }
{
    match matches.get_strs(name) {
        Some(values) => Vec::from_slice(alloc, values),
        None => Ok(Vec::new(alloc)),
    }
}
