//! The words of a command line, as clap is given them.

ghost use Rattle.std.specs.Prelude.{◌≡◌, map, string_bytes, IfOk};
ghost use Rattle.plm80.specs.CommandLine.{joined_words};

use super::program_syntax::command_named;
use plm80_console::push_copies;
use std::alloc::{AllocError, Global};

/// The words of a command line, each value that begins with a hyphen joined to its option by an equals sign. `AllocError` only if memory
/// runs out.
pub fn joined_words(alloc: Global, words: &[String]) -> Result<Vec<String>, AllocError>
    ensures { IfOk result (λ joined. map string_bytes joined.items ≡ joined_words (map string_bytes words.now)) }
{
    let mut joined = Vec::new(alloc);
    let [own, name, arguments @ ..] = words else {
        push_copies(alloc, words, &mut joined)?;
        return Ok(joined);
    };
    joined.push(String::from_str(alloc, own)?)?;
    joined.push(String::from_str(alloc, name)?)?;
    match command_named(alloc, name)? {
        Some(command) => command.push_joined(alloc, arguments, &mut joined)?,
        None => push_copies(alloc, arguments, &mut joined)?,
    }
    Ok(joined)
}
