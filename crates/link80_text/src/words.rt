//! Words of the lines.

ghost use Rattle.std.specs.Prelude.{◌≡◌, ◌++◌, [], map, slice_index_or, OnOk};

use std::alloc::AllocError;

/// Appends `word`, and `value` after it. `Err` only if memory runs out.
pub(crate) fn append_word(text: &mut Vec<u8>, word: &[u8], value: &[u8]) -> Result<(), AllocError>
    ensures { OnOk result (text.new.items ≡ text.old.items ++ (word.now ++ value.now)) }
{
    text.extend_from_slice(word)?;
    text.extend_from_slice(value)
}

/// The path with this index, or no bytes if there is none.
pub(crate) fn path_of<'a>(paths: &[&'a [u8]], number: usize) -> &'a [u8]
    ensures { result.now ≡ slice_index_or (map (λ p. p.now) paths.now) number [] }
{
    match paths.get(number) {
        Some(path) => path,
        None => &[],
    }
}
