//! A file to write, lent.

/// A file to write, borrowed: its path, and all bytes that it gets.
#[derive(Clone, Copy)]
pub struct NewFile<'a> {
    pub path: &'a str,
    pub bytes: &'a [u8],
}
