//! The place of a module in libraries.

/// A module that a link takes from a library.
#[derive(Clone, Copy, Debug, PartialEq, Eq)]
pub struct Chosen {
    /// The index of the library among those of the link, from 0.
    pub library: usize,
    /// The index of the module in the library, from 0.
    pub module: usize,
}
