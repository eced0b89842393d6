//! Two stacks that meet.

/// The numbers of two stacks to be merged.
#[derive(Clone, Copy, PartialEq, Eq, Hash)]
pub(crate) struct Pair {
    /// The number of the first stack.
    pub(crate) one: u32,
    /// The number of the second stack.
    pub(crate) other: u32,
}
