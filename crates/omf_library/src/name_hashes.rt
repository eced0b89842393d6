//! Hashes of names for tables of them.

use omf_core::Name;
use std::hash::{BuildHasher, DefaultHasher, Hasher};

/// Builds the hashers for a table of names. Each starts from all names that were fed: if those are
/// all that the table will have, a name's hash depends on the others, so that names with one hash
/// can't be prepared. The table's answers don't depend on it.
#[derive(Clone, Copy)]
pub struct NameHashes {
    /// A hasher that was given the names that were fed.
    fed: DefaultHasher,
}

impl NameHashes {
    /// Hashes of a table for which no names were fed yet.
    pub fn new() -> NameHashes {
        NameHashes {
            fed: DefaultHasher::new(),
        }
    }

    /// Feeds a name that the table will have; the hash of every name changes by it.
    pub fn feed(&mut self, name: &Name) {
        self.fed.write(name.bytes());
    }
}

impl BuildHasher for NameHashes {
    type Hasher = DefaultHasher;

    ghost build_hasher = { λ h. h.fed };

    /// A hasher that starts from the names that were fed.
    fn build_hasher(&self) -> DefaultHasher {
        self.fed
    }
}
