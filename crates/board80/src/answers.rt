//! What a place answers.

use crate::byte_list::ByteList;
use crate::table::Table;

/// What a port or a cell answers each time that it is read.
#[derive(Drop)]
pub enum Answers {
    /// The next byte of a list.
    Listed(ByteList),
    /// A byte by the last byte put out.
    By(Table),
}
