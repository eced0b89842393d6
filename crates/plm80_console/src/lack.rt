//! What the machine or its system lacks.

use thiserror::Error;

/// A fault that blames neither arguments nor files: what the machine or its system doesn't give.
#[derive(Clone, Copy, Debug, Error)]
pub enum Lack {
    /// Memory ran out.
    #[error("Memory")]
    Memory,
    /// A file can't be read.
    #[error("Read")]
    Read,
    /// Standard input can't be read.
    #[error("Read 1")]
    ReadInput,
    /// A file can't be written, or standard output takes no more.
    #[error("Write")]
    Write,
    /// A file has more bytes than are read, or would have more than are written.
    #[error("TooLong")]
    TooLong,
    /// Standard input has more bytes than are read.
    #[error("TooLong 1")]
    LongInput,
}
