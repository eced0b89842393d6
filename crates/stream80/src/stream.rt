//! Readers and writers whose failures are counted.
//!
//! A [`Source`] gives bytes and a [`Sink`] takes them. Each counts the calls that failed, so that a
//! caller can distinguish a failure of the outside from an answer of its own making.
ghost use Rattle.std.specs.Prelude.{◌≡◌, ℕ, ◌+◌, ◌<◌, List, Option, length};
ghost use Rattle.std.specs.Io.{ReadsAtMost, WritesAtMost};
ghost use Rattle.std.specs.Io.KnownBytes.{ReadConsumes, WriteAppends};
ghost use Rattle.stream80.specs.Failures.{read_failures, write_failures};

/// A read or a write that failed, without the reason.
#[derive(Clone, Copy, Debug, PartialEq, Eq)]
pub struct Failed;

/// A reader of bytes that counts the reads that failed.
pub trait Source {
    // The bytes that are left, if they are known.
    ghost left: { Self → Option (List ℕ) };

    // How many reads failed so far.
    ghost failed: { Self → ℕ };

    /// The number of reads that failed so far.
    fn failures(&self) -> u64
        ensures { result ≡ failed self.now };

    /// Reads at most `buffer.len()` of the bytes that are left into the front of `buffer`, which
    /// must not be empty, and returns their number; 0 means the end. A failed read takes no bytes
    /// from the source; an interrupted read is a failure. The count of failures must be below the
    /// greatest `u64`.
    fn read(&mut self, buffer: &mut [u8]) -> Result<usize, Failed>
        requires room { 0 < length buffer.old }
        requires countable { failed self.old < u64.MAX }
        ensures bound { ReadsAtMost result buffer.new }
        ensures bytes { ReadConsumes (left self.old) (left self.new) result buffer.new }
        ensures count { failed self.new ≡ failed self.old + read_failures result };
}

/// A writer of bytes that counts the writes that failed.
pub trait Sink {
    // The bytes that were written, if they are known.
    ghost written: { Self → Option (List ℕ) };

    // How many writes failed so far.
    ghost failed: { Self → ℕ };

    /// The number of writes that failed so far.
    fn failures(&self) -> u64
        ensures { result ≡ failed self.now };

    /// Writes some bytes from the front of `bytes`, which must not be empty, and returns their
    /// number; `Ok(0)` counts as a failed write too. A failed write writes nothing; an interrupted
    /// write is a failure. The count of failures must be below the greatest `u64`.
    fn write(&mut self, bytes: &[u8]) -> Result<usize, Failed>
        requires some { 0 < length bytes.now }
        requires countable { failed self.old < u64.MAX }
        ensures bound { WritesAtMost result bytes.now }
        ensures bytes { WriteAppends (written self.old) (written self.new) result bytes.now }
        ensures count { failed self.new ≡ failed self.old + write_failures result };
}
