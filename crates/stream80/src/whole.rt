//! A source read whole, and bytes written whole.
ghost use Rattle.std.specs.Prelude.{◌≡◌, ℕ, ◌+◌, ◌<◌, ◌≤◌, length, take, IfOk, IfSome, OnErr, OnOk, vec_len};
ghost use Rattle.std.specs.Io.KnownBytes.{Appends, IsAtEnd};
ghost use Rattle.stream80.specs.Failures.{error_failures};
ghost use Rattle.stream80.specs.WholeText.{TakesAtMost, read_all_failures};

use crate::stream::{Failed, Sink, Source};
use std::alloc::{AllocError, Global};

/// The most bytes that a text may have: 1 MiB.
pub const TEXT_LIMIT: usize = 1_048_576;

/// Why [`read_all`] didn't read a source to its end.
#[derive(Clone, Copy, PartialEq, Eq)]
pub enum ReadAllFault {
    /// A read of the source failed.
    Read,
    /// The source has more bytes than the limit.
    TooLong,
    /// Out of memory for the bytes.
    Memory,
}

impl From<AllocError> for ReadAllFault {
    ghost use Rattle.stream80.specs.declared.whole.ReadAllFault.TheVariants.{Memory};

    ghost from_gives = { λ _ fault. fault ≡ Memory };

    fn from(_: AllocError) -> ReadAllFault {
        ReadAllFault::Memory
    }
}

impl From<Failed> for ReadAllFault {
    ghost use Rattle.stream80.specs.declared.whole.ReadAllFault.TheVariants.{Read};

    ghost from_gives = { λ _ fault. fault ≡ Read };

    fn from(_: Failed) -> ReadAllFault {
        ReadAllFault::Read
    }
}

/// The most bytes that [`read_all`] asks for in one read.
const PIECE: usize = 4096;

/// Reads `source` to its end and returns its bytes, at most `limit`. At most `limit` + 1 bytes are
/// taken from the source, the last of which shows that there are too many. `limit` must be below
/// the greatest `usize`, and the source's count of failures below the greatest `u64`.
///
/// # Errors
/// `Read` if a read fails; `TooLong` if there are more than `limit` bytes; `Memory` if memory runs out.
pub fn read_all<S: Source>(
    alloc: Global,
    source: &mut S,
    limit: usize,
) -> Result<Vec<u8>, ReadAllFault>
    requires countable { S.failed source.old < u64.MAX }
    requires bounded { limit < usize.MAX }
    ensures whole { IfOk result (λ bytes. IfSome (S.left source.old) (λ text. bytes.items ≡ text)) }
    ensures at_end { OnOk result (IsAtEnd (S.left source.new)) }
    ensures within { IfOk result (λ bytes. vec_len bytes ≤ limit) }
    ensures too_long { result ≡ Err ReadAllFault.TooLong → IfSome (S.left source.old) (λ text. limit < length text) }
    ensures taken { TakesAtMost (limit + 1) (S.left source.old) (S.left source.new) }
    ensures count { S.failed source.new ≡ S.failed source.old + read_all_failures result }
{
    let mut bytes = Vec::new(alloc);
    let mut piece = [0u8; PIECE];
    while bytes.len() <= limit {
        let room = PIECE.min(limit - bytes.len() + 1);
        let count = source.read(&mut piece[..room])?;
        if count == 0 {
            return Ok(bytes);
        }
        bytes.extend_from_slice(&piece[..count])?;
    }
    Err(ReadAllFault::TooLong)
}

/// Writes all of `bytes` to `sink`, whose count of failures must be below the greatest `u64`.
///
/// # Errors
/// `Failed` if a write fails or takes no byte; a proper prefix of the bytes has then been written.
pub fn write_all<K: Sink>(sink: &mut K, bytes: &[u8]) -> Result<(), Failed>
    requires { K.failed sink.old < u64.MAX }
    ensures whole { OnOk result (Appends (K.written sink.old) (K.written sink.new) bytes.now) }
    ensures prefix { OnErr result ((n : ℕ) × (n < length bytes.now)
        × Appends (K.written sink.old) (K.written sink.new) (take n bytes.now)) }
    ensures count { K.failed sink.new ≡ K.failed sink.old + error_failures result }
{
    let mut at = 0;
    while at < bytes.len() {
        let count = sink.write(&bytes[at..])?;
        if count == 0 {
            return Err(Failed);
        }
        at += count;
    }
    Ok(())
}
