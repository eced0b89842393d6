//! Sources that fail or never end, and sinks that fail.

ghost use Rattle.std.specs.Prelude.{◌≡◌};

use loader80::{Failed, Sink, Source};

/// A source that gives one byte a read, until its reads fail. It ends with its bytes, or never.
#[derive(Drop)]
pub struct ByteSource<'a> {
    /// The bytes that are left.
    left: &'a [u8],
    /// How many more reads succeed.
    reads: usize,
    /// Whether line feeds follow the bytes without end.
    is_endless: bool,
    /// How many reads have failed.
    failures: u64,
}

impl<'a> ByteSource<'a> {
    /// A source of these bytes, and of line feeds without end after them if `is_endless` is set.
    /// All reads fail after the first `reads`.
    pub fn new(left: &'a [u8], reads: usize, is_endless: bool) -> Self
        ensures { ⟦<ByteSource<'a> as Source>⟧.failed result ≡ 0 }
    {
        ByteSource {
            left,
            reads,
            is_endless,
            failures: 0,
        }
    }
}

impl<'a> Source for ByteSource<'a> {
    ghost use Rattle.std.specs.Prelude.{None};

    ghost left = { λ _. None };

    ghost failed = { λ s. s.failures };

    /// How many reads have failed.
    fn failures(&self) -> u64 {
        self.failures
    }

    /// Gives one byte; at the end none, or line feeds. Fails once `reads` reads have succeeded.
    fn read(&mut self, buffer: &mut [u8]) -> Result<usize, Failed> {
        if self.reads == 0 {
            self.failures += 1;
            return Err(Failed);
        }
        self.reads -= 1;
        if self.left.is_empty() {
            if self.is_endless {
                buffer.fill(b'\n');
                return Ok(buffer.len());
            }
            return Ok(0);
        }
        buffer[0] = self.left[0];
        self.left = &self.left[1..];
        Ok(1)
    }
}

/// A sink that takes one byte a write, until there is no room: then a write fails, or takes no byte.
#[derive(Drop)]
pub struct ByteSink {
    /// The bytes that were taken.
    pub taken: Vec<u8>,
    /// How many bytes are taken at most.
    room: usize,
    /// Whether a write without room fails; else it takes no byte.
    fails: bool,
    /// How many writes have found no room.
    failures: u64,
}

impl ByteSink {
    /// A sink with room for `room` bytes, which it appends to `taken`. Without room a write fails
    /// if `fails` is set, and else takes no byte.
    pub fn new(taken: Vec<u8>, room: usize, fails: bool) -> Self
        ensures { ⟦<ByteSink as Sink>⟧.failed result ≡ 0 }
    {
        ByteSink {
            taken,
            room,
            fails,
            failures: 0,
        }
    }
}

impl Sink for ByteSink {
    ghost use Rattle.std.specs.Prelude.{Some};

    ghost written = { λ s. Some s.taken.items };

    ghost failed = { λ s. s.failures };

    /// How many writes have found no room.
    fn failures(&self) -> u64 {
        self.failures
    }

    /// Takes the first byte if there is room; else fails or takes none.
    fn write(&mut self, bytes: &[u8]) -> Result<usize, Failed> {
        if self.taken.len() < self.room && self.taken.push(bytes[0]).is_ok() {
            return Ok(1);
        }
        self.failures += 1;
        if self.fails { Err(Failed) } else { Ok(0) }
    }
}
