//! Sources that are made of the readers of std.

ghost use Rattle.std.specs.Prelude.{◌≡◌};

use crate::stream::{Failed, Source};
use std::io::Read;

/// A [`Source`] made of one of std's readers.
#[derive(Drop)]
pub struct Reading<R> {
    /// The reader that gives the bytes.
    inner: R,
    /// The number of reads that failed so far.
    failures: u64,
}

impl<R: Read> Reading<R> {
    /// A source of the bytes that `inner` hasn't given yet, with no failed read counted.
    pub fn new(inner: R) -> Reading<R>
        ensures left { ⟦<Reading<R> as Source>⟧.left result ≡ R.remaining inner }
        ensures unfailed { ⟦<Reading<R> as Source>⟧.failed result ≡ 0 }
    {
        Reading { inner, failures: 0 }
    }
}

impl<R: Read> Source for Reading<R> {
    ghost left = { λ s. R.remaining s.inner };

    ghost failed = { λ s. s.failures };

    fn failures(&self) -> u64 {
        self.failures
    }

    /// Reads from `inner`; every error of it is counted, and answered as `Failed`.
    fn read(&mut self, buffer: &mut [u8]) -> Result<usize, Failed> {
        match self.inner.read(buffer) {
            Ok(count) => Ok(count),
            Err(_) => {
                self.failures += 1;
                Err(Failed)
            }
        }
    }
}
