//! Sinks that are made of the writers of std.

ghost use Rattle.std.specs.Prelude.{◌≡◌};

use crate::stream::{Failed, Sink};
use std::io::Write;

/// A [`Sink`] made of one of std's writers.
#[derive(Drop)]
pub struct Writing<W> {
    /// The writer that takes the bytes.
    inner: W,
    /// The number of writes that failed so far, those that took no byte included.
    failures: u64,
}

impl<W: Write> Writing<W> {
    /// A sink that writes to `inner`, with no failed write counted.
    pub fn new(inner: W) -> Writing<W>
        ensures written { ⟦<Writing<W> as Sink>⟧.written result ≡ W.contents inner }
        ensures unfailed { ⟦<Writing<W> as Sink>⟧.failed result ≡ 0 }
    {
        Writing { inner, failures: 0 }
    }
}

impl<W: Write> Sink for Writing<W> {
    ghost written = { λ s. W.contents s.inner };

    ghost failed = { λ s. s.failures };

    fn failures(&self) -> u64 {
        self.failures
    }

    /// Writes to `inner`; every error of it and every `Ok(0)` is counted, an error answered as
    /// `Failed`.
    fn write(&mut self, bytes: &[u8]) -> Result<usize, Failed> {
        match self.inner.write(bytes) {
            Ok(0) => {
                self.failures += 1;
                Ok(0)
            }
            Ok(count) => Ok(count),
            Err(_) => {
                self.failures += 1;
                Err(Failed)
            }
        }
    }
}
